// A set of numbers below 64, in one word: bit n, least first, for the number n.
#![tactic(auto)]

ghost use Rattle.std.specs.Prelude.{◌≡◌, ℕ, ◌<◌, ◌≤◌, true, false, not, ◌&&◌, ◌||◌, length, Decides, MatchOption, ◌==◌, nat_lt};
ghost use Rattle.set64.specs.Sets.{has, members, Least};

// Every word is a set, so there is nothing for a caller to keep true.
#[derive(Clone, Copy, Debug, PartialEq, Eq)]
pub struct Set64 {
    word: u64,
}

impl Set64 {
    // The set with no member.
    #[tactic(auto, using(crate::proofs::Digit::bit_zero), unfolding(crate::specs::Sets::has))]
    pub fn empty() -> Self
        ensures { (n : ℕ) → has result n ≡ false }
    {
        Set64 { word: 0 }
    }

    // Whether n is a member. No number above 63 is.
    pub fn contains(self, n: u8) -> bool
        ensures value { result ≡ has self n }
        ensures small { (m : ℕ) → has self m ≡ true → m < 64 }
    {
        n < 64 && (self.word >> n) & 1 == 1
    }

    // The set with n too. A number above 63 changes nothing.
    #[tactic(auto, using(crate::proofs::Digit::or_bit, crate::proofs::Digit::shifted_bit), unfolding(crate::specs::Sets::has))]
    pub fn insert(self, n: u8) -> Self
        ensures { (m : ℕ) → has result m ≡ (has self m || (nat_lt n 64 && m == n)) }
    {
        if n < 64 {
            Set64 {
                word: self.word | (1 << n),
            }
        } else {
            self
        }
    }

    // The set without n.
    pub fn remove(self, n: u8) -> Self
        ensures { (m : ℕ) → has result m ≡ (has self m && not (m == n)) }
    {
        if n < 64 {
            Set64 {
                word: self.word & !(1 << n),
            }
        } else {
            self
        }
    }

    // What is in one of the two, or in both.
    #[tactic(auto, using(crate::proofs::Digit::or_bit), unfolding(crate::specs::Sets::has))]
    pub fn union(self, other: Set64) -> Self
        ensures { (m : ℕ) → has result m ≡ (has self m || has other m) }
    {
        Set64 {
            word: self.word | other.word,
        }
    }

    // What is in both.
    #[tactic(auto, using(crate::proofs::Digit::and_bit), unfolding(crate::specs::Sets::has))]
    pub fn intersection(self, other: Set64) -> Self
        ensures { (m : ℕ) → has result m ≡ (has self m && has other m) }
    {
        Set64 {
            word: self.word & other.word,
        }
    }

    // What is in this one and not in the other.
    #[tactic(auto, using(crate::proofs::Digit::without_bit), unfolding(crate::specs::Sets::has))]
    pub fn without(self, other: Set64) -> Self
        ensures { (m : ℕ) → has result m ≡ (has self m && not (has other m)) }
    {
        Set64 {
            word: self.word & !other.word,
        }
    }

    // Whether the two have a member in common.
    #[tactic(auto, using(crate::proofs::Digit::common_bit, crate::proofs::Digit::common_more), unfolding(crate::specs::Sets::has))]
    pub fn meets(self, other: Set64) -> bool
        ensures { Decides result ((m : ℕ) × (has self m ≡ true) × (has other m ≡ true)) }
    {
        self.word & other.word != 0
    }

    // Whether there is no member.
    pub fn is_empty(self) -> bool
        ensures { Decides result ((m : ℕ) → has self m ≡ false) }
    {
        self.word == 0
    }

    // Whether the two have the same members. Then they are one set. kept: `==` by itself promises less.
    pub fn is_same(self, other: Set64) -> bool
        ensures alike { Decides result ((n : ℕ) → has self n ≡ has other n) }
        ensures one { Decides result (self ≡ other) }
    {
        self == other
    }

    // The least member, where there is one.
    #[tactic(auto, using(crate::proofs::Digit::trailing_lowest, crate::proofs::Digit::bit_zero), unfolding(crate::specs::Sets::has))]
    pub fn lowest(self) -> Option<u8>
        ensures { MatchOption result ((m : ℕ) → has self m ≡ false) (λ n. (n < 64) × Least self n) }
    {
        if self.word == 0 {
            None
        } else {
            Some(self.word.trailing_zeros() as u8)
        }
    }

    // How many members there are.
    #[tactic(auto, using(crate::proofs::Members::length_members), unfolding(crate::specs::Sets::has))]
    pub fn count(self) -> u8
        ensures value { result ≡ length (members self) }
        ensures bound { result ≤ 64 }
    {
        self.word.count_ones() as u8
    }
}
