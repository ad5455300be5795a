// Terms and parents as elements of a text: each reads its own bytes and writes them again.
ghost use Rattle.std.specs.Prelude.{◌≡◌, ◌∷◌, codes};
ghost use Rattle.std.specs.Str.{bytes_eq};
ghost use Rattle.fixed.specs.Items.{items};
ghost use Rattle.format.specs.Bytes.{spelled};
ghost use Rattle.chart.specs.Kinds.{term_kind, parent_kind, term_of};
ghost use Rattle.chart.specs.Spellings.{term_exact, parent_exact};

use super::drawing::{Parent, Term};
use super::id::{ConditionId, StateId};
use fixed::array_vec::ArrayVec;
use format::bytes::{digits, number};
use format::element::Element;

// The term that a letter and a number make: one of four letters, each a case.
fn term(letter: char, number: u8) -> Option<Term>
    ensures { result ≡ term_of letter number }
{
    match letter {
        's' => Some(Term::Active(StateId::new(number))),
        'n' => Some(Term::Inactive(StateId::new(number))),
        'c' => Some(Term::Holds(ConditionId::new(number))),
        'd' => Some(Term::Fails(ConditionId::new(number))),
        _ => None,
    }
}

impl Element for Term {
    ghost kind = { term_kind };

    ghost wide = { 3 };

    ghost exact = { term_exact };

    fn letters(self) -> ArrayVec<u8, 4> {
        match self {
            Term::Active(state) => lettered(b's', state.0),
            Term::Inactive(state) => lettered(b'n', state.0),
            Term::Holds(condition) => lettered(b'c', condition.0),
            Term::Fails(condition) => lettered(b'd', condition.0),
        }
    }

    fn shape_of(bytes: &[u8]) -> Option<Self> {
        let [letter, digits @ ..] = bytes else {
            return None;
        };
        term(char::from(*letter), number(digits)?)
    }

    fn may_follow(self, _before: Self) -> bool {
        true
    }

    fn is_inside(self, limit: u8) -> bool {
        match self {
            Term::Active(state) => state.0 < limit,
            Term::Inactive(state) => state.0 < limit,
            Term::Holds(condition) => condition.0 < 32,
            Term::Fails(condition) => condition.0 < 32,
        }
    }
}

// A letter and then a number.
// kept: its digits are pushed as in `digits`: tried with that and `extend_from_slice`, but writing a term took longer.
fn lettered(letter: u8, number: u8) -> ArrayVec<u8, 4>
    ensures { items result ≡ letter ∷ spelled number }
{
    let mut letters = ArrayVec::new(letter);
    let _ = letters.push(letter);
    if number >= 10 {
        let _ = letters.push(b'0' + number / 10);
    }
    let _ = letters.push(b'0' + number % 10);
    letters
}

impl Element for Parent {
    ghost kind = { parent_kind };

    ghost wide = { 3 };

    ghost exact = { parent_exact };

    fn letters(self) -> ArrayVec<u8, 4> {
        match self {
            Parent::Top => top(),
            Parent::State(state) => digits(state.0),
        }
    }

    fn shape_of(bytes: &[u8]) -> Option<Self> {
        if is_top(bytes) {
            Some(Parent::Top)
        } else {
            Some(Parent::State(StateId::new(number(bytes)?)))
        }
    }

    fn may_follow(self, _before: Self) -> bool {
        true
    }

    fn is_inside(self, limit: u8) -> bool {
        match self {
            Parent::Top => true,
            Parent::State(state) => state.0 < limit,
        }
    }
}

// Whether the bytes are `top`.
fn is_top(bytes: &[u8]) -> bool
    ensures { result ≡ bytes_eq bytes.now (codes "top") }
{
    bytes == b"top".as_slice()
}

// `top`.
fn top() -> ArrayVec<u8, 4>
    ensures { items result ≡ codes "top" }
{
    let mut letters = ArrayVec::new(b't');
    letters.extend_from_slice(b"top");
    letters
}
