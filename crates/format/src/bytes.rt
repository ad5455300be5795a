// Bytes: cut in two at a byte, and read as a number.
ghost use Rattle.std.specs.Prelude.{◌≡◌, ◌==◌};
ghost use Rattle.std.specs.List.{position};
ghost use Rattle.fixed.specs.Items.{items};
ghost use Rattle.format.specs.Gives.{CutGives};
ghost use Rattle.format.specs.Bytes.{cut_at, number_of, spelled};

use fixed::array_vec::ArrayVec;

// Two parts of one text.
#[derive(Clone, Copy)]
pub struct Parts<'a> {
    pub front: &'a [u8],
    pub rest: &'a [u8],
}

// The place of the first `byte`.
fn place_of(text: &[u8], byte: u8) -> Option<usize>
    ensures { result ≡ position (λ x. x == byte) text.now }
{
    text.iter().position(|x| *x == byte)
}

// What stands before the first `byte`, and what stands after it.
#[tactic(auto, using(crate::proofs::Cuts::cut_here, crate::proofs::Cuts::cut_none))]
pub fn cut(text: &[u8], byte: u8) -> Option<Parts<'_>>
    ensures { CutGives (cut_at byte text.now) result }
{
    let at = place_of(text, byte)?;
    Some(Parts {
        front: &text[..at],
        rest: &text[at + 1..],
    })
}

// The number that one or two decimal digits say, with no leading zero.
pub fn number(digits: &[u8]) -> Option<u8>
    ensures { result ≡ number_of digits.now }
{
    match digits {
        [a @ b'0'..=b'9'] => Some(*a - b'0'),
        [a @ b'1'..=b'9', b @ b'0'..=b'9'] => Some((*a - b'0') * 10 + (*b - b'0')),
        _ => None,
    }
}

// The digits of a number below 100.
pub fn digits(number: u8) -> ArrayVec<u8, 4>
    ensures { items result ≡ spelled number }
{
    let mut digits = ArrayVec::new(b'0');
    if number >= 10 {
        let _ = digits.push(b'0' + number / 10);
    }
    let _ = digits.push(b'0' + number % 10);
    digits
}
