// Numbers of something, as elements of a text.
ghost use Rattle.std.specs.Prelude.{◌≡◌, ℕ, Bool};
ghost use Rattle.format.specs.Elements.{number_kind};
ghost use Rattle.format.specs.Numbers.{number_exact};

use super::bytes::{digits, number};
use super::element::Element;
use fixed::array_vec::ArrayVec;
use std::fmt;
use std::marker::PhantomData;

// What numbers are of, and what a text may say of them.
pub trait Role: Copy + Default {
    ghost LEAST: { ℕ };

    ghost ASCENDS: { Bool };

    // the least number that there is
    const LEAST: u8;

    // whether the numbers of a list ascend strictly
    const ASCENDS: bool;
}

// A number of what R says. Where no call may stand, as in a static, it is made as `Number(0, PhantomData)`.
#[derive(Clone, Copy, Default, PartialEq, Eq)]
pub struct Number<R>(pub u8, pub PhantomData<R>);

// What the numbers of something are called where they are printed for a programmer.
pub trait Named {
    const NAME: &'static str;
}

impl<R: Named> fmt::Debug for Number<R> {
    fn fmt<W: fmt::Write>(&self, f: &mut fmt::Formatter<W>) -> fmt::Result {
        f.debug_tuple(R::NAME).field(&self.0).finish()
    }
}

impl<R> Number<R> {
    pub fn new(number: u8) -> Self
        ensures { result.0 ≡ number }
    {
        Number(number, PhantomData)
    }
}

impl<R: Role> Element for Number<R> {
    ghost kind = { number_kind R.LEAST R.ASCENDS };

    ghost wide = { 2 };

    ghost exact = { number_exact R.LEAST R.ASCENDS };

    fn letters(self) -> ArrayVec<u8, 4> {
        digits(self.0)
    }

    fn shape_of(bytes: &[u8]) -> Option<Self> {
        Some(Number::new(number(bytes)?))
    }

    fn may_follow(self, before: Self) -> bool {
        !R::ASCENDS || before.0 < self.0
    }

    fn is_inside(self, limit: u8) -> bool {
        R::LEAST <= self.0 && self.0 < limit
    }
}
