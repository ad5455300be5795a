// How many of something a text says there are.
ghost use Rattle.std.specs.Prelude.{false};

use format::number::{Named, Number, Role};

// How many events, automata and states there are: the numbers of each are below.
#[derive(Clone, Copy)]
pub struct Counts {
    pub events: u8,
    pub automata: u8,
    pub states: u8,
}

// A count of at least one.
pub type Positive = Number<FromOne>;

// A count that may be none.
pub type Natural = Number<FromZero>;

#[derive(Clone, Copy, Debug, Default, PartialEq, Eq)]
pub struct FromOne;

impl Named for FromOne {
    const NAME: &'static str = "Positive";
}

#[derive(Clone, Copy, Debug, Default, PartialEq, Eq)]
pub struct FromZero;

impl Named for FromZero {
    const NAME: &'static str = "Natural";
}

impl Role for FromOne {
    ghost LEAST = { 1 };

    ghost ASCENDS = { false };

    const LEAST: u8 = 1;

    const ASCENDS: bool = false;
}

// kept: each role says both constants: tried, but a trait that gives one a value and a ghost member gets no proof
// (DECISIONS.md, "Today's forms").
impl Role for FromZero {
    ghost LEAST = { 0 };

    ghost ASCENDS = { false };

    const LEAST: u8 = 0;

    const ASCENDS: bool = false;
}
