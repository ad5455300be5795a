// Things of a chart go by their numbers, which count from 0 in the order of the text.
ghost use Rattle.std.specs.Prelude.{true, false};

use format::number::{Named, Number, Role};

pub type StateId = Number<States>;

pub type AutomatonId = Number<Automata>;

pub type EventId = Number<Events>;

pub type ConditionId = Number<Conditions>;

pub type TransitionId = Number<Transitions>;

#[derive(Clone, Copy, Debug, Default, PartialEq, Eq)]
pub struct States;

impl Named for States {
    const NAME: &'static str = "StateId";
}

#[derive(Clone, Copy, Debug, Default, PartialEq, Eq)]
pub struct Automata;

impl Named for Automata {
    const NAME: &'static str = "AutomatonId";
}

#[derive(Clone, Copy, Debug, Default, PartialEq, Eq)]
pub struct Events;

impl Named for Events {
    const NAME: &'static str = "EventId";
}

#[derive(Clone, Copy, Debug, Default, PartialEq, Eq)]
pub struct Conditions;

impl Named for Conditions {
    const NAME: &'static str = "ConditionId";
}

#[derive(Clone, Copy, Debug, Default, PartialEq, Eq)]
pub struct Transitions;

impl Named for Transitions {
    const NAME: &'static str = "TransitionId";
}

// kept: each role says both constants: tried, but a trait that gives one a value and a ghost member gets no proof
// (DECISIONS.md, "Today's forms").

// A list of states ascends.
impl Role for States {
    ghost LEAST = { 0 };

    ghost ASCENDS = { true };

    const LEAST: u8 = 0;

    const ASCENDS: bool = true;
}

impl Role for Automata {
    ghost LEAST = { 0 };

    ghost ASCENDS = { false };

    const LEAST: u8 = 0;

    const ASCENDS: bool = false;
}

// Events stand in any order, and may stand twice.
impl Role for Events {
    ghost LEAST = { 0 };

    ghost ASCENDS = { false };

    const LEAST: u8 = 0;

    const ASCENDS: bool = false;
}
