// A drawing: what a chart text says, before anybody has asked whether it makes sense as a chart.
ghost use Rattle.std.specs.Prelude.{◌≡◌};
ghost use Rattle.chart.specs.Kinds.{state_no};
ghost use Rattle.chart.specs.declared.drawing.Term.TheVariants.{Active};

use super::id::{AutomatonId, ConditionId, EventId, StateId};
use fixed::array_vec::ArrayVec;

// How much of everything a drawing has room for.
pub const MOST_NAME_BYTES: usize = 16;

pub const MOST_AUTOMATA: usize = 24;

pub const MOST_STATES: usize = 64;

pub const MOST_TRANSITIONS: usize = 96;

pub const MOST_RESTRICTIONS: usize = 8;

pub const MOST_TERMS: usize = 8;

pub const MOST_ACTIONS: usize = 8;

pub const MOST_DETERMINATORS: usize = 24;

// A chart's name: small letters, digits and underscores.
#[derive(Clone, Copy, Default)]
pub struct Name {
    pub bytes: ArrayVec<u8, MOST_NAME_BYTES>,
}

// What an automaton stands under: the first under nothing, every other under a state.
// kept: an Option would be no plainer, since its `None` would be written `top`.
#[derive(Clone, Copy, Debug, Default, PartialEq, Eq)]
pub enum Parent {
    #[default]
    Top,
    State(StateId),
}

#[derive(Clone, Copy, Debug, Default, PartialEq, Eq)]
pub struct Automaton {
    pub parent: Parent,
    // the state at which it is entered
    pub initial: StateId,
}

#[derive(Clone, Copy, Debug, Default, PartialEq, Eq)]
pub struct State {
    // the automaton that it lies in
    pub automaton: AutomatonId,
}

// One thing that a guard asks.
#[derive(Clone, Copy, Debug, PartialEq, Eq)]
pub enum Term {
    Active(StateId),
    Inactive(StateId),
    Holds(ConditionId),
    Fails(ConditionId),
}

// The term that fills a list's places behind its items.
impl Default for Term {
    ghost is_default = { λ term. term ≡ Active (state_no 0) };

    fn default() -> Term {
        Term::Active(StateId::new(0))
    }
}

#[derive(Clone, Copy, Default)]
pub struct Transition {
    pub source: StateId,
    // further states below the source that have to be active: where the transition really comes from
    pub source_restriction: ArrayVec<StateId, MOST_RESTRICTIONS>,
    pub trigger: EventId,
    pub guard: ArrayVec<Term, MOST_TERMS>,
    // the events that it raises
    pub actions: ArrayVec<EventId, MOST_ACTIONS>,
    pub target: StateId,
    // the basic states below the target that are entered
    pub target_determinator: ArrayVec<StateId, MOST_DETERMINATORS>,
}

#[derive(Clone, Copy)]
pub struct Drawing {
    pub name: Name,
    // how many events there are
    pub events: u8,
    pub automata: ArrayVec<Automaton, MOST_AUTOMATA>,
    pub states: ArrayVec<State, MOST_STATES>,
    pub transitions: ArrayVec<Transition, MOST_TRANSITIONS>,
}
