// What can be wrong with a drawing as a chart: the rule that is broken, and what breaks it.
ghost use Rattle.std.specs.Prelude.{◌≡◌};
ghost use Rattle.hierarchy.specs.Faults.{chart_fault_number, named_by};

use chart::id::{AutomatonId, TransitionId};

#[derive(Clone, Copy, Debug, PartialEq, Eq)]
pub enum ChartFault {
    // automaton 0 does not stand under `top`, or a later one not under a state of a lower-numbered automaton
    Misplaced { automaton: AutomatonId },
    // the initial state does not lie in its automaton
    StrayInitial { automaton: AutomatonId },
    // source and target do not lie in one automaton
    SplitEnds { transition: TransitionId },
    // the source restriction has a state that is not below the source, or two that are not orthogonal
    IllFormed { transition: TransitionId },
    // the target determinator has a state that is not basic or not below the target, or two that are not orthogonal,
    // or lacks one
    NotFull { transition: TransitionId },
}

// What a fault names.
#[derive(Clone, Copy, Debug, PartialEq, Eq)]
pub enum Part {
    Automaton(AutomatonId),
    Transition(TransitionId),
}

impl ChartFault {
    // The refusal's number. kept: the C interface tells it.
    pub fn number(self) -> u8
        ensures { result ≡ chart_fault_number self }
    {
        match self {
            ChartFault::Misplaced { .. } => 8,
            ChartFault::StrayInitial { .. } => 9,
            ChartFault::SplitEnds { .. } => 10,
            ChartFault::IllFormed { .. } => 11,
            ChartFault::NotFull { .. } => 12,
        }
    }

    // The automaton or the transition that it names.
    pub fn part(self) -> Part
        ensures { result ≡ named_by self }
    {
        match self {
            ChartFault::Misplaced { automaton } | ChartFault::StrayInitial { automaton } => {
                Part::Automaton(automaton)
            }
            ChartFault::SplitEnds { transition }
            | ChartFault::IllFormed { transition }
            | ChartFault::NotFull { transition } => Part::Transition(transition),
        }
    }
}
