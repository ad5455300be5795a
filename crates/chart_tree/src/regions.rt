// The states in and below each automaton and below each state, gathered from the highest-numbered automaton down.
ghost use Rattle.std.specs.Prelude.{◌+◌};
ghost use Rattle.hierarchy.specs.Rules.{Rooted};
ghost use Rattle.chart_tree.specs.Outlines.{drawn};
ghost use Rattle.chart_tree.specs.Regions.{Members, Stage};

use super::outline::stand_of;
use super::table::Table;
use chart::drawing::{Drawing, MOST_AUTOMATA, MOST_STATES};
use chart::id::AutomatonId;
use set64::Set64;

#[derive(Clone, Copy)]
pub struct Regions {
    // the states in each automaton or below it
    pub within: Table<MOST_AUTOMATA>,
    // the states below each state
    pub below: Table<MOST_STATES>,
    // the states that are not basic
    pub composite: Set64,
}

// The states of each automaton.
fn members(drawing: &Drawing) -> Table<MOST_AUTOMATA>
    ensures { Members (drawn drawing.now) result }
{
    let mut members = Table::blank();
    let states = drawing.states.as_slice();
    for (i, state) in states.iter().enumerate() {
        members.join(state.automaton.0, Set64::empty().insert(i as u8));
    }
    members
}

impl Regions {
    // What lies in an automaton lies in the one above it too, and below the state that it stands under.
    fn gather(&mut self, drawing: &Drawing, automaton: AutomatonId)
        ensures { let h = drawn drawing.now in Rooted h → Stage h (automaton.0 + 1) self.old → Stage h automaton.0 self.new }
    {
        if let Some(stand) = stand_of(drawing, automaton) {
            let inner = self.within.at(automaton.0);
            self.within.join(stand.home.0, inner);
            self.below.join(stand.state.0, inner);
            self.composite = self.composite.insert(stand.state.0);
        }
    }

    pub fn new(drawing: &Drawing) -> Regions
        ensures { let h = drawn drawing.now in Rooted h → Stage h 0 result }
    {
        let mut regions = Regions {
            within: members(drawing),
            below: Table::blank(),
            composite: Set64::empty(),
        };
        for a in (0..drawing.automata.len()).rev() {
            regions.gather(drawing, AutomatonId::new(a));
        }
        regions
    }
}
