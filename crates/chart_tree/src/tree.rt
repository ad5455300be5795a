// The tree of a drawing, worked out once: which states lie below which, and which are orthogonal.
ghost use Rattle.std.specs.Prelude.{◌≡◌, ℕ, Decides};
ghost use Rattle.set64.specs.Sets.{has};
ghost use Rattle.hierarchy.specs.Hierarchies.{Orthogonal};
ghost use Rattle.hierarchy.specs.Rules.{Rooted};
ghost use Rattle.chart_tree.specs.Outlines.{drawn};
ghost use Rattle.chart_tree.specs.Regions.{Stage, Sides};
ghost use Rattle.chart_tree.specs.Trees.{tree_below, tree_beside, tree_composite, Outlines};

use super::outline::stand_of;
use super::regions::Regions;
use super::table::Table;
use chart::drawing::{Drawing, MOST_AUTOMATA, MOST_STATES};
use chart::id::{AutomatonId, StateId};
use set64::Set64;

#[derive(Clone, Copy)]
pub struct Tree {
    // the states below each state
    below: Table<MOST_STATES>,
    // the states that are orthogonal to those of each automaton
    beside: Table<MOST_AUTOMATA>,
    // the states that are not basic
    composite: Set64,
}

// The states orthogonal to those of an automaton, where the table has those of the automata with lower numbers.
fn sides_of(
    drawing: &Drawing,
    regions: &Regions,
    beside: &Table<MOST_AUTOMATA>,
    automaton: AutomatonId,
) -> Set64
    ensures { let h = drawn drawing.now in Rooted h → Stage h 0 regions.now → Sides h automaton.0 beside.now → (v w : ℕ) → h.home v ≡ automaton.0 → Decides (has result w) (Orthogonal h v w) }
{
    let Some(stand) = stand_of(drawing, automaton) else {
        return Set64::empty();
    };
    let others = regions
        .below
        .at(stand.state.0)
        .without(regions.within.at(automaton.0));
    beside.at(stand.home.0).union(others)
}

// The states orthogonal to those of each automaton.
fn sides(drawing: &Drawing, regions: &Regions) -> Table<MOST_AUTOMATA>
    ensures { let h = drawn drawing.now in Rooted h → Stage h 0 regions.now → Sides h h.automata result }
{
    let mut beside = Table::blank();
    for a in 0..drawing.automata.len() {
        let more = sides_of(drawing, regions, &beside, AutomatonId::new(a));
        beside.join(a, more);
    }
    beside
}

impl Tree {
    pub fn new(drawing: &Drawing) -> Tree
        ensures { let h = drawn drawing.now in Rooted h → Outlines h result }
    {
        let regions = Regions::new(drawing);
        let beside = sides(drawing, &regions);
        Tree {
            below: regions.below,
            beside,
            composite: regions.composite,
        }
    }

    // The states below a state.
    pub fn below(&self, state: StateId) -> Set64
        ensures { (v : ℕ) → has result v ≡ tree_below self.now state.0 v }
    {
        self.below.at(state.0)
    }

    // The states that are orthogonal to those of an automaton.
    pub fn beside(&self, automaton: AutomatonId) -> Set64
        ensures { (v : ℕ) → has result v ≡ tree_beside self.now automaton.0 v }
    {
        self.beside.at(automaton.0)
    }

    // The states that are not basic.
    pub fn composite(&self) -> Set64
        ensures { (v : ℕ) → has result v ≡ tree_composite self.now v }
    {
        self.composite
    }
}
