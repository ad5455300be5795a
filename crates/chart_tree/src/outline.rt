// Where the states and automata of a drawing stand, and the drawing together with its tree.
ghost use Rattle.std.specs.Prelude.{◌≡◌, ℕ, Decides};
ghost use Rattle.set64.specs.Sets.{has};
ghost use Rattle.hierarchy.specs.Hierarchies.{Under, Below, Orthogonal};
ghost use Rattle.hierarchy.specs.Rules.{Rooted};
ghost use Rattle.chart_tree.specs.Outlines.{drawn, home_in, StandGives};
ghost use Rattle.chart_tree.specs.Trees.{Outlines};

use super::tree::Tree;
use chart::drawing::{Drawing, Parent};
use chart::id::{AutomatonId, StateId};
use set64::Set64;

// The state that an automaton stands under, and the automaton which that state lies in.
#[derive(Clone, Copy)]
pub struct Stand {
    pub state: StateId,
    pub home: AutomatonId,
}

// The automaton that a state lies in, if the drawing has both.
pub fn home_of(drawing: &Drawing, state: StateId) -> Option<AutomatonId>
    ensures { result ≡ home_in (drawn drawing.now) state.0 }
{
    let state = drawing.states.as_slice().get(state.0 as usize)?;
    (state.automaton.0 < drawing.automata.len()).then_some(state.automaton)
}

// Where an automaton stands, if it stands under a state of the drawing.
pub fn stand_of(drawing: &Drawing, automaton: AutomatonId) -> Option<Stand>
    ensures { StandGives (drawn drawing.now) automaton.0 result }
{
    let automaton = drawing.automata.as_slice().get(automaton.0 as usize)?;
    match automaton.parent {
        Parent::Top => None,
        Parent::State(state) => Some(Stand {
            state,
            home: home_of(drawing, state)?,
        }),
    }
}

// A drawing with its tree, which tells what is so in the hierarchy once the automata break no rule.
// kept: that they break none stays a premise in the clauses: by a rule of the project no call may ask more than before,
// and a type for it would.
#[derive(Clone, Copy)]
pub struct Outline {
    pub drawing: Drawing,
    tree: Tree,
    ghost outlined: { ∥ (Rooted (drawn drawing) → Outlines (drawn drawing) tree) ∥₁ },
}

impl Outline {
    pub fn new(drawing: Drawing) -> Outline
        ensures { result.drawing ≡ drawing }
    {
        let tree = Tree::new(&drawing);
        Outline { drawing, tree }
    }

    // The states below a state.
    pub fn below(&self, state: StateId) -> Set64
        ensures { let h = drawn self.now.drawing in Rooted h → (v : ℕ) → Decides (has result v) (Below h v state.0) }
    {
        self.tree.below(state)
    }

    // The states that are orthogonal to a state: to one in no automaton of the drawing, none.
    pub fn orthogonal(&self, state: StateId) -> Set64
        ensures { let h = drawn self.now.drawing in Rooted h → (w : ℕ) → Decides (has result w) (Orthogonal h state.0 w) }
    {
        match home_of(&self.drawing, state) {
            Some(home) => self.tree.beside(home),
            None => Set64::empty(),
        }
    }

    // The states that are not basic.
    pub fn composite(&self) -> Set64
        ensures { let h = drawn self.now.drawing in Rooted h → (u : ℕ) → Decides (has result u) ((a : ℕ) × Under h a u) }
    {
        self.tree.composite()
    }
}
