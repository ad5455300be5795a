// Lists of states, against the tree of an outline.
ghost use Rattle.std.specs.Prelude.{◌≡◌, ℕ, ◌<◌, true, ◌≢◌, Decides};
ghost use Rattle.set64.specs.Sets.{has};
ghost use Rattle.hierarchy.specs.Hierarchies.{◌∈◌, these, Orthogonal};
ghost use Rattle.hierarchy.specs.Rules.{Rooted};
ghost use Rattle.chart_tree.specs.Outlines.{drawn};
ghost use Rattle.chart_rules.specs.Lists.{Spread, Covers};

use chart::id::StateId;
use chart_tree::outline::Outline;
use set64::Set64;

// The states of a list, as far as a set can have them.
fn set_of(states: &[StateId]) -> Set64
    ensures { (v : ℕ) → Decides (has result v) ((v ∈ these states.now) × (v < 64)) }
{
    states
        .iter()
        .fold(Set64::empty(), |set, state| set.insert(state.0))
}

// Whether all states of a list are in the set.
fn are_in(set: Set64, states: &[StateId]) -> bool
    ensures { Decides result ((v : ℕ) → v ∈ these states.now → has set v ≡ true) }
{
    states.iter().all(|state| set.contains(state.0))
}

// Whether a state is orthogonal to all others of the set.
fn is_apart(outline: &Outline, set: Set64, state: StateId) -> bool
    ensures { let h = drawn outline.now.drawing in Rooted h → Decides result ((w : ℕ) → has set w ≡ true → w ≢ state.0 → Orthogonal h state.0 w) }
{
    set.remove(state.0)
        .without(outline.orthogonal(state))
        .is_empty()
}

// Whether each two different states of a list are orthogonal.
fn are_orthogonal(outline: &Outline, states: &[StateId]) -> bool
    ensures { let h = drawn outline.now.drawing in Rooted h → ((v : ℕ) → v ∈ these states.now → v < 64) → Decides result (Spread h states.now) }
{
    let all = set_of(states);
    states.iter().all(|state| is_apart(outline, all, *state))
}

// Whether all states of a list are in the set, and each two different ones are orthogonal.
pub fn are_orthogonal_in(outline: &Outline, set: Set64, states: &[StateId]) -> bool
    ensures { let h = drawn outline.now.drawing in Rooted h → Decides result (((v : ℕ) → v ∈ these states.now → has set v ≡ true) × Spread h states.now) }
{
    are_in(set, states) && are_orthogonal(outline, states)
}

// Whether no state of `ends` that is not in the list is orthogonal to all states of the list.
pub fn cover(outline: &Outline, ends: Set64, states: &[StateId]) -> bool
    ensures { let h = drawn outline.now.drawing in Rooted h → Decides result (Covers h (has ends) states.now) }
{
    states
        .iter()
        .fold(ends.without(set_of(states)), |missed, state| {
            missed.intersection(outline.orthogonal(*state))
        })
        .is_empty()
}
