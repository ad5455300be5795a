// The rules on a transition: its ends, its source restriction, its target determinator.
ghost use Rattle.std.specs.Prelude.{◌≡◌, ◌<◌, Decides};
ghost use Rattle.hierarchy.specs.Checks.{first_of, transition_fault, unless_broken};
ghost use Rattle.hierarchy.specs.Rules.{Rooted};
ghost use Rattle.chart_tree.specs.Outlines.{drawn};
ghost use Rattle.chart_rules.specs.Lists.{Restricts, Determines, Says};

use super::list::{are_orthogonal_in, cover};
use chart::drawing::{Drawing, Transition};
use chart::id::{StateId, TransitionId};
use chart_tree::outline::{Outline, home_of};
use hierarchy::fault::ChartFault;

// Whether two states lie in one automaton.
fn are_together(drawing: &Drawing, source: StateId, target: StateId) -> bool
    ensures { let h = drawn drawing.now in Decides result ((h.home source.0 < h.automata) × (h.home source.0 ≡ h.home target.0)) }
{
    match (home_of(drawing, source), home_of(drawing, target)) {
        (Some(here), Some(there)) => here == there,
        _ => false,
    }
}

// Whether the restriction has only states below the source, pairwise orthogonal.
fn is_well_formed(outline: &Outline, source: StateId, restriction: &[StateId]) -> bool
    ensures { let h = drawn outline.now.drawing in Rooted h → Decides result (Restricts h source.0 restriction.now) }
{
    are_orthogonal_in(outline, outline.below(source), restriction)
}

// Whether the determinator has only basic states below the target, pairwise orthogonal, and lacks none.
fn is_full(outline: &Outline, target: StateId, determinator: &[StateId]) -> bool
    ensures { let h = drawn outline.now.drawing in Rooted h → Decides result (Determines h target.0 determinator.now) }
{
    let ends = outline.below(target).without(outline.composite());
    are_orthogonal_in(outline, ends, determinator) && cover(outline, ends, determinator)
}

// Whether the transition, which has the number `id`, keeps its rules; else the first that it breaks.
fn check_transition(
    outline: &Outline,
    id: TransitionId,
    transition: &Transition,
) -> Result<(), ChartFault>
    ensures { let h = drawn outline.now.drawing in Rooted h → Says h id.0 transition.now → result ≡ unless_broken tt (transition_fault h id.0) }
{
    if !are_together(&outline.drawing, transition.source, transition.target) {
        return Err(ChartFault::SplitEnds { transition: id });
    }
    let restriction = transition.source_restriction.as_slice();
    if !is_well_formed(outline, transition.source, restriction) {
        return Err(ChartFault::IllFormed { transition: id });
    }
    let determinator = transition.target_determinator.as_slice();
    if !is_full(outline, transition.target, determinator) {
        return Err(ChartFault::NotFull { transition: id });
    }
    Ok(())
}

// Whether the transitions keep their rules; else the first rule that one breaks.
pub fn check_transitions(outline: &Outline) -> Result<(), ChartFault>
    ensures { let h = drawn outline.now.drawing in Rooted h → result ≡ unless_broken tt (first_of h.transitions (transition_fault h)) }
{
    let transitions = outline.drawing.transitions.as_slice();
    for (t, transition) in transitions.iter().enumerate() {
        check_transition(outline, TransitionId::new(t as u8), transition)?;
    }
    Ok(())
}
