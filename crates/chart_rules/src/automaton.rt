// The rules on an automaton: where it stands, and where it is entered.
ghost use Rattle.std.specs.Prelude.{◌≡◌, ◌<◌, Decides};
ghost use Rattle.hierarchy.specs.Checks.{automaton_fault, automata_fault_lem, unless_broken};
ghost use Rattle.hierarchy.specs.Rules.{Placed, Starts};
ghost use Rattle.chart_tree.specs.Outlines.{drawn};

use chart::drawing::{Drawing, Parent};
use chart::id::AutomatonId;
use chart_tree::outline::{home_of, stand_of};
use hierarchy::fault::ChartFault;

// Whether the first automaton is there and stands under nothing.
fn has_top(drawing: &Drawing) -> bool
    ensures { Decides result (Placed (drawn drawing.now) 0) }
{
    let automata = drawing.automata.as_slice();
    automata
        .first()
        .is_some_and(|first| first.parent == Parent::Top)
}

// Whether the automaton stands where it may: the first under nothing, a later one under a state of a lower-numbered one.
fn is_placed(drawing: &Drawing, automaton: AutomatonId) -> bool
    ensures { Decides result (Placed (drawn drawing.now) automaton.0) }
{
    if automaton.0 == 0 {
        return has_top(drawing);
    }
    stand_of(drawing, automaton).is_some_and(|stand| stand.home.0 < automaton.0)
}

// Whether the automaton's initial state lies in it.
fn starts_inside(drawing: &Drawing, automaton: AutomatonId) -> bool
    ensures { automaton.0 < (drawn drawing.now).automata → Decides result (Starts (drawn drawing.now) automaton.0) }
{
    let Some(said) = drawing.automata.as_slice().get(automaton.0 as usize) else {
        return false;
    };
    home_of(drawing, said.initial) == Some(automaton)
}

// Whether the automaton keeps its rules; else the first that it breaks.
fn check_automaton(drawing: &Drawing, automaton: AutomatonId) -> Result<(), ChartFault>
    ensures { result ≡ unless_broken tt (automaton_fault (drawn drawing.now) automaton.0) }
{
    if !is_placed(drawing, automaton) {
        return Err(ChartFault::Misplaced { automaton });
    }
    if !starts_inside(drawing, automaton) {
        return Err(ChartFault::StrayInitial { automaton });
    }
    Ok(())
}

// Whether the automata keep their rules; else the first rule that one breaks. Automaton 0 has to be there, so it is
// looked at in any case.
pub fn check_automata(drawing: &Drawing) -> Result<(), ChartFault>
    ensures { result ≡ unless_broken tt (automata_fault_lem (drawn drawing.now)) }
{
    for a in 0..drawing.automata.len().max(1) {
        check_automaton(drawing, AutomatonId::new(a))?;
    }
    Ok(())
}
