// The chart `none`: what there is where no text has been accepted yet.
ghost use Rattle.std.specs.Prelude.{◌≡◌};
ghost use Rattle.chart.specs.Plans.{plan_of};
ghost use Rattle.soundness.specs.Charts.{chart_plan, none_plan};

use super::check::judge;
use super::sound_chart::Chart;
use chart::drawing::{Automaton, Drawing, Name, Parent, State};
use chart::id::{AutomatonId, StateId};
use fixed::array_vec::ArrayVec;

// One event, one automaton, one state, no transition.
fn least() -> Drawing
    ensures { plan_of result ≡ none_plan }
{
    let mut bytes = ArrayVec::new(b'_');
    bytes.extend_from_slice(b"none");
    let name = Name { bytes };
    let mut drawing = Drawing::blank(name, 1);
    let _ = drawing.automata.push(Automaton {
        parent: Parent::Top,
        initial: StateId::new(0),
    });
    let _ = drawing.states.push(State {
        automaton: AutomatonId::new(0),
    });
    drawing
}

impl Chart {
    // The chart `none`.
    pub fn none() -> Chart
        ensures { chart_plan result ≡ none_plan }
    {
        judge(least()).unwrap()
    }
}
