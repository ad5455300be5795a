// The check that makes a chart of a drawing.
ghost use Rattle.std.specs.Prelude.{◌≡◌};
ghost use Rattle.format.specs.Elements.{by};
ghost use Rattle.hierarchy.specs.Laws.{LandingLaw};
ghost use Rattle.hierarchy.specs.Rower.{Rows};
ghost use Rattle.soundness.specs.Charts.{chart_drawing, checked, RulesLaw};

use super::sound_chart::Chart;
use chart::drawing::Drawing;
use chart_rules::automaton::check_automata;
use chart_rules::transition::check_transitions;
use chart_tree::outline::Outline;
use hierarchy::fault::ChartFault;

// A chart, if the drawing keeps every rule; else the first rule that it breaks.
pub(crate) fn judge(drawing: Drawing) -> Result<Chart, ChartFault>
    ensures { by chart_drawing result ≡ checked drawing }
{
    check_automata(&drawing)?;
    let outline = Outline::new(drawing);
    check_transitions(&outline)?;
    Ok(Chart { outline })
}

// The same, and what the rules mean for every plan.
pub fn check(drawing: Drawing) -> Result<Chart, ChartFault>
    ensures answer { by chart_drawing result ≡ checked drawing }
    ensures rules { RulesLaw }
    ensures landings { LandingLaw }
    ensures rows { Rows }
{
    judge(drawing)
}
