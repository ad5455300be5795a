// A chart: a drawing that keeps every rule, with its tree.
ghost use Rattle.hierarchy.specs.Rules.{Sound};
ghost use Rattle.chart_tree.specs.Outlines.{drawn};

use chart_tree::outline::Outline;

// Made only by the check: whoever holds a chart need not ask whether it is sound.
#[derive(Drop)]
pub struct Chart {
    pub(crate) outline: Outline,
    ghost sound: { ∥ Sound (drawn outline.drawing) ∥₁ },
}
