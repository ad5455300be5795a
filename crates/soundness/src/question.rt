// What a chart can be asked.
ghost use Rattle.std.specs.Prelude.{◌≡◌, Decides};
ghost use Rattle.hierarchy.specs.Hierarchies.{Basic, Below, Orthogonal};
ghost use Rattle.hierarchy.specs.Laws.{TreeLaws};
ghost use Rattle.hierarchy.specs.Rules.{Sound};
ghost use Rattle.soundness.specs.Charts.{chart_drawing, chart_hierarchy, SourceGives, Related, KnownConflict};

use super::sound_chart::Chart;
use chart::drawing::Drawing;
use chart::id::{StateId, TransitionId};

impl Chart {
    // The drawing, which is sound.
    pub fn drawing(&self) -> &Drawing
        ensures value { result.now ≡ chart_drawing self.now }
        ensures sound { Sound (chart_hierarchy self.now) }
        ensures laws { TreeLaws (chart_hierarchy self.now) }
    {
        &self.outline.drawing
    }

    // Whether the first state is below the second.
    pub fn is_below(&self, state: StateId, upper: StateId) -> bool
        ensures { Decides result (Below (chart_hierarchy self.now) state.0 upper.0) }
    {
        self.outline.below(upper).contains(state.0)
    }

    // Whether two states are orthogonal.
    pub fn is_orthogonal(&self, state: StateId, other: StateId) -> bool
        ensures { Decides result (Orthogonal (chart_hierarchy self.now) state.0 other.0) }
    {
        self.outline.orthogonal(state).contains(other.0)
    }

    // Whether no automaton stands under a state.
    pub fn is_basic(&self, state: StateId) -> bool
        ensures { Decides result (Basic (chart_hierarchy self.now) state.0) }
    {
        !self.outline.composite().contains(state.0)
    }

    // The source of a transition, if the chart has it.
    fn source_of(&self, transition: TransitionId) -> Option<StateId>
        ensures { SourceGives (chart_hierarchy self.now) transition.0 result }
    {
        let transitions = self.outline.drawing.transitions.as_slice();
        transitions
            .get(transition.0 as usize)
            .map(|transition| transition.source)
    }

    // Whether two states are equal, or one is below the other.
    fn are_related(&self, state: StateId, other: StateId) -> bool
        ensures { Decides result (Related (chart_hierarchy self.now) state.0 other.0) }
    {
        state == other || self.is_below(state, other) || self.is_below(other, state)
    }

    // Whether two transitions of the chart conflict: they differ, and their sources are equal or one is below the other.
    pub fn is_conflict(&self, first: TransitionId, second: TransitionId) -> bool
        ensures { Decides result (KnownConflict (chart_hierarchy self.now) first.0 second.0) }
    {
        let (Some(source), Some(other)) = (self.source_of(first), self.source_of(second)) else {
            return false;
        };
        first != second && self.are_related(source, other)
    }
}
