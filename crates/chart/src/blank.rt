// A drawing to begin with.
ghost use Rattle.std.specs.Prelude.{◌≡◌};
ghost use Rattle.chart.specs.Plans.{Blank};

use super::drawing::{Drawing, Name};
use fixed::array_vec::ArrayVec;

impl Drawing {
    // A drawing of which the name and the number of events are known, and nothing else yet.
    pub fn blank(name: Name, events: u8) -> Drawing
        ensures rows { Blank result }
        ensures head { (result.name ≡ name) × (result.events ≡ events) }
    {
        Drawing {
            name,
            events,
            automata: ArrayVec::default(),
            states: ArrayVec::default(),
            transitions: ArrayVec::default(),
        }
    }
}
