// A whole chart text.
ghost use Rattle.std.specs.Prelude.{◌≡◌};
ghost use Rattle.format.specs.Elements.{by};
ghost use Rattle.chart.specs.Plans.{plan_of, Blank};
ghost use Rattle.chart_reader.specs.Refusals.{Refusals};
ghost use Rattle.chart_reader.specs.Inner.{Fitting, Filled};
ghost use Rattle.chart_reader.specs.Verdicts.{rows, read_through, verdict, Exactly, GivesBack, OneText};

use super::field::field;
use super::row::read_rows;
use chart::drawing::{Drawing, Name};
use chart_text::count::{Counts, Natural, Positive};
use chart_text::line::Key;
use format::fault::TextFault;
use format::line::Lines;
use format::value::Single;

// A text has at most so many bytes.
pub const MOST_TEXT_BYTES: usize = 16384;

// The rows that are counted, into a blank drawing.
fn fill(
    drawing: &mut Drawing,
    lines: &mut Lines<'_>,
    counts: Counts,
    transitions: u8,
) -> Result<(), TextFault>
    requires empty { Blank drawing.old }
    requires room { Fitting counts transitions }
    requires behind_the_head { lines.old.number ≡ 6 }
    ensures { Filled (rows counts transitions 6 lines.old.rest.now) drawing.old drawing.new lines.new result }
{
    read_rows(&mut drawing.automata, lines, counts, counts.automata)?;
    read_rows(&mut drawing.states, lines, counts, counts.states)?;
    read_rows(&mut drawing.transitions, lines, counts, transitions)
}

// The drawing of a text that is not too long, or its first fault.
fn draw(text: &[u8]) -> Result<Drawing, TextFault>
    ensures { by plan_of result ≡ read_through text.now }
{
    let mut lines = Lines {
        number: 1,
        rest: text,
    };
    let name: Name = field(&mut lines, Key::Chart, 0)?;
    let events: Single<Positive> = field(&mut lines, Key::Events, 65)?;
    let automata: Single<Positive> = field(&mut lines, Key::Automata, 25)?;
    let states: Single<Positive> = field(&mut lines, Key::States, 65)?;
    let transitions: Single<Natural> = field(&mut lines, Key::Transitions, 97)?;
    let counts = Counts {
        events: events.item.0,
        automata: automata.item.0,
        states: states.item.0,
    };
    let mut drawing = Drawing::blank(name, counts.events);
    fill(&mut drawing, &mut lines, counts, transitions.item.0)?;
    if lines.rest.is_empty() {
        Ok(drawing)
    } else {
        Err(TextFault::Trailing { line: lines.number })
    }
}

// The drawing of a text, or its first fault.
pub fn read(text: &[u8]) -> Result<Drawing, TextFault>
    ensures answer { by plan_of result ≡ verdict text.now }
    ensures exact { Exactly }
    ensures back { GivesBack }
    ensures once { OneText }
    ensures refusals { Refusals }
{
    if text.len() > MOST_TEXT_BYTES {
        return Err(TextFault::Oversize);
    }
    draw(text)
}
