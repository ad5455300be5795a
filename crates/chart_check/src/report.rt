// What is said of a text: what the chart holds, or why the text is refused.
ghost use Rattle.std.specs.Prelude.{◌≡◌, ◌↔◌, length, IfOk, IsTrue};
ghost use Rattle.chart.specs.Plans.{plan_of};
ghost use Rattle.chart_text.specs.Texts.{text_of};
ghost use Rattle.chart_reader.specs.Verdicts.{verdict};
ghost use Rattle.chart_check.specs.Reports.{Sums, Told};

use super::refusal::Refusal;
use chart::drawing::{Drawing, Name};
use chart_reader::reader::read;
use chart_writer::write;
use std::alloc::{AllocError, Global};
use std::fmt;

// What an accepted text holds.
#[derive(Clone, Copy)]
pub struct Summary {
    name: Name,
    events: u8,
    automata: u8,
    states: u8,
    transitions: u8,
    // how many bytes were written back
    written: usize,
}

#[derive(Clone, Copy)]
pub enum Report {
    Accepted(Summary),
    // the chart is not written as it was read: what never comes, and is looked at all the same
    Changed,
    Refused(Refusal),
}

impl fmt::Display for Summary {
    fn fmt<W: fmt::Write>(&self, f: &mut fmt::Formatter<W>) -> fmt::Result {
        let Summary {
            name,
            events,
            automata,
            states,
            transitions,
            written,
        } = self;
        writeln!(f, "chart {name}")?;
        writeln!(f, "events: {events}")?;
        writeln!(f, "automata: {automata}")?;
        writeln!(f, "states: {states}")?;
        writeln!(f, "transitions: {transitions}")?;
        write!(f, "written back unchanged: {written} bytes")
    }
}

impl fmt::Display for Report {
    fn fmt<W: fmt::Write>(&self, f: &mut fmt::Formatter<W>) -> fmt::Result {
        match self {
            Report::Accepted(summary) => write!(f, "{summary}"),
            Report::Changed => write!(f, "the chart is not written as it was read"),
            Report::Refused(refusal) => write!(f, "{refusal}"),
        }
    }
}

// Whether the drawing is written as the text.
fn comes_back(heap: Global, drawing: &Drawing, text: &[u8]) -> Result<bool, AllocError>
    ensures { IfOk result (λ same. IsTrue same ↔ (text_of (plan_of drawing.now) ≡ text.now)) }
{
    let mut out = vec![in heap; 0u8; text.len()]?;
    let answer = write(drawing, out.as_mut_slice());
    Ok(answer == Ok(text.len()) && out.as_slice() == text)
}

impl Summary {
    // What the drawing holds.
    fn new(drawing: &Drawing, written: usize) -> Summary
        ensures { Sums (plan_of drawing.now) written result }
    {
        Summary {
            name: drawing.name,
            events: drawing.events,
            automata: drawing.automata.len(),
            states: drawing.states.len(),
            transitions: drawing.transitions.len(),
            written,
        }
    }
}

// The text is read, and what was read is written back.
pub fn report_on(heap: Global, text: &[u8]) -> Result<Report, AllocError>
    ensures { IfOk result (λ report. Told (verdict text.now) (length text.now) report) }
{
    match read(text) {
        Ok(drawing) if comes_back(heap, &drawing, text)? => {
            let summary = Summary::new(&drawing, text.len());
            Ok(Report::Accepted(summary))
        }
        Ok(_) => Ok(Report::Changed),
        Err(fault) => Ok(Report::Refused(Refusal::from(fault))),
    }
}
