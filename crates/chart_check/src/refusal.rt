// Why a text is refused, as whoever mends it needs to know.
ghost use Rattle.std.specs.Prelude.{◌≡◌};
ghost use Rattle.format.specs.Faults.{fault_line, fault_element};
ghost use Rattle.chart_check.specs.Refusals.{place_line, place_element, element_meaning_lem, line_meaning_lem, meaning, Tells};

use format::fault::{ElementFault, LineFault, TextFault};
use std::fmt;

// Where the fault is: lines count from 1, elements from 0.
#[derive(Clone, Copy)]
pub enum Place {
    Text,
    Line(u16),
    Element { line: u16, element: u8 },
}

impl fmt::Display for Place {
    fn fmt<W: fmt::Write>(&self, f: &mut fmt::Formatter<W>) -> fmt::Result {
        match self {
            Place::Text => write!(f, "in the whole text"),
            Place::Line(line) => write!(f, "in line {line}"),
            Place::Element { line, element } => write!(
                f,
                "in line {line}, element {element} (counted from 0)"
            ),
        }
    }
}

// A refusal by its number, its place and its meaning.
#[derive(Clone, Copy)]
pub struct Refusal {
    // kept: a fault in its place would be no plainer, since the number is what is printed and looked up
    number: u8,
    place: Place,
    meaning: &'static str,
}

impl fmt::Display for Refusal {
    fn fmt<W: fmt::Write>(&self, f: &mut fmt::Formatter<W>) -> fmt::Result {
        let Refusal {
            number,
            place,
            meaning,
        } = *self;
        writeln!(f, "refusal {number} {place}:")?;
        write!(f, "{meaning}")
    }
}

impl From<TextFault> for Place {
    ghost from_gives = { λ f p. (place_line p ≡ fault_line f) × (place_element p ≡ fault_element f) };

    fn from(fault: TextFault) -> Place {
        let line = fault.line();
        match (fault, fault.element()) {
            (TextFault::Oversize, _) => Place::Text,
            (_, None) => Place::Line(line),
            (_, Some(element)) => Place::Element { line, element },
        }
    }
}

// What is wrong with an element, in words.
fn element_meaning(fault: ElementFault) -> &'static str
    ensures { result.now ≡ element_meaning_lem fault }
{
    match fault {
        ElementFault::Form { .. } => "the element is not written as it should be",
        ElementFault::Range { .. } =>
            "the element is outside its limits or names something that there is not",
    }
}

// What is wrong with a line, in words.
fn line_meaning(fault: LineFault) -> &'static str
    ensures { result.now ≡ line_meaning_lem fault }
{
    match fault {
        LineFault::Unended { .. } => "the line has no end: no byte 10 follows from its start on",
        LineFault::Overlong { .. } => "the line has more than 96 bytes",
        LineFault::WrongKey { .. } => "the line does not begin with the key that is due and `=`",
        LineFault::Element { fault, .. } => element_meaning(fault),
    }
}

// What is wrong with a text, in words.
fn text_meaning(fault: TextFault) -> &'static str
    ensures { result.now ≡ meaning fault }
{
    match fault {
        TextFault::Oversize => "the text has more than 16,384 bytes",
        TextFault::Line(fault) => line_meaning(fault),
        TextFault::Trailing { .. } => "the text goes on behind its last due line",
    }
}

impl From<TextFault> for Refusal {
    ghost from_gives = { λ f r. Tells f r };

    fn from(fault: TextFault) -> Refusal {
        Refusal {
            number: fault.number(),
            place: Place::from(fault),
            meaning: text_meaning(fault),
        }
    }
}
