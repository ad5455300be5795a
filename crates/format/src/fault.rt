// What can be wrong with a text, by place: a fault in an element is carried whole in the fault of its line,
// and that in the fault of the text.
ghost use Rattle.std.specs.Prelude.{◌≡◌};
ghost use Rattle.format.specs.Faults.{fault_number, fault_line, fault_element};
ghost use Rattle.format.specs.declared.fault.LineFault.TheVariants.{Element};
ghost use Rattle.format.specs.declared.fault.TextFault.TheVariants.{Line};

// An element, counted from 0, is not written as it should be, or names something that there is not.
#[derive(Clone, Copy, Debug, PartialEq, Eq)]
pub enum ElementFault {
    Form { element: u8 },
    Range { element: u8 },
}

// A line, counted from 1, has no end, is too long, has not the key that is due, or has a fault in an element.
#[derive(Clone, Copy, Debug, PartialEq, Eq)]
pub enum LineFault {
    Unended { line: u16 },
    Overlong { line: u16 },
    WrongKey { line: u16 },
    Element { line: u16, fault: ElementFault },
}

// A text is too long, has a fault in a line, or goes on behind its last due line.
#[derive(Clone, Copy, Debug, PartialEq, Eq)]
pub enum TextFault {
    Oversize,
    Line(LineFault),
    Trailing { line: u16 },
}

impl From<(u16, ElementFault)> for LineFault {
    ghost from_gives = { λ p r. r ≡ Element p.0 p.1 };

    fn from(placed: (u16, ElementFault)) -> LineFault {
        LineFault::Element {
            line: placed.0,
            fault: placed.1,
        }
    }
}

impl From<LineFault> for TextFault {
    ghost from_gives = { λ f r. r ≡ Line f };

    fn from(fault: LineFault) -> TextFault {
        TextFault::Line(fault)
    }
}

impl TextFault {
    // The refusal's number. kept: the C interface tells it.
    pub fn number(self) -> u8
        ensures { result ≡ fault_number self }
    {
        match self {
            TextFault::Oversize => 1,
            TextFault::Line(LineFault::Unended { .. }) => 2,
            TextFault::Line(LineFault::Overlong { .. }) => 3,
            TextFault::Line(LineFault::WrongKey { .. }) => 4,
            TextFault::Line(LineFault::Element { fault, .. }) => match fault {
                ElementFault::Form { .. } => 5,
                ElementFault::Range { .. } => 6,
            },
            TextFault::Trailing { .. } => 7,
        }
    }

    // The line that it names; 0 for the text as a whole.
    pub fn line(self) -> u16
        ensures { result ≡ fault_line self }
    {
        match self {
            TextFault::Oversize => 0,
            TextFault::Line(LineFault::Unended { line }) => line,
            TextFault::Line(LineFault::Overlong { line }) => line,
            TextFault::Line(LineFault::WrongKey { line }) => line,
            TextFault::Line(LineFault::Element { line, .. }) => line,
            TextFault::Trailing { line } => line,
        }
    }

    // The element that it names, where it names one.
    pub fn element(self) -> Option<u8>
        ensures { result ≡ fault_element self }
    {
        match self {
            TextFault::Line(LineFault::Element { fault, .. }) => match fault {
                ElementFault::Form { element } => Some(element),
                ElementFault::Range { element } => Some(element),
            },
            _ => None,
        }
    }
}
