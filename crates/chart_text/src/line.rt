// The lines of a chart text.
ghost use Rattle.std.specs.Prelude.{◌≡◌};
ghost use Rattle.format.specs.Readers.{line_at};
ghost use Rattle.chart_text.specs.Keys.{key_text, due_key, due_value, DueGives};

use format::fault::LineFault;
use format::line::Lines;

// The keys, in the order in which they are first due.
#[derive(Clone, Copy)]
pub enum Key {
    Chart,
    Events,
    Automata,
    States,
    Transitions,
    Under,
    First,
    In,
    From,
    With,
    On,
    If,
    Do,
    To,
    Into,
}

// A read line: the key that was due, and its value, which is still a part of the text.
// kept: it is a rule of the project that a read line has a case for each key.
#[derive(Clone, Copy)]
pub enum Due<'a> {
    Chart(&'a [u8]),
    Events(&'a [u8]),
    Automata(&'a [u8]),
    States(&'a [u8]),
    Transitions(&'a [u8]),
    Under(&'a [u8]),
    First(&'a [u8]),
    In(&'a [u8]),
    From(&'a [u8]),
    With(&'a [u8]),
    On(&'a [u8]),
    If(&'a [u8]),
    Do(&'a [u8]),
    To(&'a [u8]),
    Into(&'a [u8]),
}

impl Key {
    // The key and the sign behind it, as they stand in a text.
    pub fn text(self) -> &'static [u8]
        ensures { result.now ≡ key_text self }
    {
        match self {
            Key::Chart => b"chart=",
            Key::Events => b"events=",
            Key::Automata => b"automata=",
            Key::States => b"states=",
            Key::Transitions => b"transitions=",
            Key::Under => b"under=",
            Key::First => b"first=",
            Key::In => b"in=",
            Key::From => b"from=",
            Key::With => b"with=",
            Key::On => b"on=",
            Key::If => b"if=",
            Key::Do => b"do=",
            Key::To => b"to=",
            Key::Into => b"into=",
        }
    }

    // A line of this key.
    fn due(self, value: &[u8]) -> Due<'_>
        ensures named { due_key result ≡ self }
        ensures value { due_value result ≡ value.now }
    {
        match self {
            Key::Chart => Due::Chart(value),
            Key::Events => Due::Events(value),
            Key::Automata => Due::Automata(value),
            Key::States => Due::States(value),
            Key::Transitions => Due::Transitions(value),
            Key::Under => Due::Under(value),
            Key::First => Due::First(value),
            Key::In => Due::In(value),
            Key::From => Due::From(value),
            Key::With => Due::With(value),
            Key::On => Due::On(value),
            Key::If => Due::If(value),
            Key::Do => Due::Do(value),
            Key::To => Due::To(value),
            Key::Into => Due::Into(value),
        }
    }
}

impl<'a> Due<'a> {
    // What stands behind the key.
    pub fn value(self) -> &'a [u8]
        ensures { result.now ≡ due_value self.entry }
    {
        match self {
            Due::Chart(value) => value,
            Due::Events(value) => value,
            Due::Automata(value) => value,
            Due::States(value) => value,
            Due::Transitions(value) => value,
            Due::Under(value) => value,
            Due::First(value) => value,
            Due::In(value) => value,
            Due::From(value) => value,
            Due::With(value) => value,
            Due::On(value) => value,
            Due::If(value) => value,
            Due::Do(value) => value,
            Due::To(value) => value,
            Due::Into(value) => value,
        }
    }
}

// A line that was read, by its number, counted from 1.
#[derive(Clone, Copy)]
pub struct Line<'a> {
    pub number: u16,
    pub due: Due<'a>,
}

// The next line of a text, which has to have the key that is due. A line that is refused is not passed.
pub fn due_line<'a>(lines: &mut Lines<'a>, key: Key) -> Result<Line<'a>, LineFault>
    ensures { DueGives key (line_at (key_text key) lines.old.number lines.old.rest.now) lines.old lines.new result }
{
    let number = lines.number;
    let value = lines.keyed(key.text())?;
    Ok(Line {
        number,
        due: key.due(value),
    })
}
