// One line of a chart text, with its value.
ghost use Rattle.std.specs.Prelude.{◌<◌};
ghost use Rattle.format.specs.Readers.{value_at};
ghost use Rattle.chart_text.specs.Keys.{key_text};
ghost use Rattle.chart_reader.specs.Inner.{Gives};

use chart_text::line::{Key, Line, due_line};
use format::fault::LineFault;
use format::line::Lines;
use format::value::Value;

// The value of the next line, which has to have the key that is due.
pub(super) fn field<V: Value>(lines: &mut Lines<'_>, key: Key, limit: u8) -> Result<V, LineFault>
    requires { lines.old.number < 65535 }
    ensures { Gives V.said 1 (value_at (V.reads limit) (key_text key) lines.old.number lines.old.rest.now) lines.old lines.new result }
{
    let Line { number, due } = due_line(lines, key)?;
    let value = V::read(limit, due.value()).map_err(|fault| (number, fault))?;
    Ok(value)
}
