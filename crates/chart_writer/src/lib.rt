// Chart texts written: a drawing's text, straight into the caller's buffer.
#![tactic(auto)]

ghost use Rattle.chart.specs.Plans.{plan_of};
ghost use Rattle.chart_text.specs.Texts.{text_of};
ghost use Rattle.chart_writer.specs.Writes.{Written};

use self::fault::WriteFault;
use self::sink::{Meter, Page};
use self::spell::Spell;
use chart::drawing::Drawing;

pub mod fault;
mod row;
mod sink;
mod spell;
mod value;

// The text of the drawing, at the start of the buffer. Too short a buffer is refused, and not one byte of it changes.
pub fn write(drawing: &Drawing, out: &mut [u8]) -> Result<usize, WriteFault>
    ensures { Written (text_of (plan_of drawing.now)) out.old result out.new }
{
    // measured first, so that a buffer that is too short stays as it was
    drawing.spell(&mut Meter(out.len()))?;
    let mut page = Page { out, at: 0 };
    drawing.spell(&mut page)?;
    Ok(page.at)
}
