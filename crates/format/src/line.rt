// The lines of a text, read one after the other.
ghost use Rattle.format.specs.Gives.{LineGives};
ghost use Rattle.format.specs.Readers.{line_at};

use super::bytes::cut;
use super::fault::LineFault;

// What is still to be read of a text, from line `number` on.
#[derive(Clone, Copy)]
pub struct Lines<'a> {
    pub number: u16,
    pub rest: &'a [u8],
}

impl<'a> Lines<'a> {
    // The value of the next line, which begins with `key`. A line that is refused is not passed.
    pub fn keyed(&mut self, key: &[u8]) -> Result<&'a [u8], LineFault>
        ensures { LineGives (line_at key.now self.old.number self.old.rest.now) self.old self.new result }
    {
        let line = self.number;
        let Some(parts) = cut(self.rest, b'\n') else {
            return Err(LineFault::Unended { line });
        };
        if parts.front.len() > 96 {
            return Err(LineFault::Overlong { line });
        }
        let Some(value) = parts.front.strip_prefix(key) else {
            return Err(LineFault::WrongKey { line });
        };
        self.number = line.saturating_add(1);
        self.rest = parts.rest;
        Ok(value)
    }
}
