// Where bytes go, one run behind the other: past a meter, which only counts them, or onto a page.
ghost use Rattle.std.specs.Prelude.{◌≡◌, ℕ, ◌-◌, ◌≤◌, List, length, refl};
ghost use Rattle.std.proofs.Common.{◌∙◌};
ghost use Rattle.chart_writer.specs.Sinks.{Chains, Puts, Extends, extends_nothing, extends_more};

use super::fault::WriteFault;

pub(crate) trait Sink {
    // For how many bytes there is room.
    ghost room: { Self → ℕ };

    // What the sink is after it took bytes.
    ghost took: { Self → List ℕ → Self → Type 0 };

    // Takes the bytes if there is room for all of them.
    fn put(&mut self, bytes: &[u8]) -> Result<(), WriteFault>
        ensures { Puts room took self.old bytes.now result self.new };

    ghost laws: { Chains took };
}

// The room that is left.
#[derive(Clone, Copy)]
pub(crate) struct Meter(pub(crate) usize);

impl Sink for Meter {
    ghost room = { λ m. m.0 };

    ghost took = { λ m bytes n. Unit {0} };

    ghost laws = { record { nothing = λ m. tt; more = λ m n o a b p q. tt } };

    #[inline(always)]
    fn put(&mut self, bytes: &[u8]) -> Result<(), WriteFault> {
        let Some(left) = self.0.checked_sub(bytes.len()) else {
            return Err(WriteFault::BufferTooShort);
        };
        self.0 = left;
        Ok(())
    }
}

// A buffer, and how many bytes at its start are written.
// kept: no plainer with only the rest in it, since what was written is told of the whole buffer at the end.
#[derive(Drop)]
pub(crate) struct Page<'a> {
    pub(crate) out: &'a mut [u8],
    pub(crate) at: usize,
    ghost inside: { at ≤ length out.now },
}

impl Sink for Page<'_> {
    ghost room = { λ p. length p.out.now - p.at };

    ghost took = { λ p bytes q. (p.out.ghost_name ≡ q.out.ghost_name) × Extends bytes p.at p.out.now q.at q.out.now };

    ghost laws = { record {
      nothing = λ p. (refl, extends_nothing p.at p.out.now);
      more = λ p q r a b h k. (h.0 ∙ k.0, extends_more a b p.at p.out.now q.at q.out.now r.at r.out.now h.1 k.1);
    } };

    #[inline(always)]
    fn put(&mut self, bytes: &[u8]) -> Result<(), WriteFault> {
        if self.out.len() - self.at < bytes.len() {
            return Err(WriteFault::BufferTooShort);
        }
        let end = self.at + bytes.len();
        self.out[self.at..end].copy_from_slice(bytes);
        self.at = end;
        Ok(())
    }
}
