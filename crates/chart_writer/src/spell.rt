// What is spelled as bytes: in a line, and one behind the other.
ghost use Rattle.std.specs.Prelude.{ℕ, List, [], ◌∷◌};
ghost use Rattle.std.specs.List.{flat_map};
ghost use Rattle.chart_text.specs.Texts.{line_text};
ghost use Rattle.chart_writer.specs.Sinks.{Puts};

use super::fault::WriteFault;
use super::sink::Sink;
use chart_text::line::Key;

// Each `spell` is inlined, down to the sink's `put`: where the compiler sees how long a piece is, it copies it by no call.
pub(crate) trait Spell {
    ghost spelling: { Self → List ℕ };

    // Puts its bytes into the sink, as far as there is room.
    fn spell<S: Sink>(&self, sink: &mut S) -> Result<(), WriteFault>
        ensures { Puts S.room S.took sink.old (spelling self.now) result sink.new };
}

// A line of a key and a value, with the byte that ends it.
#[derive(Drop)]
pub(crate) struct Line<V>(pub(crate) Key, pub(crate) V);

impl<V: Spell> Spell for Line<V> {
    ghost spelling = { λ s. line_text s.0 (V.spelling s.1) };

    #[inline(always)]
    fn spell<S: Sink>(&self, sink: &mut S) -> Result<(), WriteFault> {
        sink.put(self.0.text())?;
        self.1.spell(sink)?;
        sink.put(b"\n")
    }
}

// A byte.
impl Spell for u8 {
    ghost spelling = { λ byte. byte ∷ [] };

    #[inline(always)]
    fn spell<S: Sink>(&self, sink: &mut S) -> Result<(), WriteFault> {
        sink.put(&[*self])
    }
}

// Rows, one behind the other.
#[derive(Drop)]
pub(crate) struct Rows<'a, R>(pub(crate) &'a [R]);

impl<'a, R: Spell> Spell for Rows<'a, R> {
    ghost spelling = { λ s. flat_map R.spelling s.0.now };

    #[tactic(auto, using(crate::proofs::Lists::rows_fit))]
    #[inline(always)]
    fn spell<S: Sink>(&self, sink: &mut S) -> Result<(), WriteFault> {
        let rows = self.0;
        for row in rows {
            row.spell(sink)?;
        }
        Ok(())
    }
}
