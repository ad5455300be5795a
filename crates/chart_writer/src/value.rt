// The value of a line: a name, one element, or a list of them.
ghost use Rattle.std.specs.Prelude.{◌≡◌};
ghost use Rattle.fixed.specs.Items.{items};
ghost use Rattle.format.specs.Elements.{list_text};
ghost use Rattle.chart_writer.specs.Writes.{comma_at};
ghost use Rattle.chart_writer.specs.Sinks.{Puts};

use super::fault::WriteFault;
use super::sink::Sink;
use super::spell::{Rows, Spell};
use chart::drawing::Name;
use fixed::array_vec::ArrayVec;
use format::element::Element;
use format::value::Single;

impl Spell for Name {
    ghost spelling = { λ n. items n.bytes };

    #[inline(always)]
    fn spell<S: Sink>(&self, sink: &mut S) -> Result<(), WriteFault> {
        sink.put(self.bytes.as_slice())
    }
}

impl<E: Element> Spell for Single<E> {
    ghost spelling = { λ s. E.kind.spell s.item };

    #[inline(always)]
    fn spell<S: Sink>(&self, sink: &mut S) -> Result<(), WriteFault> {
        Rows(self.item.letters().as_slice()).spell(sink)
    }
}

impl<E: Element, const N: usize> Spell for ArrayVec<E, N> {
    ghost spelling = { λ l. list_text E.kind (items l) };

    #[tactic(auto, using(crate::proofs::Lists::list_fits))]
    #[inline(always)]
    fn spell<S: Sink>(&self, sink: &mut S) -> Result<(), WriteFault> {
        let list = self.as_slice();
        for (index, item) in list.iter().enumerate() {
            put_comma(sink, index)?;
            Single { item: *item }.spell(sink)?;
        }
        Ok(())
    }
}

// Puts what stands before an element of a list.
#[inline(always)]
fn put_comma<S: Sink>(sink: &mut S, index: usize) -> Result<(), WriteFault>
    ensures { Puts S.room S.took sink.old (comma_at index) result sink.new }
{
    if index == 0 { Ok(()) } else { sink.put(b",") }
}
