// What is to become of a text, and tables of such expectations.
use super::text::{Piece, assembled, replaced};
use chart::drawing::Drawing;
use chart_reader::reader::{MOST_TEXT_BYTES, read};
use chart_writer::write;
use std::alloc::Global;
use std::process::Abort;
use std::test::Fail;

#[derive(Clone, Copy, Debug, PartialEq, Eq)]
pub enum Verdict {
    // read, and written back byte for byte
    Accepted,
    // read, and written back in another way: what is never to be
    Changed,
    // the number, the line and the element of the refusal
    // kept: faults in their place would be no plainer, since the format names refusals by their numbers
    Refused(u8, u16, Option<u8>),
}

// Whether the drawing is written as this text.
fn comes_back(drawing: &Drawing, text: &[u8]) -> bool {
    let mut out = [0u8; MOST_TEXT_BYTES];
    write(drawing, &mut out) == Ok(text.len()) && out.starts_with(text)
}

// What becomes of a text.
pub fn verdict_on(text: &[u8]) -> Verdict {
    match read(text) {
        Ok(drawing) if comes_back(&drawing, text) => Verdict::Accepted,
        Ok(_) => Verdict::Changed,
        Err(fault) => Verdict::Refused(fault.number(), fault.line(), fault.element()),
    }
}

// A text, and what is to become of it.
pub fn judged(rt: &impl Abort, text: &[u8], expected: Verdict) -> Result<(), Fail> {
    assert_eq!(rt; verdict_on(text), expected);
    Ok(())
}

// A text that is put together, and what is to become of it.
// kept: tried, but runtime and heap are handed on apart, since a helper has `Abort` by a bound alone, which has no heap.
pub fn hold_pieces(
    rt: &impl Abort,
    heap: Global,
    pieces: &[Piece],
    expected: Verdict,
) -> Result<(), Fail> {
    let text = assembled(heap, pieces)?;
    judged(rt, text.as_slice(), expected)
}

// A line of a text, counted from 1; another in its place; and what is to become of the text then.
#[derive(Clone, Copy)]
pub struct Case<'a>(pub u16, pub &'a [u8], pub Verdict);

// One line of the text in another way than it stands there.
pub fn hold_one(rt: &impl Abort, heap: Global, text: &[u8], case: Case) -> Result<(), Fail> {
    let Case(number, line, expected) = case;
    let changed = replaced(heap, text, number, line)?;
    assert!(rt; changed.as_slice() != text);
    assert_eq!(rt;
        verdict_on(changed.as_slice()),
        expected,
        "line {number} written as {line:?}"
    );
    Ok(())
}

// Each case in turn.
pub fn hold(rt: &impl Abort, heap: Global, text: &[u8], cases: &[Case]) -> Result<(), Fail> {
    for case in cases {
        hold_one(rt, heap, text, *case)?;
    }
    Ok(())
}
