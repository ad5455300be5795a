// Chart texts: the worked chart, charts of other sizes put together from pieces, and texts with one line changed.
use std::alloc::{AllocError, Global};

// A rower, whose second state holds two automata side by side. Its lines:
// 1 to 5 the head, 6 to 11 three automata, 12 to 17 six states, and from 18, 25, 32 and 39 on a transition each.
pub static WORKED: &[u8] = b"chart=rower\nevents=3\nautomata=3\nstates=6\ntransitions=4\n\
under=top\nfirst=0\nunder=1\nfirst=2\nunder=1\nfirst=4\n\
in=0\nin=0\nin=1\nin=1\nin=2\nin=2\n\
from=0\nwith=\non=0\nif=\ndo=\nto=1\ninto=2,4\n\
from=1\nwith=\non=1\nif=\ndo=\nto=0\ninto=\n\
from=2\nwith=\non=1\nif=\ndo=2\nto=3\ninto=\n\
from=4\nwith=\non=2\nif=c0\ndo=\nto=5\ninto=\n";

// The least chart: eight lines.
pub static LEAST: &[u8] =
    b"chart=a\nevents=1\nautomata=1\nstates=1\ntransitions=0\nunder=top\nfirst=0\nin=0\n";

// So many times the same lines.
#[derive(Clone, Copy)]
pub struct Piece(pub usize, pub &'static [u8]);

// The text that the pieces make, one behind the other.
pub fn assembled(heap: Global, pieces: &[Piece]) -> Result<Vec<u8>, AllocError> {
    let mut text = Vec::new(heap);
    for piece in pieces {
        let Piece(count, lines) = *piece;
        for _ in 0..count {
            text.extend_from_slice(lines)?;
        }
    }
    Ok(text)
}

// The text with another line in place of line `number`, counted from 1.
pub fn replaced(
    heap: Global,
    text: &[u8],
    number: u16,
    other: &[u8],
) -> Result<Vec<u8>, AllocError> {
    let mut result = Vec::new(heap);
    for (line, at) in text.split_inclusive(|byte| *byte == b'\n').zip(1u16..) {
        if at == number {
            result.extend_from_slice(other)?;
            result.push(b'\n')?;
        } else {
            result.extend_from_slice(line)?;
        }
    }
    Ok(result)
}
