// Every byte in places where only a few may stand, and ends of lines that are not a line feed alone.
use super::text::WORKED;
use super::verdict::Verdict::{Accepted, Refused};
use super::verdict::{Case, Verdict, hold_one, judged};
use std::alloc::Global;
use std::process::Abort;
use std::test::Fail;

// A line feed ends the name, so that the next line is empty.
fn at_the_end_of_the_name(byte: u8) -> Verdict {
    match byte {
        b'a'..=b'z' | b'0'..=b'9' | b'_' => Accepted,
        b'\n' => Refused(4, 2, None),
        _ => Refused(5, 1, Some(0)),
    }
}

// There are six states. A line feed leaves the list empty.
fn as_the_only_state(byte: u8) -> Verdict {
    match byte {
        b'0'..=b'5' => Accepted,
        b'6'..=b'9' => Refused(6, 31, Some(0)),
        b'\n' => Refused(4, 32, None),
        _ => Refused(5, 31, Some(0)),
    }
}

// A comma begins a third element, which is empty; a digit makes the second 40 or more.
fn at_the_end_of_a_list(byte: u8) -> Verdict {
    match byte {
        b'0'..=b'9' => Refused(6, 24, Some(1)),
        b',' => Refused(5, 24, Some(2)),
        b'\n' => Refused(4, 25, None),
        _ => Refused(5, 24, Some(1)),
    }
}

// Line `number` of the worked chart as the byte with what stands before and behind it.
fn hold_byte(
    rt: &impl Abort,
    heap: Global,
    number: u16,
    front: &[u8],
    byte: u8,
    rest: &[u8],
    expected: Verdict,
) -> Result<(), Fail> {
    let mut line = Vec::new(heap);
    line.extend_from_slice(front)?;
    line.push(byte)?;
    line.extend_from_slice(rest)?;
    hold_one(rt, heap, WORKED, Case(number, line.as_slice(), expected))
}

#[test]
fn each_byte_stands_only_where_it_may(rt: HostRuntime) -> Result<(), Fail> {
    for byte in 0..=255u8 {
        let held = |number: u16, front: &[u8], rest: &[u8], expected: Verdict| {
            hold_byte(&rt, rt.alloc(), number, front, byte, rest, expected)
        };
        held(1, b"chart=r", b"", at_the_end_of_the_name(byte))?;
        held(2, b"", b"events=3", Refused(4, 2, None))?;
        held(31, b"into=", b"", as_the_only_state(byte))?;
        held(24, b"into=2,4", b"", at_the_end_of_a_list(byte))?;
    }
    Ok(())
}

#[test]
fn a_carriage_return_belongs_to_the_last_element(rt: HostRuntime) -> Result<(), Fail> {
    for (line, number) in WORKED.split(|byte| *byte == b'\n').zip(1..46) {
        let last = if number == 24 { 1 } else { 0 };
        hold_byte(
            &rt,
            rt.alloc(),
            number,
            line,
            b'\r',
            b"",
            Refused(5, number, Some(last)),
        )?;
    }
    Ok(())
}

static ENDS_AND_MARKS: &[(&[u8], Verdict)] = &[
    (b"chart=rower\revents=3\rautomata=3\r", Refused(2, 1, None)),
    (
        b"chart=rower\r\nevents=3\r\nautomata=3\r\n",
        Refused(5, 1, Some(0)),
    ),
    (
        b"chart=rower\n\revents=3\n\rautomata=3\n\r",
        Refused(4, 2, None),
    ),
    (b"chart=rower\0events=3\0automata=3\0", Refused(2, 1, None)),
    (b"\xef\xbb\xbfchart=rower\nevents=3\n", Refused(4, 1, None)),
];

#[test]
fn a_line_feed_alone_ends_a_line_and_no_mark_stands_before_the_first(
    rt: HostRuntime,
) -> Result<(), Fail> {
    for (text, expected) in ENDS_AND_MARKS {
        judged(&rt, text, *expected)?;
    }
    Ok(())
}
