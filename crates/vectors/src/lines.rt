// Lines that are unended, too long, under a wrong key, or more than are due.
use super::text::{LEAST, Piece, WORKED};
use super::verdict::Verdict::{Accepted, Refused};
use super::verdict::{Case, Verdict, hold, hold_one, hold_pieces, judged, verdict_on};
use std::process::Abort;
use std::test::Fail;

#[test]
fn a_text_cut_off_anywhere_lacks_the_end_of_its_next_line(rt: HostRuntime) -> Result<(), Fail> {
    for i in 0..WORKED.len() {
        let text = &WORKED[..i];
        let ended = text.iter().filter(|byte| **byte == b'\n').count();
        assert_eq!(rt;
            verdict_on(text),
            Refused(2, ended as u16 + 1, None),
            "cut off at {i}"
        );
    }
    judged(&rt, WORKED, Accepted)
}

#[test]
fn a_line_without_an_end_is_refused_however_long_or_wrong_it_is(
    rt: HostRuntime,
) -> Result<(), Fail> {
    for count in 0..200 {
        let rest = Piece(count, b"x");
        hold_pieces(&rt, rt.alloc(), &[rest], Refused(2, 1, None))?;
        hold_pieces(
            &rt,
            rt.alloc(),
            &[Piece(1, b"chart=rower\nevents=3\n"), rest],
            Refused(2, 3, None),
        )?;
    }
    Ok(())
}

static LONGEST: &[Case] = &[
    Case(
        1,
        b"x77777777777777777777777777777777777777777777777777777777777777777777777777777777777777777777777",
        Refused(4, 1, None),
    ),
    Case(
        1,
        b"chart=777777777777777777777777777777777777777777777777777777777777777777777777777777777777777777",
        Refused(5, 1, Some(0)),
    ),
    Case(
        24,
        b"into=1,77777777777777777777777777777777777777777777777777777777777777777777777777777777777777777",
        Refused(5, 24, Some(1)),
    ),
    Case(
        45,
        b"into=7777777777777777777777777777777777777777777777777777777777777777777777777777777777777777777",
        Refused(5, 45, Some(0)),
    ),
];

static OVERLONG: &[Case] = &[
    Case(
        1,
        b"x777777777777777777777777777777777777777777777777777777777777777777777777777777777777777777777777",
        Refused(3, 1, None),
    ),
    Case(
        1,
        b"chart=7777777777777777777777777777777777777777777777777777777777777777777777777777777777777777777",
        Refused(3, 1, None),
    ),
    Case(
        24,
        b"into=1,777777777777777777777777777777777777777777777777777777777777777777777777777777777777777777",
        Refused(3, 24, None),
    ),
    Case(
        45,
        b"into=77777777777777777777777777777777777777777777777777777777777777777777777777777777777777777777",
        Refused(3, 45, None),
    ),
];

fn check_length(rt: &impl Abort, cases: &[Case], len: usize) {
    for case in cases {
        assert_eq!(rt; case.1.len(), len);
    }
}

#[test]
fn a_line_of_97_bytes_is_too_long_and_one_of_96_is_not(rt: HostRuntime) -> Result<(), Fail> {
    check_length(&rt, LONGEST, 96);
    hold(&rt, rt.alloc(), WORKED, LONGEST)?;
    check_length(&rt, OVERLONG, 97);
    hold(&rt, rt.alloc(), WORKED, OVERLONG)
}

static KEYLESS: &[&[u8]] = &[b"", b"7", b"under", b"=0", b"name=0"];

#[test]
fn every_line_has_to_have_its_due_key(rt: HostRuntime) -> Result<(), Fail> {
    for line in KEYLESS {
        for number in 1..46 {
            let case = Case(number, line, Refused(4, number, None));
            hold_one(&rt, rt.alloc(), WORKED, case)?;
        }
    }
    Ok(())
}

static KEYS: &[Case] = &[
    Case(1, b"chart", Refused(4, 1, None)),
    Case(1, b"chart:rower", Refused(4, 1, None)),
    Case(1, b"Chart=rower", Refused(4, 1, None)),
    Case(1, b" chart=rower", Refused(4, 1, None)),
    Case(1, b"chart =rower", Refused(4, 1, None)),
    Case(1, b"charts=rower", Refused(4, 1, None)),
    Case(1, b"hart=rower", Refused(4, 1, None)),
    Case(1, b"rower", Refused(4, 1, None)),
    Case(1, b"events=3", Refused(4, 1, None)),
    Case(2, b"chart=rower", Refused(4, 2, None)),
    Case(6, b"first=0", Refused(4, 6, None)),
    Case(12, b"into=0", Refused(4, 12, None)),
    Case(18, b"in=0", Refused(4, 18, None)),
    Case(19, b"within=", Refused(4, 19, None)),
    Case(23, b"into=1", Refused(4, 23, None)),
    Case(24, b"in=2,4", Refused(4, 24, None)),
    Case(25, b"to=1", Refused(4, 25, None)),
    Case(45, b"from=0", Refused(4, 45, None)),
];

#[test]
fn a_key_is_due_in_its_place_and_written_exactly(rt: HostRuntime) -> Result<(), Fail> {
    hold(&rt, rt.alloc(), WORKED, KEYS)
}

static MORE: &[Piece] = &[
    Piece(1, b"\n"),
    Piece(1, b"x"),
    Piece(1, b"\0"),
    Piece(1, b"from=0\n"),
    Piece(1, b"chart=rower\nevents=3\n"),
    Piece(200, b"x"),
    Piece(200, b"\n"),
];

#[test]
fn a_text_does_not_go_on_behind_its_last_due_line(rt: HostRuntime) -> Result<(), Fail> {
    for more in MORE {
        hold_pieces(
            &rt,
            rt.alloc(),
            &[Piece(1, WORKED), *more],
            Refused(7, 46, None),
        )?;
        hold_pieces(
            &rt,
            rt.alloc(),
            &[Piece(1, LEAST), *more],
            Refused(7, 9, None),
        )?;
    }
    Ok(())
}

// A form before a key, a range before a form, a key before an end, a form before a range, each on an earlier line.
static FAULTY_TWICE: &[(&[u8], Verdict)] = &[
    (b"chart=A\nx\n", Refused(5, 1, Some(0))),
    (b"chart=a\nevents=0\nautomata=x\n", Refused(6, 2, Some(0))),
    (b"chart=a\nautomata=1\nstates=1", Refused(4, 2, None)),
    (
        b"chart=a\nevents=1\nautomata=1\nstates=1\ntransitions=1\nunder=x\nfirst=9\n",
        Refused(5, 6, Some(0)),
    ),
    (b"\n", Refused(4, 1, None)),
    (b"\n\n", Refused(4, 1, None)),
];

#[test]
fn the_first_faulty_line_is_the_one_that_is_named(rt: HostRuntime) -> Result<(), Fail> {
    for (text, expected) in FAULTY_TWICE {
        judged(&rt, text, *expected)?;
    }
    Ok(())
}
