// Charts and texts as large as they may be, and one larger.
use super::text::{LEAST, Piece, assembled};
use super::verdict::Verdict::{Accepted, Refused};
use super::verdict::{Case, hold, hold_one, hold_pieces, judged};
use std::test::Fail;

static LEAST_CASES: &[Case] = &[
    Case(1, b"chart=z", Accepted),
    Case(2, b"events=64", Accepted),
    Case(3, b"automata=0", Refused(6, 3, Some(0))),
    Case(6, b"under=1", Refused(6, 6, Some(0))),
    Case(7, b"first=1", Refused(6, 7, Some(0))),
    Case(8, b"in=1", Refused(6, 8, Some(0))),
];

#[test]
fn a_chart_has_at_least_one_event_one_automaton_and_one_state(rt: HostRuntime) -> Result<(), Fail> {
    judged(&rt, LEAST, Accepted)?;
    hold(&rt, rt.alloc(), LEAST, LEAST_CASES)
}

const AUTOMATON: &[u8] = b"under=top\nfirst=0\n";

const STATE: &[u8] = b"in=0\n";

const TRANSITION: &[u8] = b"from=0\nwith=\non=0\nif=\ndo=\nto=0\ninto=\n";

// As much of everything as there may be: 789 lines, with the states from line 54 and the transitions from line 118 on.
static FULL: &[Piece] = &[
    Piece(
        1,
        b"chart=a23456789_bcdefg\nevents=64\nautomata=24\nstates=64\ntransitions=96\n",
    ),
    Piece(24, AUTOMATON),
    Piece(64, STATE),
    Piece(96, TRANSITION),
];

static FULL_CASES: &[Case] = &[
    Case(2, b"events=65", Refused(6, 2, Some(0))),
    Case(3, b"automata=25", Refused(6, 3, Some(0))),
    Case(4, b"states=65", Refused(6, 4, Some(0))),
    Case(5, b"transitions=97", Refused(6, 5, Some(0))),
    Case(5, b"transitions=95", Refused(7, 783, None)),
    Case(6, b"under=63", Accepted),
    Case(6, b"under=64", Refused(6, 6, Some(0))),
    Case(53, b"first=63", Accepted),
    Case(53, b"first=64", Refused(6, 53, Some(0))),
    Case(54, b"in=23", Accepted),
    Case(54, b"in=24", Refused(6, 54, Some(0))),
    Case(117, b"in=23", Accepted),
    Case(117, b"in=24", Refused(6, 117, Some(0))),
    Case(118, b"from=63", Accepted),
    Case(118, b"from=64", Refused(6, 118, Some(0))),
    Case(119, b"with=56,57,58,59,60,61,62,63", Accepted),
    Case(
        119,
        b"with=57,58,59,60,61,62,63,64",
        Refused(6, 119, Some(7)),
    ),
    Case(
        119,
        b"with=55,56,57,58,59,60,61,62,63",
        Refused(5, 119, Some(8)),
    ),
    Case(120, b"on=63", Accepted),
    Case(120, b"on=64", Refused(6, 120, Some(0))),
    Case(121, b"if=s63,n63,c31,d31,s63,n63,c31,d31", Accepted),
    Case(
        121,
        b"if=s63,n63,c31,d31,s63,n63,c31,d31,c0",
        Refused(5, 121, Some(8)),
    ),
    Case(121, b"if=s64", Refused(6, 121, Some(0))),
    Case(121, b"if=s63,n64", Refused(6, 121, Some(1))),
    Case(121, b"if=s63,n63,c32", Refused(6, 121, Some(2))),
    Case(121, b"if=s63,n63,c31,d32", Refused(6, 121, Some(3))),
    Case(122, b"do=63,63,63,63,63,63,63,63", Accepted),
    Case(
        122,
        b"do=63,63,63,63,63,63,63,63,63",
        Refused(5, 122, Some(8)),
    ),
    Case(122, b"do=63,63,63,63,63,63,63,64", Refused(6, 122, Some(7))),
    Case(123, b"to=63", Accepted),
    Case(123, b"to=64", Refused(6, 123, Some(0))),
    Case(
        124,
        b"into=40,41,42,43,44,45,46,47,48,49,50,51,52,53,54,55,56,57,58,59,60,61,62,63",
        Accepted,
    ),
    Case(
        124,
        b"into=41,42,43,44,45,46,47,48,49,50,51,52,53,54,55,56,57,58,59,60,61,62,63,64",
        Refused(6, 124, Some(23)),
    ),
    Case(
        124,
        b"into=39,40,41,42,43,44,45,46,47,48,49,50,51,52,53,54,55,56,57,58,59,60,61,62,63",
        Refused(5, 124, Some(24)),
    ),
    Case(783, b"from=63", Accepted),
    Case(785, b"on=64", Refused(6, 785, Some(0))),
    Case(786, b"if=n63", Accepted),
    Case(789, b"into=63", Accepted),
    Case(789, b"into=64", Refused(6, 789, Some(0))),
    Case(789, b"to=0", Refused(4, 789, None)),
];

#[test]
fn a_chart_may_be_full_and_every_number_reach_its_limit(rt: HostRuntime) -> Result<(), Fail> {
    let text = assembled(rt.alloc(), FULL)?;
    judged(&rt, text.as_slice(), Accepted)?;
    hold(&rt, rt.alloc(), text.as_slice(), FULL_CASES)
}

// A transition of 188 bytes, all its lists full, and one of 131 bytes.
const LONG: &[u8] =
    b"from=63\nwith=56,57,58,59,60,61,62,63\non=63\nif=s63,n63,c31,d31,s63,n63,c31,d31\n\
do=63,63,63,63,63,63,63,63\nto=63\n\
into=40,41,42,43,44,45,46,47,48,49,50,51,52,53,54,55,56,57,58,59,60,61,62,63\n";

const MIDDLING: &[u8] = b"from=0\nwith=\non=0\nif=\n\
do=63,63,63,63,63,63,63,63\nto=0\n\
into=40,41,42,43,44,45,46,47,48,49,50,51,52,53,54,55,56,57,58,59,60,61,62,63\n";

// A text of 16,384 bytes: 57, 432, 320, 14,852, 131 and 592.
static LARGEST: &[Piece] = &[
    Piece(
        1,
        b"chart=abc\nevents=64\nautomata=24\nstates=64\ntransitions=96\n",
    ),
    Piece(24, AUTOMATON),
    Piece(64, STATE),
    Piece(79, LONG),
    Piece(1, MIDDLING),
    Piece(16, TRANSITION),
];

#[test]
fn a_chart_of_16384_bytes_is_read_and_one_byte_more_is_too_long(
    rt: HostRuntime,
) -> Result<(), Fail> {
    let text = assembled(rt.alloc(), LARGEST)?;
    assert_eq!(rt; text.len(), 16384);
    judged(&rt, text.as_slice(), Accepted)?;
    let longer = Case(1, b"chart=abcd", Refused(1, 0, None));
    hold_one(&rt, rt.alloc(), text.as_slice(), longer)
}

#[test]
fn the_length_of_the_text_is_looked_at_before_its_lines(rt: HostRuntime) -> Result<(), Fail> {
    judged(&rt, b"", Refused(2, 1, None))?;
    hold_pieces(&rt, rt.alloc(), &[Piece(16384, b"a")], Refused(2, 1, None))?;
    hold_pieces(&rt, rt.alloc(), &[Piece(16385, b"a")], Refused(1, 0, None))?;
    hold_pieces(&rt, rt.alloc(), &[Piece(16384, b"\n")], Refused(4, 1, None))?;
    hold_pieces(&rt, rt.alloc(), &[Piece(16385, b"\n")], Refused(1, 0, None))
}
