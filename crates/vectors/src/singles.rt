// Lines with a single value: names, counts, numbers and parents, in the worked chart.
use super::text::WORKED;
use super::verdict::Verdict::{Accepted, Refused};
use super::verdict::{Case, hold};
use std::test::Fail;

static NAMES: &[Case] = &[
    Case(1, b"chart=a", Accepted),
    Case(1, b"chart=_", Accepted),
    Case(1, b"chart=0", Accepted),
    Case(1, b"chart=z_9", Accepted),
    Case(1, b"chart=abcdefghijklmnop", Accepted),
    Case(1, b"chart=abcdefghijklmnopq", Refused(5, 1, Some(0))),
    Case(1, b"chart=", Refused(5, 1, Some(0))),
    Case(1, b"chart=Rower", Refused(5, 1, Some(0))),
    Case(1, b"chart=ro-wer", Refused(5, 1, Some(0))),
    Case(1, b"chart=ro wer", Refused(5, 1, Some(0))),
    Case(1, b"chart=rower ", Refused(5, 1, Some(0))),
    Case(1, b"chart= rower", Refused(5, 1, Some(0))),
    Case(1, b"chart=chart=rower", Refused(5, 1, Some(0))),
    Case(1, b"chart=rower,rower", Refused(5, 1, Some(0))),
];

#[test]
fn a_name_is_1_to_16_small_letters_digits_and_underscores(rt: HostRuntime) -> Result<(), Fail> {
    hold(&rt, rt.alloc(), WORKED, NAMES)
}

static NUMBERS: &[Case] = &[
    Case(7, b"first=5", Accepted),
    Case(7, b"first=", Refused(5, 7, Some(0))),
    Case(7, b"first=00", Refused(5, 7, Some(0))),
    Case(7, b"first=05", Refused(5, 7, Some(0))),
    Case(7, b"first=000", Refused(5, 7, Some(0))),
    Case(7, b"first=100", Refused(5, 7, Some(0))),
    Case(7, b"first=256", Refused(5, 7, Some(0))),
    Case(7, b"first=+1", Refused(5, 7, Some(0))),
    Case(7, b"first=-1", Refused(5, 7, Some(0))),
    Case(7, b"first= 1", Refused(5, 7, Some(0))),
    Case(7, b"first=1 ", Refused(5, 7, Some(0))),
    Case(7, b"first=1a", Refused(5, 7, Some(0))),
    Case(7, b"first=a1", Refused(5, 7, Some(0))),
    Case(7, b"first=x", Refused(5, 7, Some(0))),
    Case(7, b"first==1", Refused(5, 7, Some(0))),
    Case(7, b"first=s1", Refused(5, 7, Some(0))),
];

#[test]
fn a_number_is_one_or_two_digits_with_no_leading_zero(rt: HostRuntime) -> Result<(), Fail> {
    hold(&rt, rt.alloc(), WORKED, NUMBERS)
}

static PAIRS: &[Case] = &[
    Case(2, b"events=3,3", Refused(5, 2, Some(0))),
    Case(3, b"automata=3,3", Refused(5, 3, Some(0))),
    Case(4, b"states=6,6", Refused(5, 4, Some(0))),
    Case(5, b"transitions=4,4", Refused(5, 5, Some(0))),
    Case(6, b"under=top,1", Refused(5, 6, Some(0))),
    Case(7, b"first=0,1", Refused(5, 7, Some(0))),
    Case(12, b"in=0,1", Refused(5, 12, Some(0))),
    Case(18, b"from=1,2", Refused(5, 18, Some(0))),
    Case(20, b"on=0,1", Refused(5, 20, Some(0))),
    Case(23, b"to=1,2", Refused(5, 23, Some(0))),
    Case(23, b"to=1,", Refused(5, 23, Some(0))),
    Case(23, b"to=,", Refused(5, 23, Some(0))),
];

#[test]
fn a_single_value_is_not_split_at_commas(rt: HostRuntime) -> Result<(), Fail> {
    hold(&rt, rt.alloc(), WORKED, PAIRS)
}

static PARENTS: &[Case] = &[
    Case(6, b"under=0", Accepted),
    Case(8, b"under=top", Accepted),
    Case(8, b"under=5", Accepted),
    Case(8, b"under=6", Refused(6, 8, Some(0))),
    Case(8, b"under=99", Refused(6, 8, Some(0))),
    Case(8, b"under=05", Refused(5, 8, Some(0))),
    Case(8, b"under=100", Refused(5, 8, Some(0))),
    Case(8, b"under=", Refused(5, 8, Some(0))),
    Case(8, b"under=Top", Refused(5, 8, Some(0))),
    Case(8, b"under=TOP", Refused(5, 8, Some(0))),
    Case(8, b"under=to", Refused(5, 8, Some(0))),
    Case(8, b"under=tops", Refused(5, 8, Some(0))),
    Case(8, b"under=top ", Refused(5, 8, Some(0))),
];

#[test]
fn a_parent_is_top_or_a_state_and_the_tree_is_not_asked_for(rt: HostRuntime) -> Result<(), Fail> {
    hold(&rt, rt.alloc(), WORKED, PARENTS)
}

static COUNTS: &[Case] = &[
    Case(2, b"events=64", Accepted),
    Case(2, b"events=65", Refused(6, 2, Some(0))),
    Case(2, b"events=99", Refused(6, 2, Some(0))),
    Case(2, b"events=100", Refused(5, 2, Some(0))),
    Case(2, b"events=0", Refused(6, 2, Some(0))),
    Case(2, b"events=03", Refused(5, 2, Some(0))),
    Case(2, b"events=00", Refused(5, 2, Some(0))),
    Case(2, b"events=", Refused(5, 2, Some(0))),
    Case(3, b"automata=25", Refused(6, 3, Some(0))),
    Case(3, b"automata=0", Refused(6, 3, Some(0))),
    Case(3, b"automata=024", Refused(5, 3, Some(0))),
    Case(4, b"states=65", Refused(6, 4, Some(0))),
    Case(4, b"states=0", Refused(6, 4, Some(0))),
    Case(4, b"states=x", Refused(5, 4, Some(0))),
    Case(5, b"transitions=97", Refused(6, 5, Some(0))),
    Case(5, b"transitions=99", Refused(6, 5, Some(0))),
    Case(5, b"transitions=100", Refused(5, 5, Some(0))),
    Case(5, b"transitions=00", Refused(5, 5, Some(0))),
    Case(5, b"transitions=-1", Refused(5, 5, Some(0))),
    Case(12, b"in=2", Accepted),
    Case(12, b"in=3", Refused(6, 12, Some(0))),
    Case(20, b"on=2", Accepted),
    Case(20, b"on=3", Refused(6, 20, Some(0))),
    Case(7, b"first=6", Refused(6, 7, Some(0))),
];

#[test]
fn counts_and_numbers_keep_to_their_limits(rt: HostRuntime) -> Result<(), Fail> {
    hold(&rt, rt.alloc(), WORKED, COUNTS)
}

// A count that does not fit the rows is noticed where the first row is not as it says.
static MISCOUNTS: &[Case] = &[
    Case(2, b"events=1", Refused(6, 27, Some(0))),
    Case(2, b"events=2", Refused(6, 36, Some(0))),
    Case(3, b"automata=2", Refused(4, 10, None)),
    Case(3, b"automata=4", Refused(4, 12, None)),
    Case(4, b"states=4", Refused(6, 11, Some(0))),
    Case(4, b"states=5", Refused(4, 17, None)),
    Case(4, b"states=7", Refused(4, 18, None)),
    Case(5, b"transitions=0", Refused(7, 18, None)),
    Case(5, b"transitions=3", Refused(7, 39, None)),
    Case(5, b"transitions=5", Refused(2, 46, None)),
];

#[test]
fn a_wrong_count_is_refused_where_the_rows_differ(rt: HostRuntime) -> Result<(), Fail> {
    hold(&rt, rt.alloc(), WORKED, MISCOUNTS)
}
