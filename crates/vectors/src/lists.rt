// Lines with a list as their value, in the worked chart, which has six states and three events.
use super::text::WORKED;
use super::verdict::Verdict::{Accepted, Refused};
use super::verdict::{Case, hold};
use std::test::Fail;

static ELEMENTS: &[Case] = &[
    Case(19, b"with=3", Accepted),
    Case(19, b"with=0,5", Accepted),
    Case(19, b"with=,", Refused(5, 19, Some(0))),
    Case(19, b"with=1,", Refused(5, 19, Some(1))),
    Case(19, b"with=,1", Refused(5, 19, Some(0))),
    Case(19, b"with=1,,2", Refused(5, 19, Some(1))),
    Case(19, b"with=1,,", Refused(5, 19, Some(1))),
    Case(19, b"with=1, 2", Refused(5, 19, Some(1))),
    Case(19, b"with= ", Refused(5, 19, Some(0))),
    Case(19, b"with=1;2", Refused(5, 19, Some(0))),
    Case(19, b"with=01", Refused(5, 19, Some(0))),
    Case(19, b"with=0,1,02", Refused(5, 19, Some(2))),
    Case(19, b"with=100", Refused(5, 19, Some(0))),
    Case(19, b"with=top", Refused(5, 19, Some(0))),
    Case(24, b"into=2,4,", Refused(5, 24, Some(2))),
];

#[test]
fn a_list_is_split_at_commas_and_none_of_its_elements_is_empty(
    rt: HostRuntime,
) -> Result<(), Fail> {
    hold(&rt, rt.alloc(), WORKED, ELEMENTS)
}

static ASCENTS: &[Case] = &[
    Case(19, b"with=0,1,2,3,4,5", Accepted),
    Case(19, b"with=1,1", Refused(5, 19, Some(1))),
    Case(19, b"with=2,1", Refused(5, 19, Some(1))),
    Case(19, b"with=0,2,1,3", Refused(5, 19, Some(2))),
    Case(19, b"with=0,1,2,2", Refused(5, 19, Some(3))),
    Case(24, b"into=0,1,2,3,4,5", Accepted),
    Case(24, b"into=4,2", Refused(5, 24, Some(1))),
    Case(24, b"into=2,4,4", Refused(5, 24, Some(2))),
    Case(22, b"do=2,1,0,0", Accepted),
    Case(22, b"do=1,1,1,1,1,1,1,1", Accepted),
    Case(21, b"if=s3,s1,s3,n0,n0", Accepted),
    Case(21, b"if=c1,c0,c0", Accepted),
];

#[test]
fn lists_of_states_ascend_and_lists_of_events_and_terms_need_not(
    rt: HostRuntime,
) -> Result<(), Fail> {
    hold(&rt, rt.alloc(), WORKED, ASCENTS)
}

static TERMS: &[Case] = &[
    Case(21, b"if=s0,n5,c31,d0", Accepted),
    Case(21, b"if=s5", Accepted),
    Case(21, b"if=s6", Refused(6, 21, Some(0))),
    Case(21, b"if=n5", Accepted),
    Case(21, b"if=n6", Refused(6, 21, Some(0))),
    Case(21, b"if=c31", Accepted),
    Case(21, b"if=c32", Refused(6, 21, Some(0))),
    Case(21, b"if=d31", Accepted),
    Case(21, b"if=d32", Refused(6, 21, Some(0))),
    Case(21, b"if=c0,s99", Refused(6, 21, Some(1))),
    Case(21, b"if=s", Refused(5, 21, Some(0))),
    Case(21, b"if=0", Refused(5, 21, Some(0))),
    Case(21, b"if=12", Refused(5, 21, Some(0))),
    Case(21, b"if=x0", Refused(5, 21, Some(0))),
    Case(21, b"if=S0", Refused(5, 21, Some(0))),
    Case(21, b"if=s01", Refused(5, 21, Some(0))),
    Case(21, b"if=c100", Refused(5, 21, Some(0))),
    Case(21, b"if=ss1", Refused(5, 21, Some(0))),
    Case(21, b"if=s1n", Refused(5, 21, Some(0))),
    Case(21, b"if=c 1", Refused(5, 21, Some(0))),
    Case(21, b"if=c0,", Refused(5, 21, Some(1))),
    Case(21, b"if=top", Refused(5, 21, Some(0))),
];

#[test]
fn a_term_is_a_letter_and_a_state_or_a_condition(rt: HostRuntime) -> Result<(), Fail> {
    hold(&rt, rt.alloc(), WORKED, TERMS)
}

static BEFORE_RANGE: &[Case] = &[
    Case(22, b"do=9,x", Refused(5, 22, Some(1))),
    Case(22, b"do=9,1", Refused(6, 22, Some(0))),
    Case(22, b"do=1,9", Refused(6, 22, Some(1))),
    Case(22, b"do=2,3,4", Refused(6, 22, Some(1))),
    Case(22, b"do=99,99,", Refused(5, 22, Some(2))),
    Case(19, b"with=9,x", Refused(5, 19, Some(1))),
    Case(19, b"with=9,8", Refused(5, 19, Some(1))),
    Case(19, b"with=8,9", Refused(6, 19, Some(0))),
    Case(19, b"with=5,6,7", Refused(6, 19, Some(1))),
    Case(21, b"if=s6,x", Refused(5, 21, Some(1))),
    Case(21, b"if=s6,c32", Refused(6, 21, Some(0))),
    Case(24, b"into=5,6", Refused(6, 24, Some(1))),
    Case(24, b"into=2,6,5", Refused(5, 24, Some(2))),
    Case(36, b"do=3", Refused(6, 36, Some(0))),
];

#[test]
fn every_element_is_tried_for_form_before_any_is_for_range(rt: HostRuntime) -> Result<(), Fail> {
    hold(&rt, rt.alloc(), WORKED, BEFORE_RANGE)
}

static TOO_MANY: &[Case] = &[
    Case(19, b"with=0,1,2,3,4,5,6,7", Refused(6, 19, Some(6))),
    Case(19, b"with=0,1,2,3,4,5,6,7,8", Refused(5, 19, Some(8))),
    Case(19, b"with=0,1,2,3,4,5,6,7,x", Refused(5, 19, Some(8))),
    Case(19, b"with=0,1,2,3,4,5,6,7,", Refused(5, 19, Some(8))),
    Case(19, b"with=0,1,2,3,4,5,6,7,8,9", Refused(5, 19, Some(8))),
    Case(19, b"with=0,0,2,3,4,5,6,7,8", Refused(5, 19, Some(1))),
    Case(21, b"if=c0,c1,c2,c3,d0,d1,d2,d3", Accepted),
    Case(
        21,
        b"if=c0,c1,c2,c3,d0,d1,d2,d3,c0",
        Refused(5, 21, Some(8)),
    ),
    Case(22, b"do=0,1,2,0,1,2,0,1,2", Refused(5, 22, Some(8))),
    Case(22, b"do=9,9,9,9,9,9,9,9", Refused(6, 22, Some(0))),
    Case(
        24,
        b"into=0,1,2,3,4,5,6,7,8,9,10,11,12,13,14,15,16,17,18,19,20,21,22,23",
        Refused(6, 24, Some(6)),
    ),
    Case(
        24,
        b"into=0,1,2,3,4,5,6,7,8,9,10,11,12,13,14,15,16,17,18,19,20,21,22,23,24",
        Refused(5, 24, Some(24)),
    ),
];

#[test]
fn an_element_too_many_is_a_matter_of_form(rt: HostRuntime) -> Result<(), Fail> {
    hold(&rt, rt.alloc(), WORKED, TOO_MANY)
}
