// The writer and the buffer that it is lent: all of the text or nothing, and no other byte.
use super::text::WORKED;
use chart::drawing::{Automaton, Drawing, Name, Parent, State, Term, Transition};
use chart::id::{AutomatonId, ConditionId, EventId, StateId};
use chart_reader::reader::read;
use chart_writer::fault::WriteFault;
use chart_writer::write;
use fixed::array_vec::ArrayVec;
use std::test::Fail;

static BLANK: [u8; 320] = [170; 320];

// A page that was blank, after the drawing was written into its first bytes; and how many were written, or the refusal's
// number. kept: the fault would be no plainer, since the format gives the refusal as a number.
fn written(drawing: &Drawing, room: usize) -> ([u8; 320], Result<usize, u8>) {
    let mut page = BLANK;
    let answer = write(drawing, &mut page[..room.min(320)]).map_err(WriteFault::number);
    (page, answer)
}

#[test]
fn a_buffer_that_is_too_short_is_refused_and_left_as_it_was(rt: HostRuntime) -> Result<(), Fail> {
    let drawing = read(WORKED)?;
    for room in 0..289 {
        let (page, answer) = written(&drawing, room);
        assert!(rt;
            answer == Err(17) && page == BLANK,
            "with room for {room} bytes"
        );
    }
    Ok(())
}

#[test]
fn a_buffer_that_is_long_enough_gets_the_text_and_keeps_its_other_bytes(
    rt: HostRuntime,
) -> Result<(), Fail> {
    let drawing = read(WORKED)?;
    for room in 289..321 {
        let (page, answer) = written(&drawing, room);
        assert!(rt;
            answer == Ok(289) && page.starts_with(WORKED) && page[289..] == BLANK[289..],
            "with room for {room} bytes"
        );
    }
    Ok(())
}

// A list of these items.
fn list<T: Copy + Default, const N: usize>(items: &[T]) -> ArrayVec<T, N> {
    let mut list = ArrayVec::default();
    list.extend_from_slice(items);
    list
}

// A transition with every list in use.
fn transition() -> Transition {
    let guard = [
        Term::Active(StateId::new(5)),
        Term::Inactive(StateId::new(60)),
        Term::Holds(ConditionId::new(7)),
        Term::Fails(ConditionId::new(31)),
    ];
    Transition {
        source: StateId::new(1),
        source_restriction: list(&[StateId::new(2), StateId::new(30)]),
        trigger: EventId::new(4),
        guard: list(&guard),
        actions: list(&[EventId::new(8), EventId::new(8)]),
        target: StateId::new(9),
        target_determinator: list(&[StateId::new(10), StateId::new(63)]),
    }
}

// A drawing that was read from no text.
fn made_by_hand() -> Drawing {
    let top = Automaton {
        parent: Parent::Top,
        initial: StateId::new(3),
    };
    let inner = Automaton {
        parent: Parent::State(StateId::new(12)),
        initial: StateId::new(45),
    };
    let state = State {
        automaton: AutomatonId::new(1),
    };
    let bytes = list(b"by_hand");
    Drawing {
        name: Name { bytes },
        events: 10,
        automata: list(&[top, inner]),
        states: list(&[state]),
        transitions: list(&[transition()]),
    }
}

static BY_HAND: &[u8] = b"chart=by_hand\nevents=10\nautomata=2\nstates=1\ntransitions=1\n\
under=top\nfirst=3\nunder=12\nfirst=45\nin=1\n\
from=1\nwith=2,30\non=4\nif=s5,n60,c7,d31\ndo=8,8\nto=9\ninto=10,63\n";

#[test]
fn every_field_is_written_under_its_key(rt: HostRuntime) {
    let (page, answer) = written(&made_by_hand(), 320);
    assert_eq!(rt; answer, Ok(BY_HAND.len()));
    assert!(rt; page.starts_with(BY_HAND));
}
