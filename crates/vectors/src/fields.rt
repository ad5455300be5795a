// What is read of a chart, field by field.
use super::text::WORKED;
use chart::drawing::{Automaton, Parent, State, Term};
use chart::id::{AutomatonId, ConditionId, EventId, StateId};
use chart_reader::reader::read;
use std::test::Fail;

// The worked chart's automata: the top one, and two under its second state.
fn automata() -> [Automaton; 3] {
    [
        Automaton {
            parent: Parent::Top,
            initial: StateId::new(0),
        },
        Automaton {
            parent: Parent::State(StateId::new(1)),
            initial: StateId::new(2),
        },
        Automaton {
            parent: Parent::State(StateId::new(1)),
            initial: StateId::new(4),
        },
    ]
}

// Its states, two in each automaton.
fn states() -> [State; 6] {
    [
        State {
            automaton: AutomatonId::new(0),
        },
        State {
            automaton: AutomatonId::new(0),
        },
        State {
            automaton: AutomatonId::new(1),
        },
        State {
            automaton: AutomatonId::new(1),
        },
        State {
            automaton: AutomatonId::new(2),
        },
        State {
            automaton: AutomatonId::new(2),
        },
    ]
}

#[test]
fn the_worked_chart_has_3_events_3_automata_and_6_states(rt: HostRuntime) -> Result<(), Fail> {
    let drawing = read(WORKED)?;
    assert_eq!(rt; drawing.name.bytes.as_slice(), b"rower".as_slice());
    assert_eq!(rt; drawing.events, 3);
    assert_eq!(rt; drawing.automata.as_slice(), automata().as_slice());
    assert_eq!(rt; drawing.states.as_slice(), states().as_slice());
    Ok(())
}

#[test]
fn the_worked_chart_has_4_transitions_with_their_lists(rt: HostRuntime) -> Result<(), Fail> {
    let drawing = read(WORKED)?;
    let [work, rest, stroke, steer] = drawing.transitions.as_slice() else {
        return Err(Fail::new("not four transitions"));
    };
    assert!(rt; work.source.0 == 0 && work.trigger.0 == 0 && work.target.0 == 1);
    assert_eq!(rt;
        work.target_determinator.as_slice(),
        [StateId::new(2), StateId::new(4)].as_slice()
    );
    assert!(rt; rest.source.0 == 1 && rest.trigger.0 == 1 && rest.target.0 == 0);
    assert_eq!(rt; stroke.actions.as_slice(), [EventId::new(2)].as_slice());
    assert_eq!(rt;
        steer.guard.as_slice(),
        [Term::Holds(ConditionId::new(0))].as_slice()
    );
    Ok(())
}
