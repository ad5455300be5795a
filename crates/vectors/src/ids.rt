// Ids: how they are printed for a programmer, and where no call may stand.
use chart::id::{AutomatonId, ConditionId, EventId, StateId, TransitionId};
use format::number::Number;
use std::marker::PhantomData;
use std::test::Fail;

static ENTRY: [StateId; 2] = [Number(2, PhantomData), Number(4, PhantomData)];

#[test]
fn an_id_stands_in_a_static_and_in_a_pattern(rt: HostRuntime) -> Result<(), Fail> {
    assert_eq!(rt; ENTRY[1], StateId::new(4));
    let Number(number, _) = ENTRY[0];
    assert_eq!(rt; number, 2);
    Ok(())
}

#[test]
fn an_id_is_printed_with_the_name_of_its_kind(rt: HostRuntime) -> Result<(), Fail> {
    let heap = rt.alloc();
    let ids = format!(in heap;
        "{:?} {:?} {:?} {:?} {:?}",
        StateId::new(3),
        AutomatonId::new(4),
        EventId::new(5),
        ConditionId::new(6),
        TransitionId::new(7)
    )?;
    assert_eq!(rt;
        ids.as_str(),
        "StateId(3) AutomatonId(4) EventId(5) ConditionId(6) TransitionId(7)"
    );
    let tall = format!(in heap; "{:#?}", StateId::new(63))?;
    assert_eq!(rt; tall.as_str(), "StateId(\n    63,\n)");
    Ok(())
}
