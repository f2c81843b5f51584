// The entry: what is turned away, start memory, and what events leave in memory.
use super::small::{BAYS, UNREAD, WALLS, standing};
use field::Refusal;
use hall::{happen, start};
use std::test::Fail;

// What a call in the small hall answers.
fn call(memory: &mut [u16], kind: u64, shuttle: u64, route: &[u16]) -> u64 {
    happen(4, 2, &WALLS, &BAYS, memory, kind, shuttle, route).into()
}

#[test]
fn the_first_refusal_counts(rt: HostRuntime) -> Result<(), Fail> {
    let mut memory = standing(rt.alloc(), [0, 3], &[], &[])?;
    let answers = [
        // the field, memory and the event; memory and the event
        happen(4, 1, &WALLS, &BAYS, &mut [], 3, 2, &[]).into(),
        call(&mut [], 3, 2, &[]),
        // the kind, the shuttle, a square of the route, its length
        call(&mut memory, 3, 0, &[]),
        call(&mut memory, 1, 2, &[]),
        call(&mut memory, 1, 0, &[4096]),
        call(&mut memory, 1, 0, &[0; 257]),
        call(&mut memory, 1, 0, &[4095]),
    ];
    assert_eq!(rt; answers, [17, 18, 19, 19, 19, 19, 1]);
    assert!(rt; memory == standing(rt.alloc(), [0, 3], &[], &[])?);
    Ok(())
}

#[test]
fn all_start_at_home(rt: HostRuntime) -> Result<(), Fail> {
    let mut memory = vec![in rt.alloc(); UNREAD; 520]?;
    let answers = [
        start(4, 1, &WALLS, &BAYS, &mut memory),
        start(4, 2, &WALLS, &[0], &mut memory),
        start(4, 2, &WALLS, &BAYS, &mut memory),
    ];
    assert_eq!(rt;
        answers,
        [Err(Refusal::Field), Err(Refusal::Memory), Ok(())]
    );
    assert_eq!(rt; [Refusal::Field.code(), Refusal::Memory.code()], [17, 18]);
    assert!(rt; memory == standing(rt.alloc(), [0, 3], &[], &[])?);
    Ok(())
}

#[test]
fn a_step_leaves_the_last_place(rt: HostRuntime) -> Result<(), Fail> {
    let mut memory = standing(rt.alloc(), [0, 3], &[], &[])?;
    let answers = [
        // nothing is left, and it stands
        call(&mut memory, 1, 0, &[]),
        call(&mut memory, 2, 0, &[]),
        // an order is taken once
        call(&mut memory, 0, 0, &[1, 5, 4, 0]),
        call(&mut memory, 0, 0, &[1, 5, 4, 0]),
        // a step is granted once
        call(&mut memory, 1, 0, &[]),
        call(&mut memory, 1, 0, &[]),
    ];
    assert_eq!(rt; answers, [1, 1, 0, 1, 0, 1]);
    let numbers = [1, 1, 0, 3, 5, 4, 0, 0, UNREAD];
    assert_eq!(rt; memory.get(0..9), Some(&numbers[0..9]));
    Ok(())
}

#[test]
fn a_mark_of_two_is_refused(rt: HostRuntime) -> Result<(), Fail> {
    let mut memory = standing(rt.alloc(), [0, 3], &[], &[])?;
    if let Some(mark) = memory.get_mut(261) {
        *mark = 2;
    }
    assert_eq!(rt; call(&mut memory, 2, 0, &[]), 18);
    Ok(())
}
