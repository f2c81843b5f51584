// What is safe in the small hall, which steps are granted, and what an order leaves.
use super::small::{small_field, standing};
use grant::is_granted;
use memory::{Hall, is_memory};
use orders::take_order;
use safety::Fleet;
use std::alloc::Global;
use std::test::Fail;

// Whether all is safe, and whether the one and the other may step.
fn answers(heap: Global, at: [u16; 2], one: &[u16], other: &[u16]) -> Result<[bool; 3], Fail> {
    let field = small_field()?;
    let memory = standing(heap, at, one, other)?;
    if !is_memory(&field, &memory) {
        return Err(Fail::new("the memory is not accepted"));
    }
    let fleet = Fleet::read(&field, &memory);
    if fleet.count != 2 {
        return Err(Fail::new("there are not two shuttles"));
    }
    Ok([
        fleet.is_safe(),
        is_granted(&fleet, 0),
        is_granted(&fleet, 1),
    ])
}

#[test]
fn steps_are_granted_where_all_stays_safe(rt: HostRuntime) -> Result<(), Fail> {
    let heap = rt.alloc();
    let answers = [
        answers(heap, [0, 3], &[1, 2, 1, 0], &[2, 1, 2, 3])?,
        answers(heap, [1, 3], &[2, 1, 0], &[2, 1, 2, 3])?,
        answers(heap, [1, 2], &[2, 6, 5, 4, 0], &[1, 5, 6, 7, 3])?,
        answers(heap, [0, 3], &[1, 2, 6, 5, 4, 0], &[7, 6, 5, 1, 2, 3])?,
        answers(heap, [2, 7], &[6, 5, 4, 0], &[6, 5, 1, 2, 3])?,
    ];
    let either = [true, true, true];
    let one = [true, true, false];
    assert_eq!(rt; answers, [either, one, [false; 3], either, one]);
    Ok(())
}

#[test]
fn an_order_sets_the_square_behind(rt: HostRuntime) -> Result<(), Fail> {
    let mut memory = standing(rt.alloc(), [0, 3], &[], &[])?;
    if let Some(behind) = memory.get_mut(2) {
        *behind = 7;
    }
    let field = small_field()?;
    assert!(rt; is_memory(&field, &memory));
    assert!(rt; !field.bays.is_empty());
    let mut hall = Hall {
        field,
        memory: &mut memory,
    };
    assert!(rt; take_order(&mut hall, 0, &[1, 0]));
    assert!(rt; memory == standing(rt.alloc(), [0, 3], &[1, 0], &[])?);
    Ok(())
}
