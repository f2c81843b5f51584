// Fields and routes.
use super::small::{BAYS, WALLS, small_field};
use field::is_field;
use route::{Fault, judge};
use std::test::Fail;

#[test]
fn fields_are_accepted(rt: HostRuntime) {
    let answers = [
        is_field(4, 2, &WALLS, &BAYS),
        // no shuttle at all
        is_field(4, 2, &WALLS, &[]),
        // nothing but a wall
        is_field(1, 1, &[1], &[]),
        // as large as may be
        is_field(64, 64, &[0; 4096], &[4095]),
    ];
    assert_eq!(rt; answers, [true; 4]);
}

#[test]
fn fields_are_refused(rt: HostRuntime) {
    let answers = [
        // no square, too wide, too long
        is_field(0, 2, &[], &[]),
        is_field(65, 1, &[0; 65], &[]),
        is_field(1, 65, &[0; 65], &[]),
        // walls of another length, another mark
        is_field(4, 1, &WALLS, &BAYS),
        is_field(2, 1, &[0, 2], &[]),
        // a bay that is a wall, outside, or another's; seventeen bays
        is_field(2, 1, &[0, 1], &[1]),
        is_field(4, 2, &WALLS, &[0, 8]),
        is_field(4, 2, &WALLS, &[3, 3]),
        is_field(64, 1, &[0; 64], &[0; 17]),
    ];
    assert_eq!(rt; answers, [false; 9]);
}

#[test]
fn rows_end_and_routes_are_judged(rt: HostRuntime) -> Result<(), Fail> {
    let field = small_field()?;
    let beside = [field.beside(2, 3), field.beside(3, 7), field.beside(4, 0)];
    assert_eq!(rt; beside, [true; 3]);
    let apart = [field.beside(3, 4), field.beside(4, 3), field.beside(0, 5)];
    assert_eq!(rt; apart, [false; 3]);
    assert_eq!(rt; field.bays.len(), 2);
    let judged = [
        judge(&field, 0, 0, &[1, 2, 6, 5, 4, 0]),
        judge(&field, 0, 0, &[]),
        judge(&field, 0, 1, &[]),
        judge(&field, 0, 0, &[1, 2]),
        // another's bay, the own one on the way, past the end of a row
        judge(&field, 0, 0, &[1, 2, 3, 2, 1]),
        judge(&field, 0, 0, &[1, 0, 1, 0]),
        judge(&field, 1, 3, &[4, 5, 6, 7, 3]),
    ];
    let faults = [
        Ok(()),
        Ok(()),
        Err(Fault::OutsideAfter(0)),
        Err(Fault::OutsideAfter(2)),
        Err(Fault::WrongAt(2)),
        Err(Fault::WrongAt(1)),
        Err(Fault::WrongAt(0)),
    ];
    assert_eq!(rt; judged, faults);
    Ok(())
}
