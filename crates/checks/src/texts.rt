// Texts: what is made of each of a row, the field that a text shows, and a route in letters.
use field::Refusal;
use std::test::Fail;
use text::{Failure, Judgement, gather, judge_line, lines_of, read_field, rows_in};

fn half(n: &u8) -> Option<u8> {
    if *n % 2 == 0 { Some(*n / 2) } else { None }
}

#[test]
fn all_or_nothing_is_gathered(rt: HostRuntime) -> Result<(), Fail> {
    let halves = gather(rt.alloc(), &[2u8, 8], half)?.ok_or("nothing")?;
    assert_eq!(rt; halves.as_slice(), [1, 4].as_slice());
    assert!(rt; gather(rt.alloc(), &[2u8, 7, 8], half)?.is_none());
    Ok(())
}

#[test]
fn texts_show_fields_and_routes(rt: HostRuntime) -> Result<(), Fail> {
    let text: &[u8] = b".a.\r\n#..\n\nrdlu\nrd";
    let lines = lines_of(rt.alloc(), text)?;
    assert_eq!(rt; lines.len(), 5);
    let rows = rows_in(lines.as_slice());
    assert_eq!(rt; rows, 2);
    let shown = read_field(rt.alloc(), &lines[..rows])?;
    let field = shown.field()?;
    assert_eq!(rt; (field.across, field.down, field.bays.len()), (3, 2, 1));
    let round = judge_line(rt.alloc(), &field, 3, 0, lines[3])?;
    assert_eq!(rt; round, Judgement(Ok(())));
    let absent = judge_line(rt.alloc(), &field, 4, 1, lines[4]);
    assert_eq!(rt; absent, Err(Failure::Refused(Refusal::Event)));
    Ok(())
}

#[test]
fn rows_at_fault_are_told(rt: HostRuntime) -> Result<(), Fail> {
    let rows: [&[u8]; 2] = [b".b", b"a"];
    assert_eq!(rt;
        read_field(rt.alloc(), &rows).err(),
        Some(Failure::Refused(Refusal::Text(1)))
    );
    Ok(())
}
