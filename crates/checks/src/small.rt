// The small hall of the examples, four across and two down with the bays 0 and 3, and memory for it.
//    0 1 2 3
//    4 5 6 7
use field::{Field, Refusal};
use std::alloc::{AllocError, Global};

pub const WALLS: [u8; 8] = [0; 8];

pub const BAYS: [u16; 2] = [0, 3];

pub fn small_field() -> Result<Field<'static, 'static>, Refusal> {
    Field::accept(4, 2, &WALLS, &BAYS)
}

// What stands in places of memory that nobody reads.
pub const UNREAD: u16 = 9999;

// Adds a shuttle to memory that stands on this square with these squares left.
pub fn add_shuttle(memory: &mut Vec<u16>, at: u16, left: &[u16]) -> Result<(), AllocError> {
    let count = left.len().min(256);
    memory.extend_from_slice(&[at, 0, at, count as u16])?;
    memory.extend_from_slice(left)?;
    memory.resize(memory.len() + 256 - count, UNREAD)
}

// Memory of two shuttles that stand on these squares with that left.
pub fn standing(
    heap: Global,
    at: [u16; 2],
    one: &[u16],
    other: &[u16],
) -> Result<Vec<u16>, AllocError> {
    let mut memory = Vec::new(heap);
    add_shuttle(&mut memory, at[0], one)?;
    add_shuttle(&mut memory, at[1], other)?;
    Ok(memory)
}
