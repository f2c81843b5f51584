// How much there is at most.
use arrayvec::ArrayVec;

// The squares of a field.
pub const SQUARES: usize = 4096;

// The squares of a route, and the places that it is given.
pub const MOST: usize = 256;

// The squares that may be asked for.
pub const ASKED: usize = 8;

// These and the bay.
pub const GOALS: usize = ASKED + 1;

// A number for each square. Tables are as large as the largest field, since there is no heap.
pub type Table = [u16; SQUARES];

// Numbers stand in a table for what is not known. With an enum of the three, tried in plain Rust, the way through a small hall takes more
// than three times as long, since a table of it is twice as large. This one stands for a square that none has come to yet.
pub const FAR: u16 = 65535;

// Stands for a square that may not be entered.
pub const SHUT: u16 = 65534;

pub type Queue = ArrayVec<u16, SQUARES>;

pub type Route = ArrayVec<u16, MOST>;

pub type Goals = ArrayVec<u16, GOALS>;
