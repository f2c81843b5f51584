// Where in memory the numbers of a shuttle stand.

// So many numbers for each shuttle.
pub const NUMBERS: usize = 260;

// The place of its own numbers that has 1 if it moves.
pub const MOVING: usize = 1;

// The place that has the square behind it. Its own square stands at the first place.
pub const BEHIND: usize = 2;

// The place that has how many squares are left.
pub const LEFT: usize = 3;

// The place from which on what is left stands.
pub const ROUTE: usize = 4;

// At most so many squares are left.
pub const MOST: usize = 256;
