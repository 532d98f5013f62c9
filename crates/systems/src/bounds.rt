//! The bounds that every system keeps.

/// A system has at most this many states.
pub const MAX_STATES: usize = 65536;

/// A system has at most this many places.
pub const MAX_PLACES: usize = 1048576;

/// At most this many rows of a table are read.
pub const MAX_ROWS: usize = 4096;
