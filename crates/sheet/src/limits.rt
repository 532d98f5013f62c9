//! The limits of a sheet.

/// A sheet has at most this many states.
pub const MOST_STATES: usize = 1024;

/// A sheet has at most this many rows of each sort.
pub const MOST_ROWS: usize = 64;
