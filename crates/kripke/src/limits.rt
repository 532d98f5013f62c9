//! The bounds that every structure keeps.

/// A structure has at most this many nodes, and a table of edges is read up to this many labels.
pub const MAX_NODES: usize = 65536;

/// At most this many edges of a table are read.
pub const MAX_EDGES: usize = 65536;
