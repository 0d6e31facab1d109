use op_network::MOST_EDGES;

/// The most nodes that may be nested by calls, main counted as 1.
pub const MOST_DEPTH: u32 = 100;

/// One edge more than a network may have. Counts of edges are cut at it.
pub(crate) const MANY: u32 = MOST_EDGES as u32 + 1;
