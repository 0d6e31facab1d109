/// The least width of words, in bits.
pub const LEAST_WIDTH: u32 = 2;

/// The most bits that words may have.
pub const MOST_WIDTH: u32 = 32;

/// The most edges that a network may have.
pub const MOST_EDGES: usize = 8192;

/// The most enumerators that a choice may have.
pub const MOST_NAMES: usize = 256;
