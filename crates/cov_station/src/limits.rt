/// The most bytes of any file that is no source.
pub const MOST_FILE_BYTES: u32 = 268_435_456;

/// The most variables of a formula.
pub const MOST_VARS: u32 = 2_000_000;
