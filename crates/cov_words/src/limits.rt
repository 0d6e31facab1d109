//! The ranges of the numbers of a command line, and what they are where they aren't given.

/// The fewest bits of a word, by `--width`.
pub const LEAST_WIDTH: u32 = 2;

/// The most bits of a word.
pub const MOST_WIDTH: u32 = 32;

/// The bits of a word without `--width`.
pub const DEFAULT_WIDTH: u32 = 32;

/// The least that `--length` may be, the most edges of a path.
pub const LEAST_LENGTH: u32 = 1;

/// The most that `--length` may be.
pub const MOST_LENGTH: u32 = 64;

/// The most edges of a path without `--length`.
pub const DEFAULT_LENGTH: u32 = 10;

/// The least that `--k` and K may be, the most instants of a sequence that is searched for.
pub const LEAST_K: u32 = 1;

/// The most that `--k` and K may be.
pub const MOST_K: u32 = 32;

/// The most instants of a sequence that is searched for without `--k`.
pub const DEFAULT_K: u32 = 8;

/// The most clauses that a search may learn, by `--budget`.
pub const MOST_BUDGET: u32 = 100_000;

/// The most clauses that a search may learn without `--budget`.
pub const DEFAULT_BUDGET: u32 = 20_000;

/// The least OBLIGATION of `certify` and the least N of `make`.
pub const LEAST_NUMBER: u32 = 1;

/// The most that OBLIGATION may be.
pub const MOST_OBLIGATION: u32 = u32::MAX;

/// The most that N may be.
pub const MOST_SIZE: u32 = 1000;
