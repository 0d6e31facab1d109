/// The most tests that a table keeps.
pub const MOST_TESTS: usize = 210_000;

/// The most instants that the tests of a table have together.
pub const MOST_INSTANTS: u32 = 7_400_000;
