/// The most clauses that a search may be allowed to learn.
pub const MOST_BUDGET: u64 = 1_000_000_000;
