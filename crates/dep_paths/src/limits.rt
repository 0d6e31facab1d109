/// The most paths that a plan may have.
pub const MOST_PATHS: usize = 20_000;

/// The most obligations that a plan may have.
pub const MOST_OBLIGATIONS: usize = 200_000;

/// The most edges that a plan's paths may be asked to have; the least is 1.
pub const MOST_LENGTH: u32 = 64;

/// More than any distance that counts, in steps.
pub(crate) const FAR: u32 = 1_000;
