/// The most bytes that a source may have.
pub const MOST_BYTES: usize = 1_048_576;

/// The most operators, `=`, `if` and `(` that may stand between two `;`.
pub const MOST_COUNTED: u32 = 500;
