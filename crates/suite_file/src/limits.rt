//! How large a suite may be.

/// The first byte that a name may have: the exclamation mark, behind the space.
pub(crate) const LEAST_PRINTABLE: u8 = 0x21;

/// The last byte that a name may have: the tilde.
pub(crate) const MOST_PRINTABLE: u8 = 0x7E;

/// The greatest absolute value of a word of 32 bits.
pub(crate) const MOST_ABSOLUTE: u32 = 0x8000_0000;

/// The most bytes of a test's name.
pub const MOST_NAME: usize = 64;

/// The most tests of a suite.
pub const MOST_TESTS: usize = 210_000;

/// The most instants of a suite, over all its tests.
pub const MOST_INSTANTS: u32 = 7_400_000;
