/// The most declarations that a program may have. A text of a mebibyte has fewer.
pub const MOST_DECLS: usize = 1_048_576;
