//! What texts of formulas and texts of proofs have in common: lines, words, numbers and literals.

pub use crate::lines::{is_skipped, is_word, next_line, next_word};
pub use crate::number::{Number, parse_natural, parse_number};
pub use crate::read::lit_of;
pub use crate::write::push_lit;
