//! A text as tokens: how it is cut, how words and signs are spelled, and when tokens are crowded.

pub(crate) mod crowding;
pub(crate) mod lexer;
pub(crate) mod pieces;
pub(crate) mod spellings;
