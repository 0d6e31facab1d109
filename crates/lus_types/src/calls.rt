//! Which nodes reach themselves by calls.

mod callees;
pub(crate) mod cycles;
mod ending;
mod search;
