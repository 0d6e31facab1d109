//! Suites of tests as texts: reading them, writing them, and that what is written is read again.
#![tactic(auto)]

mod cells;
mod fault;
mod header;
mod laws;
mod limits;
mod names;
mod progress;
mod rows;
mod suite;
#[cfg(test)]
mod tests;
mod values;
mod write;

pub use fault::{SuiteFault, SuiteKind};
pub use laws::{accepted, numbers_of_suites, read_again, refused};
pub use limits::{MOST_INSTANTS, MOST_NAME, MOST_TESTS};
pub use suite::read_suite;
pub use write::write_suite;
