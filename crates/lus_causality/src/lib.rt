//! The order in which the edges of a network can be computed at an instant.
#![tactic(auto)]

mod cycle;
mod finishing;
mod laws;
mod marks;
mod off_cycles;
mod operands;
mod ordered;
mod readers;
mod ready;
mod seen;
mod sequence;
#[cfg(test)]
mod tests;

pub use laws::{frames_have_types, one_run, one_sequence, run_of_prefix};
pub use marks::{first_unmarked, is_free, no_marks, set_mark, unset};
pub use ordered::{OrderCause, OrderFault, Ordered, order};
