//! Runs of a network, instant by instant.
#![tactic(auto)]

mod firing;
mod laws;
mod runner;
#[cfg(test)]
mod tests;

pub use firing::Firing;
pub use laws::{causal_list_fires, kept_by_asserts, same_frame, some_edge_is_ready};
pub use runner::{MOST_INSTANTS, Runner};
