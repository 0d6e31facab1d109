//! The formula whose models are the streams of a network over some instants.
//!
//! Each edge has a word at each instant: its bits, least first. The words are made instant by
//! instant, and at each instant in the order of the network's sequence, so that the words of the
//! operands are there. An input has free bits, an operator the gates of `bit_blast`, and `pre` the
//! word of the instant before.
#![tactic(auto)]

mod costs;
mod fault;
mod input;
mod instant;
mod laws;
mod operator;
#[cfg(test)]
mod tests;
mod unrolled;
mod unrolling;
mod value;
mod widths;
mod wiring;

pub use costs::size;
pub use fault::UnrollFault;
pub use laws::models_are_runs;
pub use unrolled::Unrolled;
pub use unrolling::unroll;
