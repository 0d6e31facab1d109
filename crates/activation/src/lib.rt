//! Which obligations on paths are met at each instant of a run, instant by instant.
#![tactic(auto)]

mod acts;
mod flags;
mod goals;
mod growth;
mod passage;
mod tree;

pub use acts::Acts;
pub use tree::{Gate, Node};
