//! Which conditions of a network are observed with which value, instant by instant.
#![tactic(auto)]

mod coming;
mod limits;
mod outputs;
mod ports;
mod rows;
mod sets;
mod tags;
mod values;

pub use tags::Tags;
