//! The network of a Lustre program: calls expanded, and the streams kept.
#![tactic(auto)]

mod counts;
mod draft;
mod expansion;
mod fault;
mod header;
mod here;
mod instances;
mod items;
mod laws;
mod limits;
mod making;
mod measures;
mod names;
mod nodes;
mod operators;
mod outlines;
mod parts;
mod right;
mod roots;
mod tables;

pub use expansion::expand;
pub use fault::ExpandFault;
pub use laws::{expansion_keeps_streams, main_has_its_streams, network_has_main_ports};
pub use limits::MOST_DEPTH;
