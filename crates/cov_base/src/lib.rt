//! What every crate of the station stands on: lists and texts that contracts see as plain lists,
//! and the stores and sinks through which it reaches the outside.
#![tactic(auto)]

mod bit_row;
mod bits;
mod count;
mod decimal;
mod list;
mod mem_sink;
mod mem_store;
mod memory;
mod plan;
mod sink;
mod steps;
mod store;
#[cfg(test)]
mod tests;
mod text;

pub use bit_row::BitRow;
pub use decimal::{push_decimal, push_percent};
pub use list::List;
pub use mem_sink::MemSink;
pub use mem_store::MemStore;
pub use memory::Memory;
pub use sink::{Sink, SinkFailed, put_all};
pub use steps::Steps;
pub use store::{Store, StoreFault};
pub use text::Text;
