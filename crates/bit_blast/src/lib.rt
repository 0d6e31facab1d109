//! Gates and operators on words as clauses.
#![tactic(auto)]

mod addition;
mod comparison;
mod fault;
mod gate;
mod maker;
mod multiplication;
mod selection;
#[cfg(test)]
mod tests;
mod word;

pub use fault::BlastFault;
pub use maker::Maker;
pub use word::Word;
