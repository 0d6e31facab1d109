//! Formulas in conjunctive normal form, and their texts in DIMACS CNF.
#![tactic(auto)]

mod builder;
mod clause;
mod dimacs;
mod formula;
mod laws;
mod lines;
mod lit;
mod marks;
mod number;
mod read;
#[cfg(test)]
mod tests;
pub mod text;
mod write;

pub use builder::ClauseBuilder;
pub use clause::Clause;
pub use dimacs::{DimacsFault, DimacsKind};
pub use formula::Formula;
pub use laws::read_again;
pub use lit::Lit;
pub use marks::Marks;
pub use read::read_dimacs;
pub use write::write_dimacs;
