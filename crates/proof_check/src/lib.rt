//! Proofs that no assignment satisfies a formula, and their texts in LRAT.
#![tactic(auto)]

mod check;
mod fault;
mod hints;
mod laws;
mod lrat;
mod read;
mod step;
mod table;
#[cfg(test)]
mod tests;
mod write;

pub use check::verify;
pub use laws::{read_again, spent_log_adds_new};
pub use lrat::{LratFault, LratKind};
pub use read::read_lrat;
pub use step::{Proof, ProofStep, StepKind, VerifyFault};
pub use write::write_lrat;
