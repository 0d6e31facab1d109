//! The station: it does the commands that coverage of Lustre programs is measured with.
#![tactic(auto)]

mod commands;
mod files;
mod formula;
mod laws;
mod limits;
mod plans;
mod proof;
mod refusal;
mod runs;
mod scores;
mod source;
mod status;
mod suite;
#[cfg(test)]
mod tests;
mod top;
mod words;

pub use laws::{
    by_status, numbers_of_limits, numbers_of_words, one_answer, one_run, one_score, verify_means,
};
pub use status::Status;
pub use top::station;
