//! The command line: which command it asks for, on which files, with which options.
#![tactic(auto)]

mod args;
mod commands;
mod job;
mod laws;
mod limits;
#[cfg(test)]
mod tests;

pub use args::{WordsFault, read_words};
pub use job::{Job, Verb};
pub use laws::{answers_are_determined, jobs_are_in_range};
pub use limits::{
    DEFAULT_BUDGET, DEFAULT_K, DEFAULT_LENGTH, DEFAULT_WIDTH, LEAST_K, LEAST_LENGTH, LEAST_NUMBER,
    LEAST_WIDTH, MOST_BUDGET, MOST_K, MOST_LENGTH, MOST_OBLIGATION, MOST_SIZE, MOST_WIDTH,
};
