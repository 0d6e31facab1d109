//! The texts of reports: scores, obligations, streams, and a score as JSON.
#![tactic(auto)]

mod duties;
mod json;
mod names;
mod scores;
#[cfg(test)]
mod tests;
mod undo;
mod values;

pub use duties::duty_text;
pub use json::{TestLine, score_json};
pub use scores::{CRITERIA, score_text};
pub use values::stream_line;
