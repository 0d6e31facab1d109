//! Rules by which a solver decides.
#![tactic(auto)]

mod chooser;
mod fixed;
#[cfg(test)]
mod tests;

pub use chooser::Chooser;
pub use fixed::Fixed;
