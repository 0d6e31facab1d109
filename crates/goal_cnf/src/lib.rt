//! The formula of a goal: that some admissible sequence of inputs meets an obligation within some
//! instants.
//!
//! It is the formula of the unrolled network, and after it, instant by instant, the gates that tell
//! whether the obligation is met, whether the sequence so far is admissible, and whether both hold.
//! Its last clause asks for one instant at which both do. `goal` makes it, and `decode` gives the
//! test that a model of it is.
//!
//! `goal_encodes` says what its models are, and `reachable_is_coverable` that an obligation for
//! which it has none is covered by no admissible sequence of so many instants.
#![tactic(auto)]

mod admitted;
mod formula;
mod goals;
mod instants;
mod laws;
mod met;
mod model;
mod observed;
mod passage;
mod path;
mod place;

pub use formula::Goal;
pub use goals::goal;
pub use laws::{goal_encodes, reachable_is_coverable};
pub use model::decode;
