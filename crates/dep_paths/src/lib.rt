//! The paths of a network, and what a plan asks of a suite.
#![tactic(auto)]

mod condition_list;
mod duties;
mod law;
mod limits;
mod longer;
mod near;
mod path;
mod paths;
mod planned;
mod planning;
mod rows;
#[cfg(test)]
mod tests;
mod truths;
mod walk;

pub use condition_list::conditions;
pub use law::{
    criteria_imply, later_frames_change_nothing, list_is_longer, one_list, reach_is_passed_on,
    some_list,
};
pub use limits::{MOST_LENGTH, MOST_OBLIGATIONS, MOST_PATHS};
pub use path::{Condition, Criterion, Obligation, Path, Pin, PlanFault, Score, Step};
pub use paths::list;
pub use planned::Plan;
pub use planning::plan;
