//! A solver that learns clauses: an assignment that satisfies a formula, or a proof that there is
//! none, or the log of what it learnt within its budget.
#![tactic(auto)]

mod bits;
mod clauses;
mod decision;
mod laws;
mod lesson;
mod limits;
mod look;
mod marks;
mod pass;
mod propagation;
mod refutation;
mod same;
mod search;
mod solving;
#[cfg(test)]
mod tests;
mod trail;
mod turn;
mod verdict;
mod walk;

pub use laws::numbers_of_budgets;
pub use limits::MOST_BUDGET;
pub use solving::{solve, solve_plain, solve_with};
pub use verdict::Verdict;
