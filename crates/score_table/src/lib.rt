//! Tables of tests, and what these tests cover.
#![tactic(auto)]

mod fault;
mod kept;
mod laws;
mod limits;
mod names;
mod row;
mod running;
mod score;
mod table;
mod watch;

pub use fault::{AddCause, AddFault, NotKept};
pub use laws::{full_scores_imply, numbers_of_tables, one_list_of_runs};
pub use limits::{MOST_INSTANTS, MOST_TESTS};
pub use table::Table;
