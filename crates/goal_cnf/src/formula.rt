use cnf_form::{Formula, Lit};
use cov_base::List;

/// The formula of an obligation within some instants, and its hits. The formula has a model exactly
/// where some inputs, within the instants, are admissible and meet the obligation at their last
/// instant.
#[derive(Debug, Drop)]
pub struct Goal {
    /// The formula of the unrolled network, behind it the gates of the obligation, the assertions
    /// and the hits, and last the clause that some hit is true.
    pub formula: Formula,
    /// For each instant, from 0, the literal that the inputs up to it are admissible and the
    /// obligation is met at it.
    pub hits: List<Lit>,
}
