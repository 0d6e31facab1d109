use cov_base::BitRow;
use proof_check::Proof;

/// What a search found.
#[derive(Drop)]
pub enum Verdict {
    /// An assignment that satisfies the formula, a bit for each variable.
    Found(BitRow),
    /// A proof that no assignment satisfies the formula.
    Refuted(Proof),
    /// The whole budget was spent: the clauses that were learnt, in order.
    Spent(Proof),
}
