//! The clauses of the formula and those that were learnt, under one numbering.
ghost use Rattle.std.specs.Prelude.{◌≡◌, ◌+◌, ◌<◌, length};
ghost use Rattle.sat_core.specs.Trail.{clause, clauses_of, put_clause};

use cnf_form::{Clause, Lit};
use proof_check::ProofStep;

fn put_clause(step: &ProofStep) -> &[Lit]
    ensures { result.now ≡ put_clause step.now }
{
    match step {
        ProofStep::Put { clause, .. } => clause.lits(),
        ProofStep::Delete { .. } => &[],
    }
}

/// The clause at a place among the formula's and then the log's. Constant time.
#[tactic(auto, using(crate::proofs::ClauseFacts::clauses))]
pub(crate) fn clause_at<'a>(formula: &'a [Clause], log: &'a [ProofStep], at: usize) -> &'a [Lit]
    requires { at < length formula.now + length log.now }
    ensures { result.now ≡ clause (clauses_of formula.now log.now) at }
{
    if at < formula.len() {
        formula[at].lits()
    } else {
        put_clause(&log[at - formula.len()])
    }
}
