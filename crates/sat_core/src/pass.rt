//! One pass over all clauses.
ghost use Rattle.std.specs.Prelude.{◌≡◌, ◌≤◌, OnOk, IfOk};
ghost use Rattle.sat_core.specs.Passes.{HasPassed};
ghost use Rattle.sat_core.specs.Solving.{vars_of, weight, IsSolving};
ghost use Rattle.sat_core.specs.Trail.{clauses_of};

use crate::clauses::clause_at;
use crate::look::{Standing, look};
use crate::trail::{Entry, Trail};
use cnf_form::Clause;
use cov_base::Memory;
use proof_check::ProofStep;

/// What a pass found: no clause that sets a literal, one or more that did, or one whose literals
/// are all false.
#[derive(Clone, Copy, Debug, PartialEq, Eq)]
pub(crate) enum PassOutcome {
    Rest,
    Forced,
    Conflict(usize),
}

/// Goes through all clauses once, and sets each literal that follows. The cost is linear in their
/// literals.
pub(crate) fn pass(
    formula: &[Clause],
    log: &[ProofStep],
    trail: &mut Trail,
) -> Result<PassOutcome, Memory>
    requires { IsSolving formula.now log.now trail.old }
    ensures solving { OnOk result (IsSolving formula.now log.now trail.new) }
    ensures passed { IfOk result (HasPassed (clauses_of formula.now log.now) trail.old trail.new) }
    ensures nearer { OnOk result (weight trail.old ≤ weight trail.new) }
    ensures vars { OnOk result (vars_of trail.new ≡ vars_of trail.old) }
{
    let mut has_set = false;
    for at in 0..formula.len() + log.len() {
        match look(trail, clause_at(formula, log, at)) {
            Standing::Closed => return Ok(PassOutcome::Conflict(at)),
            Standing::One(lit) => {
                if !trail.is_set(lit) {
                    let reason = Some(at as u32);
                    trail.push(Entry { lit, reason })?;
                    has_set = true;
                }
            }
            Standing::Many => {}
        }
    }
    Ok(if has_set {
        PassOutcome::Forced
    } else {
        PassOutcome::Rest
    })
}
