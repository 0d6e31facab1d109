//! Propagation: what follows from the trail.
ghost use Rattle.std.specs.Prelude.{◌≡◌, ◌≤◌, OnOk, IfOk};
ghost use Rattle.sat_core.specs.Passes.{HasPropagated};
ghost use Rattle.sat_core.specs.Solving.{vars_of, weight, IsSolving};
ghost use Rattle.sat_core.specs.Trail.{clauses_of};

use crate::pass::{PassOutcome, pass};
use crate::trail::Trail;
use cnf_form::Clause;
use cov_base::Memory;
use proof_check::ProofStep;

/// Sets each literal that follows from a clause whose other literals are false, until none is left,
/// or until all literals of a clause are false, whose place is answered. The cost is that of a pass
/// over all clauses for each literal that is set, at worst.
pub(crate) fn propagate(
    formula: &[Clause],
    log: &[ProofStep],
    trail: &mut Trail,
) -> Result<Option<usize>, Memory>
    requires { IsSolving formula.now log.now trail.old }
    ensures solving { OnOk result (IsSolving formula.now log.now trail.new) }
    ensures found { IfOk result (HasPropagated (clauses_of formula.now log.now) trail.new) }
    ensures nearer { OnOk result (weight trail.old ≤ weight trail.new) }
    ensures vars { OnOk result (vars_of trail.new ≡ vars_of trail.old) }
{
    'passes: loop {
        match pass(formula, log, trail)? {
            PassOutcome::Rest => return Ok(None),
            PassOutcome::Conflict(at) => return Ok(Some(at)),
            PassOutcome::Forced => {}
        }
    }
}
