//! The walk back along the trail, which resolves a conflict with the reasons of its literals.
ghost use Rattle.std.specs.Prelude.{◌≡◌, ◌+◌, ◌^◌, ◌<◌, ℕ, [], ◌∷◌, false, pos, length, reverse, IfOk, OnOk};
ghost use Rattle.sat_core.specs.Conflicts.{HasWalked, IsConflict, IsLastDecision};
ghost use Rattle.sat_core.specs.Marks.{at};
ghost use Rattle.sat_core.specs.Solving.{entries_of, IsSolving};
ghost use Rattle.sat_core.specs.Trail.{clauses_of};

use crate::clauses::clause_at;
use crate::marks::mark_clause;
use crate::trail::{Entry, Trail};
use cnf_form::Clause;
use cov_base::Memory;
use proof_check::ProofStep;

/// The hints are put last to first.
pub(crate) fn push_hint(hints: &mut Vec<i64>, clause: usize) -> Result<(), Memory>
    requires { clause < 2 ^ 32 }
    ensures { OnOk result
        (reverse hints.new.items ≡ pos (clause + 1) ∷ reverse hints.old.items) }
{
    match hints.push(clause as i64 + 1) {
        Ok(()) => Ok(()),
        Err(_) => Err(Memory),
    }
}

/// Answers where the walk stops: at the one literal that is left from `from` on. The cost is linear
/// in the trail from there on and in the literals of the clauses that become hints.
pub(crate) fn walk(
    formula: &[Clause],
    log: &[ProofStep],
    trail: &Trail,
    conflict: usize,
    from: usize,
    seen: &mut [bool],
    hints: &mut Vec<i64>,
) -> Result<usize, Memory>
    requires solving { IsSolving formula.now log.now trail.now }
    requires conflict { IsConflict
        (clauses_of formula.now log.now) (entries_of trail.now) conflict from }
    requires last { IsLastDecision (entries_of trail.now) from }
    requires long { length seen.old ≡ length (entries_of trail.now) }
    requires none { (k : ℕ) → at seen.old k ≡ false }
    requires empty { hints.old.items ≡ [] }
    ensures { IfOk result (λ stop. HasWalked
        (clauses_of formula.now log.now) (entries_of trail.now) from stop
        seen.new (reverse hints.new.items)) }
{
    let mut count = 0;
    let clause = clause_at(formula, log, conflict);
    mark_clause(trail.places(), seen, &mut count, from, clause, None);
    push_hint(hints, conflict)?;
    for i in (from..trail.entries().len()).rev() {
        if seen[i] {
            if count == 1 {
                return Ok(i);
            }
            seen[i] = false;
            count -= 1;
            let Entry { lit, reason } = trail.entries()[i];
            match reason {
                Some(reason) => {
                    let clause = clause_at(formula, log, reason as usize);
                    mark_clause(trail.places(), seen, &mut count, from, clause, Some(lit));
                    push_hint(hints, reason as usize)?;
                }
                None => unreachable!(),
            }
        }
    }
    unreachable!()
}
