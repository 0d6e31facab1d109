//! The end of a proof: the empty clause, where a clause is false with nothing decided.
ghost use Rattle.std.specs.Prelude.{◌≡◌, ◌<◌, ℕ, [], None, false, length, reverse, IfOk, OnOk};
ghost use Rattle.proof_check.specs.Check.{hints_fault, numbered};
ghost use Rattle.sat_core.specs.Conflicts.{HasNoDecision};
ghost use Rattle.sat_core.specs.Logs.{EndsLog};
ghost use Rattle.sat_core.specs.Marks.{at};
ghost use Rattle.sat_core.specs.Solving.{entries_of, IsSolving};
ghost use Rattle.sat_core.specs.Trail.{lits, clauses_of, IsClosed};

use crate::clauses::clause_at;
use crate::marks::mark_clause;
use crate::trail::{Entry, Trail};
use crate::walk::push_hint;
use cnf_form::Clause;
use cov_base::{List, Memory};
use proof_check::ProofStep;
use std::alloc::Global;

/// Puts the hints of the empty clause, last to first. The cost is linear in the trail and in the
/// literals of the clauses that become hints.
fn walk_down(
    formula: &[Clause],
    log: &[ProofStep],
    trail: &Trail,
    conflict: usize,
    seen: &mut [bool],
    hints: &mut Vec<i64>,
) -> Result<(), Memory>
    requires solving { IsSolving formula.now log.now trail.now }
    requires closed { IsClosed
        (clauses_of formula.now log.now) (lits (entries_of trail.now)) conflict }
    requires all { HasNoDecision (entries_of trail.now) }
    requires long { length seen.old ≡ length (entries_of trail.now) }
    requires none { (k : ℕ) → at seen.old k ≡ false }
    requires empty { hints.old.items ≡ [] }
    ensures { OnOk result (hints_fault
        (numbered (clauses_of formula.now log.now)) (λ x. false) (reverse hints.new.items) ≡ None) }
{
    let mut count = 0;
    let from = trail.entries().len();
    let clause = clause_at(formula, log, conflict);
    mark_clause(trail.places(), seen, &mut count, from, clause, None);
    push_hint(hints, conflict)?;
    for i in (0..from).rev() {
        if seen[i] {
            let Entry { lit, reason } = trail.entries()[i];
            match reason {
                Some(reason) => {
                    let clause = clause_at(formula, log, reason as usize);
                    mark_clause(trail.places(), seen, &mut count, from, clause, Some(lit));
                    push_hint(hints, reason as usize)?;
                }
                None => unreachable!(),
            }
        }
    }
    Ok(())
}

/// The step that adds the empty clause behind the log.
pub(crate) fn last_step(
    alloc: Global,
    formula: &[Clause],
    log: &[ProofStep],
    trail: &Trail,
    conflict: usize,
) -> Result<ProofStep, Memory>
    requires solving { IsSolving formula.now log.now trail.now }
    requires closed { IsClosed
        (clauses_of formula.now log.now) (lits (entries_of trail.now)) conflict }
    requires all { HasNoDecision (entries_of trail.now) }
    ensures { IfOk result (EndsLog formula.now log.now) }
{
    let mut marks = Vec::new(alloc);
    marks.resize(trail.entries().len(), false)?;
    let mut hints = Vec::new(alloc);
    let seen = marks.as_mut_slice();
    walk_down(formula, log, trail, conflict, seen, &mut hints)?;
    hints.reverse();
    Ok(ProofStep::Put {
        id: (formula.len() + log.len()) as u32 + 1,
        clause: Clause::new(List::new(alloc)),
        hints: List::from_vec(hints),
    })
}
