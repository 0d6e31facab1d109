//! What is learnt from a conflict.
ghost use Rattle.std.specs.Prelude.{◌≡◌, ◌+◌, ◌<◌, ℕ, None, length, IfOk};
ghost use Rattle.sat_core.specs.Conflicts.{IsConflict, IsCut, IsLastDecision, IsLesson, IsPart};
ghost use Rattle.sat_core.specs.Solving.{entries_of, IsSolving};
ghost use Rattle.sat_core.specs.Trail.{lit_at, reason_at, clauses_of, Apart};

use crate::trail::{Entry, Trail};
use crate::walk::walk;
use cnf_form::{Clause, Lit};
use cov_base::{List, Memory};
use proof_check::ProofStep;
use std::alloc::Global;

/// A clause to be learnt, with its hints, the literal that it sets, and the place of the trail to
/// go back to.
#[derive(Debug, Drop)]
pub(crate) struct Lesson {
    pub clause: Clause,
    pub hints: List<i64>,
    pub lit: Lit,
    pub cut: usize,
}

/// The clause of the negations of the marked literals up to `stop`. The cost is linear in `stop`.
fn marked_clause(
    alloc: Global,
    trail: &[Entry],
    seen: &[bool],
    stop: usize,
) -> Result<Clause, Memory>
    requires stop { stop < length trail.now }
    requires marks { length seen.now ≡ length trail.now }
    requires apart { Apart (lit_at trail.now) (length trail.now) }
    ensures { IfOk result (IsPart trail.now (stop + 1) seen.now) }
{
    let mut lits = List::new(alloc);
    for k in 0..stop + 1 {
        let is_marked = seen[k];
        if is_marked {
            lits.add(trail[k].lit.negated())?;
        }
    }
    Ok(Clause::new(lits))
}

/// The first decision behind all marked literals but the last.
fn cut_place(trail: &[Entry], seen: &[bool], from: usize) -> usize
    requires from { from < length trail.now }
    requires marks { length seen.now ≡ length trail.now }
    requires decided { reason_at trail.now from ≡ None }
    ensures { IsCut trail.now seen.now from result }
{
    let mut cut = from;
    for place in (0..from).rev() {
        if seen[place] {
            return cut;
        }
        if trail[place].reason.is_none() {
            cut = place;
        }
    }
    cut
}

/// Resolves a conflict back to the one literal that was set at the last decision or after it. The
/// cost is linear in the trail and in the literals of the clauses that become hints.
pub(crate) fn study(
    alloc: Global,
    formula: &[Clause],
    log: &[ProofStep],
    trail: &Trail,
    conflict: usize,
    from: usize,
) -> Result<Lesson, Memory>
    requires solving { IsSolving formula.now log.now trail.now }
    requires conflict { IsConflict
        (clauses_of formula.now log.now) (entries_of trail.now) conflict from }
    requires last { IsLastDecision (entries_of trail.now) from }
    ensures { IfOk result
        (IsLesson (clauses_of formula.now log.now) (entries_of trail.now) from) }
{
    let entries = trail.entries();
    let mut marks = Vec::new(alloc);
    marks.resize(entries.len(), false)?;
    let mut hints = Vec::new(alloc);
    let seen = marks.as_mut_slice();
    let stop = walk(formula, log, trail, conflict, from, seen, &mut hints)?;
    let clause = marked_clause(alloc, entries, seen, stop)?;
    let cut = cut_place(entries, seen, from);
    hints.reverse();
    Ok(Lesson {
        clause,
        hints: List::from_vec(hints),
        lit: entries[stop].lit.negated(),
        cut,
    })
}
