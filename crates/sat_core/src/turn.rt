//! A turn of the solver at a conflict.
ghost use Rattle.std.specs.Prelude.{◌≡◌, ◌+◌, ◌^◌, ◌<◌, length, IsTrue, OnOk};
ghost use Rattle.cnf_form.specs.Lits.{below};
ghost use Rattle.sat_core.specs.Conflicts.{IsConflict, IsLastDecision};
ghost use Rattle.sat_core.specs.Logs.{HasLearnt};
ghost use Rattle.sat_core.specs.Solving.{entries_of, vars_of, weight, IsSolving};
ghost use Rattle.sat_core.specs.Trail.{clauses_of};

use crate::lesson::{Lesson, study};
use crate::trail::{Entry, Trail};
use cnf_form::{Clause, Lit};
use cov_base::{List, Memory};
use proof_check::ProofStep;
use sat_choose::Chooser;
use std::alloc::Global;

fn tell(chooser: &mut dyn Chooser, lits: &[Lit])
    requires { IsTrue (below (size chooser.old) lits.now) }
    ensures { size chooser.new ≡ size chooser.old }
{
    chooser.learnt(lits);
}

/// Learns a clause from a conflict, takes back the decisions that were made after all its literals
/// but one were false, and sets that one.
pub(crate) fn turn(
    alloc: Global,
    formula: &[Clause],
    log: &mut List<ProofStep>,
    trail: &mut Trail,
    chooser: &mut dyn Chooser,
    conflict: usize,
    from: usize,
) -> Result<(), Memory>
    requires solving { IsSolving formula.now log.old trail.old }
    requires room { length formula.now + length log.old + 2 < 2 ^ 32 }
    requires conflict { IsConflict
        (clauses_of formula.now log.old) (entries_of trail.old) conflict from }
    requires last { IsLastDecision (entries_of trail.old) from }
    requires size { size chooser.old ≡ vars_of trail.old }
    ensures solving { OnOk result (IsSolving formula.now log.new trail.new) }
    ensures learnt { OnOk result (HasLearnt (vars_of trail.old) formula.now log.old log.new) }
    ensures nearer { OnOk result (weight trail.old < weight trail.new) }
    ensures vars { OnOk result (vars_of trail.new ≡ vars_of trail.old) }
    ensures size { size chooser.new ≡ size chooser.old }
{
    let lesson = study(alloc, formula, log.as_slice(), trail, conflict, from)?;
    let Lesson {
        clause,
        hints,
        lit,
        cut,
    } = lesson;
    tell(chooser, clause.lits());
    let at = (formula.len() + log.len()) as u32;
    let id = at + 1;
    log.add(ProofStep::Put { id, clause, hints })?;
    trail.cut(cut);
    let reason = Some(at);
    trail.push(Entry { lit, reason })?;
    Ok(())
}
