//! The hints of an addition, taken in order.
ghost use Rattle.std.specs.Prelude.{◌≡◌, ◌+◌, ◌↔◌, [], None, IsTrue, OnOk, IfErr};
ghost use Rattle.cnf_form.specs.Marks.{marked};
ghost use Rattle.proof_check.specs.Check.{open_lits, sole as sole_of, hints_fault};
ghost use Rattle.proof_check.specs.Table.{reads, IsFault};

use crate::fault::StepFault;
use crate::step::StepKind;
use crate::table::named;
use cnf_form::{Clause, Lit, Marks};
use std::collections::HashMap;

/// Whether all literals of a clause are marked.
#[tactic(auto, using(crate::proofs::Following::opens))]
fn is_closed(marks: &Marks, lits: &[Lit]) -> bool
    ensures { IsTrue result ↔ (open_lits (marked marks.now) lits.now ≡ []) }
{
    for lit in lits {
        if !marks.is_marked(*lit) {
            return false;
        }
    }
    true
}

/// The one literal of a clause that isn't marked.
#[tactic(auto, using(crate::proofs::Following::opens))]
fn sole(marks: &Marks, lits: &[Lit]) -> Result<Lit, StepKind>
    ensures { result ≡ sole_of (marked marks.now) (open_lits (marked marks.now) lits.now) }
{
    let mut found = None;
    for lit in lits {
        if !marks.is_marked(*lit) {
            if found.is_some() {
                return Err(StepKind::NotUnit);
            }
            found = Some(*lit);
        }
    }
    match found {
        None => Err(StepKind::NotUnit),
        Some(lit) => {
            if marks.is_marked(lit.negated()) {
                Err(StepKind::Satisfied)
            } else {
                Ok(lit)
            }
        }
    }
}

/// Takes the hints in order, where the marked literals are false. The cost is linear in the
/// literals of their clauses.
pub(crate) fn follow(
    table: &HashMap<u64, &Clause>,
    marks: &mut Marks,
    hints: &[i64],
) -> Result<(), StepFault>
    ensures ok { OnOk result (hints_fault (reads table.now) (marked marks.old) hints.now ≡ None) }
    ensures err { IfErr result
        (IsFault (hints_fault (reads table.now) (marked marks.old) hints.now)) }
{
    let count = hints.len();
    for i in 0..count {
        let clause = named(table, hints[i])?;
        if i + 1 == count {
            if is_closed(marks, clause.lits()) {
                return Ok(());
            }
            return Err(StepFault::Kind(StepKind::NotClosed));
        }
        let lit = sole(marks, clause.lits())?;
        marks.mark(lit.negated())?;
    }
    Err(StepFault::Kind(StepKind::NotClosed))
}
