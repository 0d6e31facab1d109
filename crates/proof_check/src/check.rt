//! The check of a proof, step by step.
ghost use Rattle.std.specs.Prelude.{◌≡◌, ◌<◌, Ok, length, IfErr, OnOk};
ghost use Rattle.cnf_form.specs.Marks.{marked, marks_of};
ghost use Rattle.cnf_form.specs.Shape.{IsUnsatisfiable};
ghost use Rattle.proof_check.specs.Check.{Accepted, first_refusal, is_end as ends, turn};
ghost use Rattle.proof_check.specs.Table.{state, IsFaultOf, IsRefusal};

use crate::fault::StepFault;
use crate::hints::follow;
use crate::step::{Proof, ProofStep, StepKind, VerifyFault};
use crate::table::{start_table, take_out};
use cnf_form::{Clause, Formula, Lit, Marks};
use cov_base::Memory;
use std::alloc::Global;
use std::collections::HashMap;

/// Marks just these literals.
fn mark_all(marks: &mut Marks, lits: &[Lit]) -> Result<(), Memory>
    ensures { OnOk result (marked marks.new ≡ marks_of lits.now) }
{
    marks.clear();
    for lit in lits {
        marks.mark(*lit)?;
    }
    Ok(())
}

/// Takes one step.
fn take_step<'a>(
    table: &mut HashMap<u64, &'a Clause>,
    last: &mut u32,
    marks: &mut Marks,
    step: &'a ProofStep,
) -> Result<(), StepFault>
    ensures ok { OnOk result
        (turn (state table.old last.old) step.now ≡ Ok (state table.new last.new)) }
    ensures err { IfErr result (IsFaultOf (turn (state table.old last.old) step.now)) }
{
    match step {
        ProofStep::Put { id, clause, hints } => {
            if *id <= *last {
                return Err(StepFault::Kind(StepKind::OldId));
            }
            mark_all(marks, clause.lits())?;
            follow(table, marks, hints.as_slice())?;
            match table.insert(u64::from(*id), clause) {
                Ok(_) => {
                    *last = *id;
                    Ok(())
                }
                Err(_) => Err(StepFault::Memory),
            }
        }
        ProofStep::Delete { ids } => {
            take_out(table, ids.as_slice())?;
            Ok(())
        }
    }
}

/// Whether a step adds the empty clause.
fn is_end(step: &ProofStep) -> bool
    ensures { result ≡ ends step.now }
{
    match step {
        ProofStep::Put { clause, .. } => clause.lits().is_empty(),
        ProofStep::Delete { .. } => false,
    }
}

/// Accepts a proof that no assignment satisfies a formula, or names the first step that is refused,
/// or answers `Memory`, at any time, for want of it. Steps behind the first empty clause aren't
/// looked at. There are fewer than 4,294,967,295 steps. The cost is linear in the formula's
/// clauses, the greatest variable of the literals that are set false, the ids and literals of the
/// proof, and the literals of the clauses that its hints name.
pub fn verify(alloc: Global, formula: &Formula, proof: &Proof) -> Result<(), VerifyFault>
    requires { length proof.now < 0xFFFF_FFFF }
    ensures accepted { OnOk result (Accepted formula.now.clauses proof.now) }
    ensures unsatisfied { OnOk result (IsUnsatisfiable formula.now) }
    ensures refused { IfErr result (IsRefusal (first_refusal formula.now.clauses proof.now)) }
{
    let clauses = formula.clauses();
    let mut table = start_table(alloc, clauses)?;
    let mut last = clauses.len() as u32;
    let mut marks = Marks::new(alloc);
    let steps = proof.as_slice();
    for i in 0..steps.len() {
        let number = i as u32 + 1;
        let step = &steps[i];
        match take_step(&mut table, &mut last, &mut marks, step) {
            Ok(()) => {
                if is_end(step) {
                    return Ok(());
                }
            }
            Err(fault) => return Err(fault.at_step(number)),
        }
    }
    Err(VerifyFault::Refused {
        step: steps.len() as u32 + 1,
        kind: StepKind::NoEmpty,
    })
}
