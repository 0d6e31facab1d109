ghost use Rattle.std.specs.Prelude.{◌≡◌, ◌≤◌, length, IfOk};
ghost use Rattle.cov_base.specs.Files.{NeverFall};
ghost use Rattle.cov_station.specs.Files.{Counted};
ghost use Rattle.cov_station.specs.Proofs.{AcceptsProof, HoldsProof, ReadsProof};
ghost use Rattle.cov_station.specs.Steps.{Does, Same};

use crate::files::read_file;
use crate::limits::MOST_FILE_BYTES;
use crate::refusal::Refusal;
use cnf_form::Formula;
use cov_base::Store;
use proof_check::{LratFault, Proof, VerifyFault, read_lrat, verify};
use std::alloc::Global;

/// The proof that a text holds. It has at most as many steps as the text has bytes.
fn proof_in(alloc: Global, text: &[u8]) -> Result<Proof, Refusal>
    requires { length text.now ≤ MOST_FILE_BYTES }
    ensures answer { Does (HoldsProof text.now) Same result }
    ensures few { IfOk result (λ steps. length steps ≤ MOST_FILE_BYTES) }
{
    match read_lrat(alloc, text) {
        Ok(steps) => Ok(steps),
        Err(LratFault::Bad { line, kind }) => Err(Refusal::Proof(kind, line)),
        Err(LratFault::Memory) => Err(Refusal::Memory),
    }
}

/// Reads the proof that a file holds.
pub(crate) fn read_proof<S: Store>(
    alloc: Global,
    store: &mut S,
    name: &str,
) -> Result<Proof, Refusal>
    ensures answer { Does (ReadsProof (S.files store.old) name.now) Same result }
    ensures few { IfOk result (λ steps. length steps ≤ MOST_FILE_BYTES) }
    ensures counts { Counted result (S.counts store.old) (S.counts store.new) }
    ensures never_fall { NeverFall (S.counts store.old) (S.counts store.new) }
    ensures files { S.files store.new ≡ S.files store.old }
{
    let text = read_file(alloc, store, name, MOST_FILE_BYTES)?;
    proof_in(alloc, text.as_slice())
}

/// Checks a proof that no assignment satisfies a formula.
pub(crate) fn check_proof(alloc: Global, formula: &Formula, steps: &Proof) -> Result<(), Refusal>
    requires { length steps.now ≤ MOST_FILE_BYTES }
    ensures { Does (AcceptsProof formula.now steps.now) Same result }
{
    match verify(alloc, formula, steps) {
        Ok(()) => Ok(()),
        Err(VerifyFault::Refused { step, kind }) => Err(Refusal::RefusedStep(kind, step)),
        Err(VerifyFault::Memory) => Err(Refusal::Memory),
    }
}
