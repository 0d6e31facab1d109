ghost use Rattle.std.specs.Prelude.{◌≡◌, IfOk};
ghost use Rattle.cov_base.specs.Files.{NeverFall};
ghost use Rattle.cov_station.specs.Chains.{Answers};
ghost use Rattle.cov_station.specs.Commands.{verify};
ghost use Rattle.cov_station.specs.Files.{Counted};
ghost use Rattle.cov_station.specs.Proofs.{acceptance as accepted_line};
ghost use Rattle.cov_station.specs.Steps.{Does, Same};

use crate::formula::read_formula;
use crate::proof::{check_proof, read_proof};
use crate::refusal::Refusal;
use cov_base::{List, Memory, Store};
use std::alloc::Global;

/// What is printed of an accepted proof.
fn acceptance(alloc: Global) -> Result<List<u8>, Memory>
    ensures { IfOk result (λ text. text ≡ accepted_line) }
{
    let mut text = List::new(alloc);
    text.extend_from_slice(b"accepted\n")?;
    Ok(text)
}

/// What `verify` prints where the proof shows that no assignment satisfies the formula.
pub(crate) fn verify_command<S: Store>(
    alloc: Global,
    store: &mut S,
    cnf: &str,
    proof: &str,
) -> Result<List<u8>, Refusal>
    ensures answer { Does (Answers (verify (S.files store.old) cnf.now proof.now)) Same result }
    ensures counts { Counted result (S.counts store.old) (S.counts store.new) }
    ensures never_fall { NeverFall (S.counts store.old) (S.counts store.new) }
    ensures files { S.files store.new ≡ S.files store.old }
{
    let formula = read_formula(alloc, store, cnf)?;
    let steps = read_proof(alloc, store, proof)?;
    check_proof(alloc, &formula, &steps)?;
    Ok(acceptance(alloc)?)
}
