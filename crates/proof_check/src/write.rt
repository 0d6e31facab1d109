//! Proofs that are written as texts in LRAT.
ghost use Rattle.std.specs.Prelude.{◌≡◌, ◌++◌, codes, decimal, map, OnOk, OnErr};
ghost use Rattle.std.specs.Fmt.{signed_decimal};
ghost use Rattle.std.specs.Io.{StartsWith};
ghost use Rattle.cnf_form.specs.Written.{lit_text};
ghost use Rattle.proof_check.specs.declared.step.ProofStep.TheVariants.{Put as PutStep, Delete as DeleteStep};
ghost use Rattle.proof_check.specs.Written.{spaced, step_line, proof_text};

use crate::step::{Proof, ProofStep};
use cnf_form::Lit;
use cnf_form::text::push_lit;
use cov_base::{List, Memory, push_decimal};

/// Adds literals, each with a space behind it.
#[tactic(auto, using(crate::proofs::Writes::lit_more, cnf_form::proofs::Writes::no_more, cnf_form::proofs::Starts::starts))]
fn push_lits(out: &mut List<u8>, lits: &[Lit]) -> Result<(), Memory>
    ensures ok { OnOk result (out.new ≡ out.old ++ spaced (map lit_text lits.now)) }
    ensures kept { StartsWith out.new out.old }
{
    for lit in lits {
        push_lit(out, *lit)?;
        out.extend_from_slice(b" ")?;
    }
    Ok(())
}

/// Adds hints, each with a space behind it.
#[tactic(auto, using(crate::proofs::Writes::hint_more, cnf_form::proofs::Writes::no_more, cnf_form::proofs::Starts::starts))]
fn push_hints(out: &mut List<u8>, hints: &[i64]) -> Result<(), Memory>
    ensures ok { OnOk result (out.new ≡ out.old ++ spaced (map signed_decimal hints.now)) }
    ensures kept { StartsWith out.new out.old }
{
    for hint in hints {
        push_decimal(out, *hint)?;
        out.extend_from_slice(b" ")?;
    }
    Ok(())
}

/// Adds ids, each with a space behind it.
#[tactic(auto, using(crate::proofs::Writes::id_more, cnf_form::proofs::Writes::no_more, cnf_form::proofs::Starts::starts))]
fn push_ids(out: &mut List<u8>, ids: &[u32]) -> Result<(), Memory>
    ensures ok { OnOk result (out.new ≡ out.old ++ spaced (map decimal ids.now)) }
    ensures kept { StartsWith out.new out.old }
{
    for id in ids {
        push_decimal(out, i64::from(*id))?;
        out.extend_from_slice(b" ")?;
    }
    Ok(())
}

/// Adds the line of a step that adds a clause.
#[tactic(auto, using(crate::proofs::Writes::addition_pieces, cnf_form::proofs::Starts::starts))]
fn push_addition(out: &mut List<u8>, id: u32, lits: &[Lit], hints: &[i64]) -> Result<(), Memory>
    ensures ok { OnOk result
        (out.new ≡ out.old ++ (step_line (PutStep id lits.now hints.now) ++ codes "\n")) }
    ensures kept { StartsWith out.new out.old }
{
    push_decimal(out, i64::from(id))?;
    out.extend_from_slice(b" ")?;
    push_lits(out, lits)?;
    out.extend_from_slice(b"0 ")?;
    push_hints(out, hints)?;
    out.extend_from_slice(b"0\n")
}

/// Adds the line of a step that takes out clauses, whose id is written as 1.
#[tactic(auto, using(crate::proofs::Writes::deletion_pieces, cnf_form::proofs::Starts::starts))]
fn push_deletion(out: &mut List<u8>, ids: &[u32]) -> Result<(), Memory>
    ensures ok { OnOk result (out.new ≡ out.old ++ (step_line (DeleteStep ids.now) ++ codes "\n")) }
    ensures kept { StartsWith out.new out.old }
{
    out.extend_from_slice(b"1 d ")?;
    push_ids(out, ids)?;
    out.extend_from_slice(b"0\n")
}

/// Adds the line of a step.
fn push_step(out: &mut List<u8>, step: &ProofStep) -> Result<(), Memory>
    ensures ok { OnOk result (out.new ≡ out.old ++ (step_line step.now ++ codes "\n")) }
    ensures kept { StartsWith out.new out.old }
{
    match step {
        ProofStep::Put { id, clause, hints } => {
            push_addition(out, *id, clause.lits(), hints.as_slice())
        }
        ProofStep::Delete { ids } => push_deletion(out, ids.as_slice()),
    }
}

/// Adds the lines of steps, or a front of them.
#[tactic(auto, using(crate::proofs::Writes::step_more, cnf_form::proofs::Writes::no_more, cnf_form::proofs::Starts::starts))]
fn push_steps(out: &mut List<u8>, steps: &[ProofStep]) -> Result<(), Memory>
    ensures ok { OnOk result (out.new ≡ out.old ++ proof_text steps.now) }
    ensures kept { StartsWith out.new out.old }
{
    for step in steps {
        push_step(out, step)?;
    }
    Ok(())
}

/// Adds the text of a proof in LRAT at the end, one step per line. Answers `Memory` for want of it,
/// and `out` is then as before. The cost is linear in the text, over many calls.
pub fn write_lrat(proof: &Proof, out: &mut List<u8>) -> Result<(), Memory>
    ensures ok { OnOk result (out.new ≡ out.old ++ proof_text proof.now) }
    ensures err { OnErr result (out.new ≡ out.old) }
{
    let before = out.len();
    let written = push_steps(out, proof.as_slice());
    if written.is_err() {
        out.cut(before);
    }
    written
}
