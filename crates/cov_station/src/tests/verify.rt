//! What `verify` prints, and what it refuses.

use super::{Files, store_with, words_of};
use crate::{Status, station};
use cov_base::{List, MemSink};
use std::process::Abort;
use std::test::Fail;

/// All four clauses over two variables.
const CNF: &[u8] = b"p cnf 2 4\n1 2 0\n1 -2 0\n-1 2 0\n-1 -2 0\n";

const PROOF: &[u8] = b"5 1 0 1 2 0\n6 0 5 3 4 0\n";

const ACCEPTED: &[u8] = b"accepted\n";

/// `verify` over these files, with these calls of the store failing, ends so.
fn verify_failing<R: Abort + AllocGlobal>(
    rt: &R,
    files: Files,
    calls: &[u32],
    status: Status,
    text: &[u8],
) -> Result<(), Fail> {
    let alloc = rt.alloc();
    let words = words_of(alloc, ["verify", "q.cnf", "q.lrat"].as_slice())?;
    let failing = calls.to_vec(alloc)?;
    let mut store = store_with(alloc, ("q.cnf", files.0), ("q.lrat", files.1), failing)?;
    let mut sink = MemSink::new(alloc, 4096, List::new(alloc))?;
    assert_eq!(rt;
        station(alloc, words.as_slice(), &mut store, &mut sink),
        status
    );
    assert_eq!(rt; sink.written(), text);
    Ok(())
}

fn verify<R: Abort + AllocGlobal>(
    rt: &R,
    cnf: &[u8],
    proof: &[u8],
    status: Status,
    text: &[u8],
) -> Result<(), Fail> {
    verify_failing(rt, (Some(cnf), Some(proof)), &[], status, text)
}

#[test]
fn a_proof_and_spoiled_copies(rt: HostRuntime) -> Result<(), Fail> {
    verify(&rt, CNF, PROOF, Status::Done, ACCEPTED)?;
    let cut = b"5 1 0 1 2 0\n6 0 5 3\n";
    let line = b"lustrocov: proof line 2: no zero\n";
    verify(&rt, CNF, cut, Status::Unreadable, line)?;
    let first = b"5 1 0 1 2 0\n";
    let line = b"lustrocov: proof refused at step 2: no empty clause\n";
    verify(&rt, CNF, first, Status::Refused, line)?;
    let turned = b"5 1 0 1 2 0\n6 0 3 5 4 0\n";
    let line = b"lustrocov: proof refused at step 2: not unit\n";
    verify(&rt, CNF, turned, Status::Refused, line)
}

/// The first line of a formula's text that is at fault, or its last line, before the proof is
/// looked for.
fn cnf_is<R: Abort + AllocGlobal>(rt: &R, cnf: &[u8], line: &[u8]) -> Result<(), Fail> {
    verify_failing(rt, (Some(cnf), None), &[], Status::Unreadable, line)
}

#[test]
fn lines_of_a_formula(rt: HostRuntime) -> Result<(), Fail> {
    cnf_is(&rt, b"p cnf 2\n", b"lustrocov: cnf line 1: bad header\n")?;
    let word = b"c\np cnf 1 1\nx 0\n";
    cnf_is(&rt, word, b"lustrocov: cnf line 3: bad word\n")?;
    cnf_is(&rt, b"p cnf 1 1\n2 0\n", b"lustrocov: cnf line 2: range\n")?;
    cnf_is(&rt, b"c\n\n", b"lustrocov: cnf line 2: no header\n")?;
    let open = b"p cnf 1 1\n1\n";
    cnf_is(&rt, open, b"lustrocov: cnf line 2: open clause\n")?;
    cnf_is(&rt, b"p cnf 1 2\n1 0\n", b"lustrocov: cnf line 2: count\n")
}

/// A formula is refused for its variables, before the proof is looked for.
fn has_many_variables<R: Abort + AllocGlobal>(rt: &R, cnf: &[u8], line: &[u8]) -> Result<(), Fail> {
    verify_failing(rt, (Some(cnf), None), &[], Status::Limit, line)
}

#[test]
fn variables_of_a_formula(rt: HostRuntime) -> Result<(), Fail> {
    let more = b"lustrocov: limit: variables 2000001 > 2000000\n";
    has_many_variables(&rt, b"p cnf 2000001 0", more)?;
    has_many_variables(&rt, b"c\n\n p  cnf 02000001 1\n5 0\n", more)?;
    let most = b"lustrocov: limit: variables 4294967295 > 2000000\n";
    has_many_variables(&rt, b"p cnf 4294967295 0\nx\n", most)?;
    let line = b"lustrocov: proof refused at step 1: no empty clause\n";
    verify(&rt, b"p cnf 2000000 0\n", b"", Status::Refused, line)
}

/// A proof's text is refused.
fn proof_is<R: Abort + AllocGlobal>(rt: &R, proof: &[u8], line: &[u8]) -> Result<(), Fail> {
    verify(rt, CNF, proof, Status::Unreadable, line)
}

/// A step of a proof is refused.
fn step_is<R: Abort + AllocGlobal>(rt: &R, proof: &[u8], line: &[u8]) -> Result<(), Fail> {
    verify(rt, CNF, proof, Status::Refused, line)
}

#[test]
fn lines_and_steps_of_a_proof(rt: HostRuntime) -> Result<(), Fail> {
    let word = b"c\n5 x 0 1 2 0\n";
    proof_is(&rt, word, b"lustrocov: proof line 2: bad word\n")?;
    let more = b"5 1 0 1 2 0 7\n";
    proof_is(&rt, more, b"lustrocov: proof line 1: extra word\n")?;
    let old = b"lustrocov: proof refused at step 1: old id\n";
    step_is(&rt, b"4 1 0 1 2 0\n", old)?;
    let unknown = b"lustrocov: proof refused at step 1: unknown id\n";
    step_is(&rt, b"5 1 0 9 0\n", unknown)?;
    let negative = b"lustrocov: proof refused at step 1: rat hint\n";
    step_is(&rt, b"5 1 0 -1 0\n", negative)?;
    let satisfied = b"lustrocov: proof refused at step 1: satisfied\n";
    step_is(&rt, b"5 1 0 1 1 2 0\n", satisfied)?;
    let open = b"lustrocov: proof refused at step 1: not closed\n";
    step_is(&rt, b"5 1 0 1 0\n", open)
}

#[test]
fn files_of_a_formula_and_a_proof(rt: HostRuntime) -> Result<(), Fail> {
    let no_formula = b"lustrocov: no file q.cnf\n";
    verify_failing(&rt, (None, None), &[], Status::Missing, no_formula)?;
    let no_proof = b"lustrocov: no file q.lrat\n";
    verify_failing(&rt, (Some(CNF), None), &[], Status::Missing, no_proof)?;
    let both = (Some(CNF), Some(PROOF));
    let formula = b"lustrocov: cannot read q.cnf\n";
    verify_failing(&rt, both, &[0], Status::ReadFault, formula)?;
    let proof = b"lustrocov: cannot read q.lrat\n";
    verify_failing(&rt, both, &[1], Status::ReadFault, proof)?;
    verify_failing(&rt, both, &[2], Status::Done, ACCEPTED)
}
