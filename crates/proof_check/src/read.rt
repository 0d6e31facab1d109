//! Proofs that are read from texts in LRAT.
ghost use Rattle.std.specs.Prelude.{◌≡◌, ◌≤◌, ◌<◌, ◌+◌, ◌++◌, ◌∷◌, [], Ok, Some, length, IfOk, IfErr, OnOk, OnErr, false};
ghost use Rattle.cnf_form.specs.Limits.{most_bytes};
ghost use Rattle.cnf_form.specs.Lines.{is_nil, lines, words};
ghost use Rattle.cnf_form.specs.Lits.{with_lit};
ghost use Rattle.proof_check.specs.Lrat.{id_of, at_end, listed, as_lit as lit_item, as_hint as hint_item, as_id as id_item, addition, deletion, behind_id, step_of, proof_of, IsFaultOf, Lists};

use crate::lrat::{LratFault, LratKind};
use crate::step::{Proof, ProofStep};
use cnf_form::text::{
    Number, is_skipped, is_word, lit_of, next_line, next_word, parse_natural, parse_number,
};
use cnf_form::{Clause, ClauseBuilder, Lit};
use cov_base::List;
use std::alloc::Global;

fn bad(line: u32, kind: LratKind) -> LratFault
    ensures { result ≡ LratFault.Bad line kind }
{
    LratFault::Bad { line, kind }
}

/// The most variables that a formula may have.
const MOST_VARS: u32 = 2_000_000;

/// The id that a word names: 1 to 4,294,967,295.
fn parse_id(word: &[u8]) -> Option<u32>
    ensures { result ≡ id_of word.now }
{
    let id = parse_natural(word)?;
    if id == 0 { None } else { Some(id) }
}

/// The literal of a number other than 0, if it is of size at most 2,000,000.
fn as_lit(number: Number) -> Option<Lit>
    requires { 0 < number.size }
    ensures { result ≡ lit_item number }
{
    if number.size > MOST_VARS {
        None
    } else {
        Some(lit_of(number))
    }
}

/// The hint of a number other than 0.
fn as_hint(number: Number) -> i64
    ensures { Some result ≡ hint_item number }
{
    let size = i64::from(number.size);
    if number.negative { 0 - size } else { size }
}

/// The id of a number other than 0, if it isn't negative.
fn as_id(number: Number) -> Option<u32>
    ensures { result ≡ id_item number }
{
    if number.negative {
        None
    } else {
        Some(number.size)
    }
}

/// The literals up to the first 0, and what stands behind it. The builder is empty before and
/// behind.
fn read_lits<'t>(
    alloc: Global,
    text: &'t [u8],
    line: u32,
    builder: &mut ClauseBuilder,
) -> Result<(Clause, &'t [u8]), LratFault>
    requires { builder.old ≡ [] }
    ensures ok { IfOk result
        (λ f. Lists (listed lit_item with_lit line [] (words text.now)) f.0 f.1.now) }
    ensures empty { OnOk result (builder.new ≡ []) }
    ensures err { IfErr result (IsFaultOf (listed lit_item with_lit line [] (words text.now))) }
{
    let mut rest = text;
    while let Some((word, later)) = next_word(rest) {
        let Some(number) = parse_number(word) else {
            return Err(bad(line, LratKind::BadWord));
        };
        if number.size == 0 {
            return Ok((builder.finish(alloc)?, later));
        }
        let Some(lit) = as_lit(number) else {
            return Err(bad(line, LratKind::BadWord));
        };
        builder.add(lit)?;
        rest = later;
    }
    Err(bad(line, LratKind::NoZero))
}

/// The hints up to the first 0, and what stands behind it.
fn read_hints(alloc: Global, text: &[u8], line: u32) -> Result<(List<i64>, &[u8]), LratFault>
    ensures ok { IfOk result
        (λ f. Lists (listed hint_item at_end line [] (words text.now)) f.0 f.1.now) }
    ensures err { IfErr result (IsFaultOf (listed hint_item at_end line [] (words text.now))) }
{
    let mut hints = List::new(alloc);
    let mut rest = text;
    while let Some((word, later)) = next_word(rest) {
        let Some(number) = parse_number(word) else {
            return Err(bad(line, LratKind::BadWord));
        };
        if number.size == 0 {
            return Ok((hints, later));
        }
        hints.add(as_hint(number))?;
        rest = later;
    }
    Err(bad(line, LratKind::NoZero))
}

/// The ids up to the first 0, and what stands behind it.
fn read_ids(alloc: Global, text: &[u8], line: u32) -> Result<(List<u32>, &[u8]), LratFault>
    ensures ok { IfOk result
        (λ f. Lists (listed id_item at_end line [] (words text.now)) f.0 f.1.now) }
    ensures err { IfErr result (IsFaultOf (listed id_item at_end line [] (words text.now))) }
{
    let mut ids = List::new(alloc);
    let mut rest = text;
    while let Some((word, later)) = next_word(rest) {
        let Some(number) = parse_number(word) else {
            return Err(bad(line, LratKind::BadWord));
        };
        if number.size == 0 {
            return Ok((ids, later));
        }
        let Some(id) = as_id(number) else {
            return Err(bad(line, LratKind::BadWord));
        };
        ids.add(id)?;
        rest = later;
    }
    Err(bad(line, LratKind::NoZero))
}

/// Refuses words behind the last 0 of a line.
fn end_line(text: &[u8], line: u32) -> Result<(), LratFault>
    ensures ok { OnOk result (words text.now ≡ []) }
    ensures some { OnErr result (is_nil (words text.now) ≡ false) }
    ensures err { IfErr result (λ fault. fault ≡ LratFault.Bad line LratKind.Extra) }
{
    match next_word(text) {
        Some(_) => Err(bad(line, LratKind::Extra)),
        None => Ok(()),
    }
}

/// The step that adds a clause, of what stands behind its id.
fn read_addition(
    alloc: Global,
    text: &[u8],
    line: u32,
    id: u32,
    builder: &mut ClauseBuilder,
) -> Result<ProofStep, LratFault>
    requires { builder.old ≡ [] }
    ensures ok { IfOk result (λ step. addition line id (words text.now) ≡ Ok step) }
    ensures empty { OnOk result (builder.new ≡ []) }
    ensures err { IfErr result (IsFaultOf (addition line id (words text.now))) }
{
    let (clause, rest) = read_lits(alloc, text, line, builder)?;
    let (hints, rest) = read_hints(alloc, rest, line)?;
    end_line(rest, line)?;
    Ok(ProofStep::Put { id, clause, hints })
}

/// The step that takes out clauses, of what stands behind `d`.
fn read_deletion(alloc: Global, text: &[u8], line: u32) -> Result<ProofStep, LratFault>
    ensures ok { IfOk result (λ step. deletion line (words text.now) ≡ Ok step) }
    ensures err { IfErr result (IsFaultOf (deletion line (words text.now))) }
{
    let (ids, rest) = read_ids(alloc, text, line)?;
    end_line(rest, line)?;
    Ok(ProofStep::Delete { ids })
}

/// The step of what stands behind its id.
fn read_behind(
    alloc: Global,
    text: &[u8],
    line: u32,
    id: u32,
    builder: &mut ClauseBuilder,
) -> Result<ProofStep, LratFault>
    requires { builder.old ≡ [] }
    ensures ok { IfOk result (λ step. behind_id line id (words text.now) ≡ Ok step) }
    ensures empty { OnOk result (builder.new ≡ []) }
    ensures err { IfErr result (IsFaultOf (behind_id line id (words text.now))) }
{
    if let Some((word, later)) = next_word(text) {
        if is_word(word, b"d") {
            return read_deletion(alloc, later, line);
        }
    }
    read_addition(alloc, text, line, id, builder)
}

/// The step of a line that has a word.
fn read_step(
    alloc: Global,
    text: &[u8],
    line: u32,
    builder: &mut ClauseBuilder,
) -> Result<ProofStep, LratFault>
    requires { builder.old ≡ [] }
    ensures ok { IfOk result (λ step. step_of line (words text.now) ≡ Ok step) }
    ensures empty { OnOk result (builder.new ≡ []) }
    ensures err { IfErr result (IsFaultOf (step_of line (words text.now))) }
{
    let Some((word, rest)) = next_word(text) else {
        return Err(bad(line, LratKind::NoZero));
    };
    let Some(id) = parse_id(word) else {
        return Err(bad(line, LratKind::BadWord));
    };
    read_behind(alloc, rest, line, id, builder)
}

/// The proof of a text of at most 268,435,456 bytes in LRAT, or the first fault of the text, or
/// `Memory`, at any time, for want of it. A literal that a clause has already is dropped. The cost
/// is linear in the bytes and the variables.
pub fn read_lrat(alloc: Global, bytes: &[u8]) -> Result<Proof, LratFault>
    requires { length bytes.now ≤ most_bytes }
    ensures ok { IfOk result (λ steps. proof_of bytes.now ≡ Ok steps) }
    ensures err { IfErr result (IsFaultOf (proof_of bytes.now)) }
{
    let mut steps = List::new(alloc);
    let mut builder = ClauseBuilder::new(alloc);
    let mut number = 0;
    let mut rest = bytes;
    while let Some((line, later)) = next_line(rest) {
        number += 1;
        rest = later;
        if is_skipped(line) {
            continue;
        }
        let step = read_step(alloc, line, number, &mut builder)?;
        steps.add(step)?;
    }
    Ok(steps)
}
