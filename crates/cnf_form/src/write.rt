//! Formulas that are written as texts in DIMACS CNF.
ghost use Rattle.std.specs.Prelude.{◌≡◌, ◌++◌, codes, length, map, OnOk, OnErr};
ghost use Rattle.std.specs.Io.{StartsWith};
ghost use Rattle.cnf_form.specs.Lines.{unlines};
ghost use Rattle.cnf_form.specs.Written.{lit_text, clause_line, header_line, formula_text};

use crate::clause::Clause;
use crate::formula::Formula;
use crate::lit::Lit;
use cov_base::{List, Memory, push_decimal};

/// Adds the number of a literal at the end: that of its variable, from 1, after `-` where it is
/// negative. Answers `Memory` for want of it. Constant time over many calls.
#[tactic(auto, using(crate::proofs::Writes::signed_positive, crate::proofs::Writes::signed_negative))]
pub fn push_lit(out: &mut List<u8>, lit: Lit) -> Result<(), Memory>
    ensures ok { OnOk result (out.new ≡ out.old ++ lit_text lit) }
    ensures err { OnErr result (out.new ≡ out.old) }
{
    let number = i64::from(lit.var) + 1;
    if lit.positive {
        push_decimal(out, number)
    } else {
        push_decimal(out, 0 - number)
    }
}

/// Adds the line of a clause.
#[tactic(auto, using(crate::proofs::Writes::lit_more, crate::proofs::Writes::clause_end, crate::proofs::Starts::starts))]
fn push_clause(out: &mut List<u8>, lits: &[Lit]) -> Result<(), Memory>
    ensures ok { OnOk result (out.new ≡ out.old ++ (clause_line lits.now ++ codes "\n")) }
    ensures kept { StartsWith out.new out.old }
{
    for lit in lits {
        push_lit(out, *lit)?;
        out.extend_from_slice(b" ")?;
    }
    out.extend_from_slice(b"0\n")
}

/// Adds the header.
#[tactic(auto, using(crate::proofs::Writes::header_pieces, crate::proofs::Starts::starts))]
fn push_header(out: &mut List<u8>, formula: &Formula) -> Result<(), Memory>
    ensures ok { OnOk result (out.new ≡ out.old ++ (header_line formula.now ++ codes "\n")) }
    ensures kept { StartsWith out.new out.old }
{
    out.extend_from_slice(b"p cnf ")?;
    push_decimal(out, i64::from(formula.vars()))?;
    out.extend_from_slice(b" ")?;
    push_decimal(out, formula.clauses().len() as i64)?;
    out.extend_from_slice(b"\n")
}

/// Adds the lines of clauses.
#[tactic(auto, using(crate::proofs::Writes::clause_more, crate::proofs::Writes::no_more, crate::proofs::Starts::starts))]
fn push_clauses(out: &mut List<u8>, clauses: &[Clause]) -> Result<(), Memory>
    ensures ok { OnOk result (out.new ≡ out.old ++ unlines (map clause_line clauses.now)) }
    ensures kept { StartsWith out.new out.old }
{
    for clause in clauses {
        push_clause(out, clause.lits())?;
    }
    Ok(())
}

/// Adds the text of a formula, or a front of it.
#[tactic(auto, using(crate::proofs::Writes::clauses_first, crate::proofs::Starts::starts))]
fn push_formula(out: &mut List<u8>, formula: &Formula) -> Result<(), Memory>
    ensures ok { OnOk result (out.new ≡ out.old ++ formula_text formula.now) }
    ensures kept { StartsWith out.new out.old }
{
    push_header(out, formula)?;
    push_clauses(out, formula.clauses())
}

/// Adds the text of a formula in DIMACS CNF at the end: the header, and one clause per line.
/// Answers `Memory` for want of it, and `out` is then as before. The cost is linear in the text,
/// over many calls.
pub fn write_dimacs(formula: &Formula, out: &mut List<u8>) -> Result<(), Memory>
    ensures ok { OnOk result (out.new ≡ out.old ++ formula_text formula.now) }
    ensures err { OnErr result (out.new ≡ out.old) }
{
    let before = out.len();
    let written = push_formula(out, formula);
    if written.is_err() {
        out.cut(before);
    }
    written
}
