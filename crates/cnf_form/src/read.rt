//! Formulas that are read from texts in DIMACS CNF.
ghost use Rattle.std.specs.Prelude.{◌≡◌, ◌≤◌, ◌<◌, ◌+◌, [], Ok, length, IfOk, IfErr, OnOk};
ghost use Rattle.cnf_form.specs.Dimacs.{header_of, lit_of as literal_of, with_literal, with_end, with_word, with_line, finished as formula_at_end, clauses_from, behind_header, formula_of, no_clauses, IsFaultOf};
ghost use Rattle.cnf_form.specs.Limits.{most_vars, most_clauses, most_bytes};
ghost use Rattle.cnf_form.specs.Lines.{lines, words};

use crate::builder::ClauseBuilder;
use crate::dimacs::{DimacsFault, DimacsKind, Header};
use crate::formula::Formula;
use crate::lines::{is_comment, is_skipped, is_word, next_line, next_word};
use crate::lit::Lit;
use crate::number::{Number, parse_natural, parse_number};
use std::alloc::Global;
use std::marker::Model;

/// The most variables that a formula may have.
const MOST_VARS: u32 = 2_000_000;

/// The clauses that have ended, and the literals of the one that hasn't.
#[derive(Drop)]
struct Reading {
    formula: Formula,
    current: ClauseBuilder,
}

impl Model for Reading {
    ghost use Rattle.std.specs.Prelude.{◌≡◌, IsTrue};
    ghost use Rattle.cnf_form.specs.Dimacs.{Partial, partial};
    ghost use Rattle.cnf_form.specs.Lits.{below};

    ghost Value = { Partial };

    ghost view = { λ r. partial r.formula r.current };

    ghost invariant = { λ r. IsTrue (below r.formula.vars r.current) };
}

impl Reading {
    fn new(alloc: Global, vars: u32) -> Reading
        requires { vars ≤ most_vars }
        ensures { result ≡ no_clauses vars }
    {
        Reading {
            formula: Formula::new(alloc, vars),
            current: ClauseBuilder::new(alloc),
        }
    }

    fn vars(&self) -> u32
        ensures { result ≡ self.now.vars }
    {
        self.formula.vars()
    }

    /// Adds a literal to the clause that hasn't ended, where it isn't in it.
    #[tactic(auto, using(crate::proofs::Below::below_with))]
    fn add(&mut self, lit: Lit) -> Result<(), DimacsFault>
        requires { lit.var < self.old.vars }
        ensures ok { OnOk result (self.new ≡ with_literal lit self.old) }
        ensures err { IfErr result (λ fault. fault ≡ DimacsFault.Memory) }
    {
        self.current.add(lit)?;
        Ok(())
    }

    /// Ends the clause.
    fn end_clause(&mut self, alloc: Global) -> Result<(), DimacsFault>
        requires { length self.old.clauses < most_clauses }
        ensures ok { OnOk result (self.new ≡ with_end self.old) }
        ensures err { IfErr result (λ fault. fault ≡ DimacsFault.Memory) }
    {
        let clause = self.current.finish(alloc)?;
        match self.formula.push(clause) {
            Ok(()) => Ok(()),
            Err(_) => Err(DimacsFault::Memory),
        }
    }

    /// Adds what a word of a line says.
    fn read_word(&mut self, alloc: Global, word: &[u8], line: u32) -> Result<(), DimacsFault>
        requires { length self.old.clauses < most_clauses }
        ensures ok { OnOk result (with_word line self.old word.now ≡ Ok self.new) }
        ensures err { IfErr result (IsFaultOf (with_word line self.old word.now)) }
    {
        let Some(number) = parse_number(word) else {
            return Err(bad(line, DimacsKind::BadWord));
        };
        if number.size > self.vars() {
            return Err(bad(line, DimacsKind::Range));
        }
        if number.size == 0 {
            self.end_clause(alloc)
        } else {
            self.add(lit_of(number))
        }
    }

    /// Adds what a line says, whose number is given.
    #[tactic(auto, using(crate::proofs::Counts::with_word_few))]
    fn read_line(&mut self, alloc: Global, line: &[u8], number: u32) -> Result<(), DimacsFault>
        requires { length self.old.clauses + length (words line.now) ≤ most_clauses }
        ensures ok { OnOk result (with_line number self.old line.now ≡ Ok self.new) }
        ensures err { IfErr result (IsFaultOf (with_line number self.old line.now)) }
    {
        if is_comment(line) {
            return Ok(());
        }
        let mut rest = line;
        while let Some((word, later)) = next_word(rest) {
            self.read_word(alloc, word, number)?;
            rest = later;
        }
        Ok(())
    }

    /// The formula at the end of the text, which has that many lines and is to have that many
    /// clauses.
    fn finish(self, count: u32, number: u32) -> Result<Formula, DimacsFault>
        ensures { result ≡ formula_at_end count number self }
    {
        let Reading { formula, current } = self;
        if !current.lits().is_empty() {
            return Err(bad(number, DimacsKind::OpenClause));
        }
        if formula.clauses().len() != count as usize {
            return Err(bad(number, DimacsKind::Count));
        }
        Ok(formula)
    }
}

fn bad(line: u32, kind: DimacsKind) -> DimacsFault
    ensures { result ≡ DimacsFault.Bad line kind }
{
    DimacsFault::Bad { line, kind }
}

/// The literal of a number other than 0: that of the variable one below its size. Constant time.
pub fn lit_of(number: Number) -> Lit
    requires { 0 < number.size }
    ensures { result ≡ literal_of number }
{
    Lit {
        var: number.size - 1,
        positive: !number.negative,
    }
}

/// The header that the words of a line make, if they make one.
fn parse_header(line: &[u8]) -> Option<Header>
    ensures { result ≡ header_of (words line.now) }
{
    let (first, rest) = next_word(line)?;
    let (second, rest) = next_word(rest)?;
    let (third, rest) = next_word(rest)?;
    let (fourth, rest) = next_word(rest)?;
    if next_word(rest).is_some() {
        return None;
    }
    if !is_word(first, b"p") || !is_word(second, b"cnf") {
        return None;
    }
    let vars = parse_natural(third)?;
    let count = parse_natural(fourth)?;
    Some(Header { vars, count })
}

/// The formula of the text behind the header, before which there are so many lines.
#[tactic(auto, using(crate::proofs::Counts::with_line_few, crate::proofs::Counts::few_words))]
fn read_clauses(
    alloc: Global,
    header: Header,
    before: u32,
    text: &[u8],
) -> Result<Formula, DimacsFault>
    requires size { before + length text.now ≤ most_bytes }
    requires few { header.vars ≤ most_vars }
    ensures ok { IfOk result (λ formula.
        clauses_from header.count before (no_clauses header.vars) (lines text.now) ≡ Ok formula) }
    ensures err { IfErr result (IsFaultOf
        (clauses_from header.count before (no_clauses header.vars) (lines text.now))) }
{
    let mut reading = Reading::new(alloc, header.vars);
    let mut number = before;
    let mut rest = text;
    while let Some((line, later)) = next_line(rest) {
        number += 1;
        reading.read_line(alloc, line, number)?;
        rest = later;
    }
    reading.finish(header.count, number)
}

/// The formula of the text behind a line that is to be the header, whose number is given.
fn read_behind(
    alloc: Global,
    line: &[u8],
    number: u32,
    later: &[u8],
) -> Result<Formula, DimacsFault>
    requires size { number + length later.now ≤ most_bytes }
    ensures ok { IfOk result (λ formula.
        behind_header number (header_of (words line.now)) (lines later.now) ≡ Ok formula) }
    ensures err { IfErr result (IsFaultOf
        (behind_header number (header_of (words line.now)) (lines later.now))) }
{
    let Some(header) = parse_header(line) else {
        return Err(bad(number, DimacsKind::BadHeader));
    };
    if header.vars > MOST_VARS {
        return Err(DimacsFault::Vars);
    }
    read_clauses(alloc, header, number, later)
}

/// The formula of a text of at most 268,435,456 bytes in DIMACS CNF, or the first fault of the
/// text, or `Memory`, at any time, for want of it. A literal that a clause has already is dropped.
/// The cost is linear in the bytes and the variables.
pub fn read_dimacs(alloc: Global, bytes: &[u8]) -> Result<Formula, DimacsFault>
    requires { length bytes.now ≤ most_bytes }
    ensures ok { IfOk result (λ formula. formula_of bytes.now ≡ Ok formula) }
    ensures err { IfErr result (IsFaultOf (formula_of bytes.now)) }
{
    let mut number = 0;
    let mut rest = bytes;
    while let Some((line, later)) = next_line(rest) {
        number += 1;
        if !is_skipped(line) {
            return read_behind(alloc, line, number, later);
        }
        rest = later;
    }
    Err(bad(number, DimacsKind::NoHeader))
}
