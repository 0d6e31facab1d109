ghost use Rattle.std.specs.Prelude.{◌≡◌, ◌≤◌, ◌∷◌, [], ℕ, Some, length};
ghost use Rattle.cov_base.specs.Files.{NeverFall};
ghost use Rattle.cov_station.specs.Files.{Counted};
ghost use Rattle.cov_station.specs.Formulas.{HoldsFormula, ReadsFormula, header_vars as vars_of_header, vars_said};
ghost use Rattle.cov_station.specs.Steps.{Does, Same};

use crate::files::read_file;
use crate::limits::MOST_FILE_BYTES;
use crate::refusal::Refusal;
use cnf_form::text::{is_skipped, next_line, next_word, parse_natural};
use cnf_form::{DimacsFault, Formula, read_dimacs};
use cov_base::Store;
use std::alloc::Global;

/// The number of variables that a header says: its third word.
fn third_number(line: &[u8]) -> Option<u32>
    ensures { (vars : ℕ) → vars_said (line.now ∷ []) ≡ Some vars → result ≡ Some vars }
{
    let (_, rest) = next_word(line)?;
    let (_, rest) = next_word(rest)?;
    let (third, _) = next_word(rest)?;
    parse_natural(third)
}

/// The number of variables that the header of a text says, where it has one. A formula that is
/// refused for it doesn't tell it.
fn header_vars(text: &[u8]) -> Option<u32>
    ensures { (vars : ℕ) → vars_of_header text.now ≡ Some vars → result ≡ Some vars }
{
    let mut rest = text;
    while let Some((line, later)) = next_line(rest) {
        if !is_skipped(line) {
            return third_number(line);
        }
        rest = later;
    }
    None
}

/// The formula that a text holds.
fn formula_in(alloc: Global, text: &[u8]) -> Result<Formula, Refusal>
    requires { length text.now ≤ MOST_FILE_BYTES }
    ensures { Does (HoldsFormula text.now) Same result }
{
    match read_dimacs(alloc, text) {
        Ok(formula) => Ok(formula),
        Err(DimacsFault::Bad { line, kind }) => Err(Refusal::Formula(kind, line)),
        Err(DimacsFault::Vars) => match header_vars(text) {
            Some(vars) => Err(Refusal::ManyVariables(vars)),
            None => unreachable!(),
        },
        Err(DimacsFault::Memory) => Err(Refusal::Memory),
    }
}

/// Reads the formula that a file holds.
pub(crate) fn read_formula<S: Store>(
    alloc: Global,
    store: &mut S,
    name: &str,
) -> Result<Formula, Refusal>
    ensures answer { Does (ReadsFormula (S.files store.old) name.now) Same result }
    ensures counts { Counted result (S.counts store.old) (S.counts store.new) }
    ensures never_fall { NeverFall (S.counts store.old) (S.counts store.new) }
    ensures files { S.files store.new ≡ S.files store.old }
{
    let text = read_file(alloc, store, name, MOST_FILE_BYTES)?;
    formula_in(alloc, text.as_slice())
}
