//! Words of inputs.
ghost use Rattle.std.specs.Prelude.{◌≡◌, ◌≤◌, ◌+◌, ◌-◌, ◌*◌, All, length, IfOk, OnOk};
ghost use Rattle.op_network.specs.declared.limits.TheConstants.{MOST_WIDTH as widest};
ghost use Rattle.op_network.specs.Valid.{IsChoice};
ghost use Rattle.bit_blast.specs.Circuit.{with_entries};
ghost use Rattle.bit_blast.specs.Limits.{most_required};
ghost use Rattle.bit_blast.specs.Made.{Adds, IfFull, IsBelow, Overfills};
ghost use Rattle.unroll_cnf.specs.Made.{AreApart, HasRoom};
ghost use Rattle.unroll_cnf.specs.Sizes.{bits_of as size_of};
ghost use Rattle.unroll_cnf.specs.Unrolled.{input_circuit};
ghost use Rattle.unroll_cnf.specs.Values as spec;

use crate::widths::{bits_of, enumerators};
use bit_blast::{BlastFault, Maker, Word};
use cnf_form::{Clause, Lit};
use cov_base::{List, Memory};
use op_network::{Parts, Ty};
use std::alloc::Global;

/// The literal that is false where the one has this truth.
fn against(truth: bool, lit: Lit) -> Lit
    ensures { result ≡ spec.against truth lit }
{
    if truth { lit.negated() } else { lit }
}

/// The clause that is false exactly where a word is this number.
#[tactic(auto, using(crate::proofs::Exclusions::excluding_step, crate::proofs::Exclusions::excluding_once))]
fn excluding(alloc: Global, word: &Word, number: u32) -> Result<Clause, Memory>
    requires { AreApart word.now }
    ensures { let size = length word.now in
        IfOk result (λ c. c ≡ spec.excluding word.now (spec.digits size number)) }
{
    let mut lits = List::new(alloc);
    let mut rest = number;
    for lit in word.as_slice() {
        lits.add(against(rest % 2 == 1, *lit))?;
        rest /= 2;
    }
    Ok(Clause::new(lits))
}

/// Excludes the numbers of a word from one up to another, which is left out.
#[tactic(auto, using(crate::proofs::Exclusions::none_excluded, crate::proofs::Exclusions::clause_below, crate::proofs::Exclusions::one_excluded, crate::proofs::Exclusions::all_excluded))]
fn exclude(alloc: Global, maker: &mut Maker, word: &Word, from: u32, to: u32) -> Result<(), Memory>
    requires apart { AreApart word.now }
    requires below { IsBelow maker.old.vars word.now }
    requires few { length maker.old.clauses + (to - from) ≤ most_required }
    ensures { let clauses = spec.exclusions word.now (length word.now) from (to - from) in
        OnOk result (maker.new ≡ with_entries maker.old clauses) }
{
    for number in from..to {
        let clause = excluding(alloc, word, number)?;
        if maker.require(clause).is_err() {
            return Err(Memory);
        }
    }
    Ok(())
}

/// The word of an input: free bits, and for a choice those of an enumerator.
#[tactic(auto, using(crate::proofs::Exclusions::made_fresh, crate::proofs::Exclusions::made_choice, crate::proofs::Exclusions::choice_room))]
pub(crate) fn input_word(
    alloc: Global,
    maker: &mut Maker,
    parts: &Parts,
    ty: Ty,
) -> Result<Word, BlastFault>
    requires width { parts.now.width ≤ widest }
    requires choices { All IsChoice parts.now.choices }
    requires room { HasRoom maker.old 1 }
    ensures made { IfOk result (Adds maker.old maker.new (λ n. input_circuit parts.now n ty)) }
    ensures full { IfFull result (Overfills maker.old (λ n. input_circuit parts.now n ty)) }
{
    let bits = bits_of(parts, ty);
    let word = maker.fresh(alloc, bits)?;
    if let Ty::Choice(choice) = ty {
        let names = enumerators(parts, choice) as u32;
        exclude(alloc, maker, &word, names, 1 << bits)?;
    }
    Ok(word)
}
