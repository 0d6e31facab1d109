//! The values that a model gives the inputs.
ghost use Rattle.std.specs.Prelude.{◌≡◌, ◌^◌, ◌<◌, ◌≤◌, ◌++◌, All, IfOk, OnOk, length};
ghost use Rattle.cnf_form.specs.Lits.{truth};
ghost use Rattle.cnf_form.specs.Shape.{Satisfies};
ghost use Rattle.dep_paths.specs.Duties.{IsPlanOf};
ghost use Rattle.op_network.specs.declared.limits.TheConstants.{LEAST_WIDTH, MOST_WIDTH};
ghost use Rattle.bit_blast.specs.Made.{IsBelow};
ghost use Rattle.bit_blast.specs.Numbers.{bits as bits_under, signed as signed_of, unsigned};
ghost use Rattle.unroll_cnf.specs.Laws.{row_of};
ghost use Rattle.unroll_cnf.specs.Made.{AreWords, IsUnrolled, word_at};
ghost use Rattle.unroll_cnf.specs.Sizes.{bits_of};
ghost use Rattle.unroll_cnf.specs.Values.{bits_value};
ghost use Rattle.goal_cnf.specs.Decoded.{Decodes, valuation};
ghost use Rattle.goal_cnf.specs.Made.{CanRead, IsGoal};

use crate::formula::Goal;
use cnf_form::Lit;
use cov_base::{BitRow, List, Memory, Text};
use dep_paths::Plan;
use lus_causality::Ordered;
use op_network::{Parts, Test, Ty, Value, wrapped};
use std::alloc::Global;
use unroll_cnf::Unrolled;

/// Whether a literal is true.
#[tactic(auto, unfolding(cnf_form::specs::Lits::truth))]
fn is_true(bits: &BitRow, lit: Lit) -> bool
    requires { lit.var < length bits.now }
    ensures { result ≡ truth (valuation bits.now) lit }
{
    bits.get(lit.var) == lit.positive
}

/// The number of a word's bits, least first.
fn number(bits: &BitRow, word: &[Lit]) -> u32
    requires below { IsBelow (length bits.now) word.now }
    requires short { length word.now ≤ 32 }
    ensures value { result ≡ unsigned (bits_under (valuation bits.now) word.now) }
    ensures few { result < 2 ^ length word.now }
{
    match word {
        [] => 0,
        [lit, rest @ ..] => u32::from(is_true(bits, *lit)) + 2 * number(bits, rest),
    }
}

/// The word of a width whose bits are those of the number.
#[tactic(auto, using(crate::proofs::Decoding::wrap_is))]
fn signed(number: u32, width: u32) -> i32
    requires narrowest { LEAST_WIDTH ≤ width }
    requires widest { width ≤ MOST_WIDTH }
    requires few { number < 2 ^ width }
    ensures { result ≡ signed_of width number }
{
    wrapped(u128::from(number), width)
}

/// The value of a type that the bits of a word are.
fn value(bits: &BitRow, parts: &Parts, word: &[Lit], ty: Ty) -> Value
    requires narrowest { LEAST_WIDTH ≤ parts.now.width }
    requires widest { parts.now.width ≤ MOST_WIDTH }
    requires below { IsBelow (length bits.now) word.now }
    requires size { length word.now ≡ bits_of parts.now ty }
    ensures { result ≡ bits_value ty (bits_under (valuation bits.now) word.now) }
{
    match ty {
        Ty::Truth => Value::Truth(is_true(bits, word[0])),
        Ty::Word => Value::Word(signed(number(bits, word), parts.width)),
        Ty::Choice(_) => Value::Choice(number(bits, word) as u8),
    }
}

/// Adds the values of the inputs at an instant.
fn add_row(
    values: &mut List<Value>,
    bits: &BitRow,
    un: &Unrolled,
    parts: &Parts,
    t: u32,
) -> Result<(), Memory>
    requires { CanRead parts.now un.now t (length bits.now) }
    ensures { let row = row_of parts.now (valuation bits.now) (word_at un.now.words t) in
        OnOk result (values.new ≡ values.old ++ row) }
{
    for e in parts.inputs.as_slice() {
        let ty = parts.edges.as_slice()[e.0 as usize].ty;
        values.add(value(bits, parts, un.word(*e, t).as_slice(), ty))?;
    }
    Ok(())
}

/// The test with this name that a model of a goal's formula gives. `bits` is the model: it has a
/// bit for each variable of the formula and satisfies it. The goal is the one that `goal` answers
/// for the place `o`, from 0, in the plan's obligations and for `un`, which `unroll` answered for
/// `net`. The test fits, has the model's inputs up to the least instant that is hit, meets all
/// assertions at each of these instants and the obligation at the last, and has at most the `k`
/// instants of `un`. Answers `Memory` for want of it alone. The cost is linear in the instants up
/// to the hit and in the bits of the inputs' words at them.
pub fn decode(
    alloc: Global,
    un: &Unrolled,
    net: &Ordered,
    plan: &Plan,
    o: u32,
    goal: &Goal,
    bits: &BitRow,
    name: Text,
) -> Result<Test, Memory>
    requires unrolled { let k = un.now.instants in
        IsUnrolled net.now.network net.now.sequence k un.now }
    requires words { All (AreWords net.now.network un.now.formula.vars) un.now.words }
    requires plan { IsPlanOf net.now.network plan.now }
    requires goal { let k = un.now.instants in let order = net.now.sequence in
        IsGoal net.now.network order plan.now o k goal.now }
    requires whole { length bits.now ≡ goal.now.formula.vars }
    requires model { Satisfies (valuation bits.now) goal.now.formula }
    ensures name { IfOk result (λ test. test.name ≡ name) }
    ensures test { let k = un.now.instants in let v = valuation bits.now in
        let order = net.now.sequence in
        IfOk result (Decodes net.now.network order plan.now o k v goal.now.hits) }
{
    let parts = net.network().parts();
    // what the network says of its sequence is known once it is read
    let _sequence = net.sequence();
    let mut values = List::new(alloc);
    for t in 0..un.instants() {
        add_row(&mut values, bits, un, parts, t)?;
        if is_true(bits, goal.hits.as_slice()[t as usize]) {
            return Ok(Test {
                name,
                instants: t + 1,
                values,
            });
        }
    }
    unreachable!()
}
