//! Operators over all pairs of words of three bits, in each assignment that satisfies the formula.
ghost use Rattle.std.specs.Prelude.{◌≡◌, ◌<◌, ◌≤◌, length, IfOk};
ghost use Rattle.bit_blast.specs.Limits.{most_required};
ghost use Rattle.bit_blast.specs.Made.{IsBelow};

use crate::{BlastFault, Maker, Word};
use cnf_form::{Clause, Formula, Lit, write_dimacs};
use cov_base::{List, Memory};
use std::alloc::{AllocError, Global};
use std::process::Abort;
use std::test::Fail;

/// A call that answers a word.
#[derive(Clone, Copy, Debug)]
enum WordCall {
    Add,
    Subtract,
    Multiply,
    Negate,
    Choose,
}

/// A call that answers a literal. A gate goes by the first bits of two words.
#[derive(Clone, Copy, Debug)]
enum LitCall {
    Equal,
    Less,
    And,
    Or,
    Xor,
}

fn word_answer(
    maker: &mut Maker,
    alloc: Global,
    call: WordCall,
    a: &Word,
    b: &Word,
    c: Lit,
) -> Result<Word, BlastFault>
    requires size { length a.now ≡ length b.now }
    requires a { IsBelow maker.old.vars a.now }
    requires b { IsBelow maker.old.vars b.now }
    requires c { c.var < maker.old.vars }
{
    match call {
        WordCall::Add => maker.add(alloc, a, b),
        WordCall::Subtract => maker.subtract(alloc, a, b),
        WordCall::Multiply => maker.multiply(alloc, a, b),
        WordCall::Negate => maker.negate(alloc, a),
        WordCall::Choose => maker.ite_word(alloc, c, a, b),
    }
}

fn lit_answer(
    maker: &mut Maker,
    alloc: Global,
    call: LitCall,
    a: &Word,
    b: &Word,
    x: Lit,
    y: Lit,
) -> Result<Lit, BlastFault>
    requires size { length a.now ≡ length b.now }
    requires some { 1 ≤ length a.now }
    requires a { IsBelow maker.old.vars a.now }
    requires b { IsBelow maker.old.vars b.now }
    requires x { x.var < maker.old.vars }
    requires y { y.var < maker.old.vars }
{
    match call {
        LitCall::Equal => maker.equal(alloc, a, b),
        LitCall::Less => maker.less(alloc, a, b),
        LitCall::And => maker.and_gate(alloc, x, y),
        LitCall::Or => maker.or_gate(alloc, x, y),
        LitCall::Xor => maker.xor_gate(alloc, x, y),
    }
}

/// The number of `bits` bits that is `number` modulo 2 to the `bits`.
fn wrapped(number: i64, bits: u32) -> i64 {
    let half = 1i64 << (bits % 32);
    let whole = half.wrapping_mul(2);
    if whole < 2 {
        return 0;
    }
    number
        .wrapping_add(half)
        .rem_euclid(whole)
        .wrapping_sub(half)
}

/// The answer in plain arithmetic, over words whose sign is bit `sign`.
fn plain_word(call: WordCall, a: i64, b: i64, sign: u32) -> i64 {
    match call {
        WordCall::Add => wrapped(a.wrapping_add(b), sign),
        WordCall::Subtract => wrapped(a.wrapping_sub(b), sign),
        WordCall::Multiply => wrapped(a.wrapping_mul(b), sign),
        WordCall::Negate => wrapped(0i64.wrapping_sub(a), sign),
        WordCall::Choose => if a & 1 == 1 { a } else { b },
    }
}

fn plain_lit(call: LitCall, a: i64, b: i64) -> bool {
    match call {
        LitCall::Equal => a == b,
        LitCall::Less => a < b,
        LitCall::And => a & b & 1 == 1,
        LitCall::Or => (a | b) & 1 == 1,
        LitCall::Xor => (a ^ b) & 1 == 1,
    }
}

/// Whether a literal is true in an assignment, whose bit i is the value of variable i.
fn is_true(assignment: u128, lit: Lit) -> bool {
    ((assignment >> (lit.var % 128)) & 1 == 1) == lit.positive
}

/// Whether the last variable of a clause is `var`.
fn ends_at(clause: &Clause, var: u32) -> bool {
    let lits = clause.lits();
    lits.iter().all(|lit| lit.var <= var) && lits.iter().any(|lit| lit.var == var)
}

/// The clauses of which `var` is the last variable.
fn clauses_at(alloc: Global, formula: &Formula, var: u32) -> Result<Vec<&Clause>, AllocError> {
    let mut clauses = Vec::new(alloc);
    for clause in formula.clauses() {
        if ends_at(clause, var) {
            clauses.push(clause)?;
        }
    }
    Ok(clauses)
}

fn satisfies(assignment: u128, clauses: &[&Clause]) -> bool {
    clauses.iter().all(|clause| clause.lits().iter().any(|lit| is_true(assignment, *lit)))
}

/// The assignments of the variables of a formula, at most 128, that satisfy it, where those of the
/// first `known` variables are given by `first`.
fn models(
    alloc: Global,
    formula: &Formula,
    first: u128,
    known: u32,
) -> Result<Vec<u128>, AllocError> {
    let mut models = vec![in alloc; first]?;
    for var in known..formula.vars() {
        let clauses = clauses_at(alloc, formula, var)?;
        let mut longer = Vec::new(alloc);
        for model in models.as_slice() {
            for assignment in [*model, *model | (1 << (var % 128))] {
                if satisfies(assignment, clauses.as_slice()) {
                    longer.push(assignment)?;
                }
            }
        }
        models = longer;
    }
    Ok(models)
}

/// The number of a word in an assignment.
fn number(assignment: u128, word: &Word) -> i64 {
    let mut unsigned = 0i64;
    let mut weight = 1i64;
    for lit in word.as_slice() {
        if is_true(assignment, *lit) {
            unsigned = unsigned.wrapping_add(weight);
        }
        weight = weight.wrapping_mul(2);
    }
    if unsigned.wrapping_mul(2) >= weight {
        unsigned.wrapping_sub(weight)
    } else {
        unsigned
    }
}

/// Two words of so many free bits.
#[tactic(auto, using(crate::proofs::Laws::below_later))]
fn two_words(maker: &mut Maker, alloc: Global, bits: u32) -> Result<(Word, Word), BlastFault>
    ensures first { IfOk result (λ pair. length pair.0 ≡ bits) }
    ensures second { IfOk result (λ pair. length pair.1 ≡ bits) }
    ensures a { IfOk result (λ pair. IsBelow maker.new.vars pair.0) }
    ensures b { IfOk result (λ pair. IsBelow maker.new.vars pair.1) }
{
    let a = maker.fresh(alloc, bits)?;
    let b = maker.fresh(alloc, bits)?;
    Ok((a, b))
}

fn first_bit(rt: &impl Abort, maker: &Maker, word: &Word) -> Lit
    ensures { result.var < maker.now.vars }
{
    let lits = word.as_slice();
    assert!(rt; !lits.is_empty());
    let lit = lits[0];
    assert!(rt; lit.var < maker.formula().vars());
    lit
}

fn check_word(rt: &impl Abort, alloc: Global, call: WordCall) -> Result<(), Fail> {
    let mut maker = Maker::new(alloc)?;
    let (a, b) = two_words(&mut maker, alloc, 3)?;
    let c = first_bit(rt, &maker, &a);
    let result = word_answer(&mut maker, alloc, call, &a, &b, c)?;
    let models = models(alloc, maker.formula(), 0, 0)?;
    assert_eq!(rt; models.len(), 64, "{call:?}");
    for model in models.as_slice() {
        let (x, y) = (number(*model, &a), number(*model, &b));
        assert_eq!(rt;
            number(*model, &result),
            plain_word(call, x, y, 2),
            "{call:?} {x} {y}"
        );
    }
    Ok(())
}

fn check_lit(rt: &impl Abort, alloc: Global, call: LitCall) -> Result<(), Fail> {
    let mut maker = Maker::new(alloc)?;
    let (a, b) = two_words(&mut maker, alloc, 3)?;
    let (x, y) = (first_bit(rt, &maker, &a), first_bit(rt, &maker, &b));
    let result = lit_answer(&mut maker, alloc, call, &a, &b, x, y)?;
    let models = models(alloc, maker.formula(), 0, 0)?;
    assert_eq!(rt; models.len(), 64, "{call:?}");
    for model in models.as_slice() {
        let (x, y) = (number(*model, &a), number(*model, &b));
        assert_eq!(rt;
            is_true(*model, result),
            plain_lit(call, x, y),
            "{call:?} {x} {y}"
        );
    }
    Ok(())
}

#[test]
fn words_are_those_of_plain_arithmetic(rt: HostRuntime) -> Result<(), Fail> {
    check_word(&rt, rt.alloc(), WordCall::Add)?;
    check_word(&rt, rt.alloc(), WordCall::Subtract)?;
    check_word(&rt, rt.alloc(), WordCall::Multiply)?;
    check_word(&rt, rt.alloc(), WordCall::Negate)?;
    check_word(&rt, rt.alloc(), WordCall::Choose)
}

#[test]
fn literals_are_those_of_plain_arithmetic(rt: HostRuntime) -> Result<(), Fail> {
    check_lit(&rt, rt.alloc(), LitCall::Equal)?;
    check_lit(&rt, rt.alloc(), LitCall::Less)?;
    check_lit(&rt, rt.alloc(), LitCall::And)?;
    check_lit(&rt, rt.alloc(), LitCall::Or)?;
    check_lit(&rt, rt.alloc(), LitCall::Xor)
}

/// The answer over two words of four bits, whose bits are those of x and y.
fn of_four_bits(
    rt: &impl Abort,
    alloc: Global,
    call: WordCall,
    x: u128,
    y: u128,
) -> Result<i64, Fail> {
    let mut maker = Maker::new(alloc)?;
    let (a, b) = two_words(&mut maker, alloc, 4)?;
    let c = first_bit(rt, &maker, &a);
    let result = word_answer(&mut maker, alloc, call, &a, &b, c)?;
    let models = models(alloc, maker.formula(), 1 | x << 1 | y << 5, 9)?;
    assert_eq!(rt; models.len(), 1);
    Ok(number(models[0], &result))
}

#[test]
fn words_of_four_bits_wrap(rt: HostRuntime) -> Result<(), Fail> {
    for (call, x, y, want) in [
        (WordCall::Multiply, 0b0111, 0b0111, 1),
        (WordCall::Multiply, 0b1000, 0b1111, -8),
        (WordCall::Add, 0b0111, 0b0001, -8),
        (WordCall::Subtract, 0b1000, 0b0001, 7),
        (WordCall::Negate, 0b1000, 0b0000, -8),
    ] {
        let answer = of_four_bits(&rt, rt.alloc(), call, x, y)?;
        assert_eq!(rt; answer, want, "{call:?} of {x} and {y}");
    }
    Ok(())
}

/// The text of a maker's formula.
fn text(alloc: Global, maker: &Maker) -> Result<List<u8>, Memory> {
    let mut out = List::new(alloc);
    write_dimacs(maker.formula(), &mut out)?;
    Ok(out)
}

#[test]
#[tactic(auto, unfolding(cnf_form::specs::Lits::turned))]
fn gates_have_their_clauses(rt: HostRuntime) -> Result<(), Fail> {
    let mut maker = Maker::new(rt.alloc())?;
    let yes = maker.yes();
    let x = maker.and_gate(rt.alloc(), yes, yes.negated())?;
    let y = maker.xor_gate(rt.alloc(), x, x)?;
    let copy = maker.copy(rt.alloc())?;
    maker.or_gate(rt.alloc(), yes, y.negated())?;
    let gates = "1 0\n-2 1 0\n-2 -1 0\n2 -1 1 0\n-3 2 0\n-3 -2 0\n3 -2 2 0\n3 2 -2 0\n";
    let before = format!(in rt.alloc(); "p cnf 3 8\n{gates}")?;
    let after = format!(in rt.alloc(); "p cnf 4 11\n{gates}4 -1 0\n4 3 0\n-4 1 -3 0\n")?;
    assert!(rt; text(rt.alloc(), &copy)?.as_slice() == before.as_bytes());
    assert!(rt; text(rt.alloc(), &maker)?.as_slice() == after.as_bytes());
    Ok(())
}

/// Asks that a literal is true.
fn require_lit(maker: &mut Maker, alloc: Global, lit: Lit) -> Result<(), Memory>
    requires inside { lit.var < maker.old.vars }
    requires few { length maker.old.clauses < most_required }
{
    let mut lits = List::new(alloc);
    lits.add(lit)?;
    let required = maker.require(Clause::new(lits));
    if required.is_err() {
        return Err(Memory);
    }
    Ok(())
}

#[test]
fn a_required_clause_holds(rt: HostRuntime) -> Result<(), Fail> {
    let mut maker = Maker::new(rt.alloc())?;
    let (a, _b) = two_words(&mut maker, rt.alloc(), 1)?;
    let x = first_bit(&rt, &maker, &a);
    assert!(rt; maker.formula().clauses().len() < 100);
    require_lit(&mut maker, rt.alloc(), x)?;
    let models = models(rt.alloc(), &maker.finish(), 0, 0)?;
    assert!(rt; models.as_slice() == [0b011, 0b111].as_slice());
    Ok(())
}

/// A maker with so many free variables.
fn with_free(alloc: Global, bits: u32) -> Result<Maker, BlastFault> {
    let mut maker = Maker::new(alloc)?;
    maker.fresh(alloc, bits)?;
    Ok(maker)
}

fn gate_fault(alloc: Global, maker: &mut Maker) -> Option<BlastFault> {
    let yes = maker.yes();
    maker.and_gate(alloc, yes, yes).err()
}

fn free_fault(alloc: Global, maker: &mut Maker, bits: u32) -> Option<BlastFault> {
    maker.fresh(alloc, bits).err()
}

#[test]
fn two_million_variables_are_the_most(rt: HostRuntime) -> Result<(), Fail> {
    let mut maker = with_free(rt.alloc(), 1_999_998)?;
    assert_eq!(rt; gate_fault(rt.alloc(), &mut maker), None);
    assert_eq!(rt; maker.formula().vars(), 2_000_000);
    assert_eq!(rt; gate_fault(rt.alloc(), &mut maker), Some(BlastFault::Full));
    assert_eq!(rt;
        free_fault(rt.alloc(), &mut maker, 1),
        Some(BlastFault::Full)
    );
    assert_eq!(rt; free_fault(rt.alloc(), &mut maker, 0), None);
    Ok(())
}
