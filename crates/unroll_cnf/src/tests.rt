//! Small networks unrolled, in each assignment that satisfies the formula.
ghost use Rattle.std.specs.Prelude.{◌≡◌, length};

use crate::{UnrollFault, Unrolled, size, unroll};
use bit_blast::Word;
use cnf_form::{Clause, Formula, Lit, write_dimacs};
use cov_base::{List, Text};
use lus_causality::{Ordered, order};
use op_network::{Choice, Edge, EdgeId, Network, Op, Parts, Ty, Value};
use std::alloc::{AllocError, Global};
use std::process::Abort;
use std::test::Fail;

const A: EdgeId = EdgeId(0);

const B: EdgeId = EdgeId(1);

const C: EdgeId = EdgeId(2);

const D: EdgeId = EdgeId(3);

const E: EdgeId = EdgeId(4);

const F: EdgeId = EdgeId(5);

const G: EdgeId = EdgeId(6);

const H: EdgeId = EdgeId(7);

const I: EdgeId = EdgeId(8);

const J: EdgeId = EdgeId(9);

// ---- networks

/// Parts without edges, with words of this width and one choice of so many enumerators.
fn no_parts(alloc: Global, width: u32, names: usize) -> Result<Parts, Fail> {
    let mut enumerators = List::new(alloc);
    for i in 0..names {
        let name = format!(in alloc; "n{i}")?;
        enumerators.add(Text::from_bytes(alloc, name.as_bytes())?)?;
    }
    let mut choices = List::new(alloc);
    choices.add(Choice {
        name: Text::from_bytes(alloc, b"choice")?,
        names: enumerators,
    })?;
    Ok(Parts {
        width,
        choices,
        edges: List::new(alloc),
        inputs: List::new(alloc),
        outputs: List::new(alloc),
        asserts: List::new(alloc),
    })
}

/// Adds an edge with a name of its own.
fn add(alloc: Global, parts: &mut Parts, op: Op, ty: Ty) -> Result<(), Fail> {
    let place = parts.edges.len();
    let name = format!(in alloc; "v{place}")?;
    parts.edges.push(Edge {
        op,
        ty,
        name: Text::from_bytes(alloc, name.as_bytes())?,
        named: true,
        asserted: false,
    })?;
    if let (Op::Input(_), Ok(place)) = (op, u32::try_from(place)) {
        parts.inputs.push(EdgeId(place))?;
    }
    Ok(())
}

/// The network of these operators, with the order of its edges.
fn network(
    rt: &impl Abort,
    alloc: Global,
    width: u32,
    names: usize,
    edges: &[(Op, Ty)],
) -> Result<Ordered, Fail> {
    let mut parts = no_parts(alloc, width, names)?;
    for (op, ty) in edges {
        add(alloc, &mut parts, *op, *ty)?;
    }
    assert!(rt; parts.valid());
    Ok(order(alloc, Network::build(parts))?)
}

// ---- assignments

/// Whether a literal is true in an assignment, whose bit i is the value of variable i.
fn is_true(assignment: u128, lit: Lit) -> bool {
    ((assignment >> (lit.var % 128)) & 1 == 1) == lit.positive
}

/// Whether the last variable of a clause is `var`.
fn ends_at(clause: &Clause, var: u32) -> bool {
    let lits = clause.lits();
    lits.iter().all(|lit| lit.var <= var) && lits.iter().any(|lit| lit.var == var)
}

/// The clauses of which `var` is the last variable.
fn clauses_at(alloc: Global, formula: &Formula, var: u32) -> Result<Vec<&Clause>, AllocError> {
    let mut clauses = Vec::new(alloc);
    for clause in formula.clauses() {
        if ends_at(clause, var) {
            clauses.push(clause)?;
        }
    }
    Ok(clauses)
}

fn satisfies(assignment: u128, clauses: &[&Clause]) -> bool {
    clauses.iter().all(|clause| clause.lits().iter().any(|lit| is_true(assignment, *lit)))
}

/// The assignments that satisfy a formula of at most 128 variables.
fn models(alloc: Global, formula: &Formula) -> Result<Vec<u128>, AllocError> {
    let mut models = vec![in alloc; 0]?;
    for var in 0..formula.vars() {
        let clauses = clauses_at(alloc, formula, var)?;
        let mut longer = Vec::new(alloc);
        for model in models.as_slice() {
            for assignment in [*model, *model | (1 << (var % 128))] {
                if satisfies(assignment, clauses.as_slice()) {
                    longer.push(assignment)?;
                }
            }
        }
        models = longer;
    }
    Ok(models)
}

/// The number of a word's bits in an assignment, without a sign.
fn unsigned(assignment: u128, word: &Word) -> i64 {
    let mut number = 0i64;
    let mut weight = 1i64;
    for lit in word.as_slice() {
        if is_true(assignment, *lit) {
            number = number.wrapping_add(weight);
        }
        weight = weight.wrapping_mul(2);
    }
    number
}

/// The number of an edge's bits at an instant.
fn bits(rt: &impl Abort, net: &Ordered, unrolled: &Unrolled, model: u128, e: EdgeId, t: u32) -> i64
    requires { unrolled.now.edges ≡ length net.now.network.edges }
{
    assert!(rt; (e.0 as usize) < net.network().parts().edges.len());
    assert!(rt; t < unrolled.instants());
    unsigned(model, unrolled.word(e, t))
}

/// A number of two bits, with its sign.
fn signed(bits: i64) -> i64 {
    if bits >= 2 {
        bits.wrapping_sub(4)
    } else {
        bits
    }
}

// ---- operators

/// Words of two bits and truths, and each operator on them.
const OPERATORS: [(Op, Ty); 21] = [
    (Op::Input(0), Ty::Word),
    (Op::Input(1), Ty::Word),
    (Op::Input(2), Ty::Truth),
    (Op::Input(3), Ty::Truth),
    (Op::Id(A), Ty::Word),
    (Op::Neg(A), Ty::Word),
    (Op::Add(A, B), Ty::Word),
    (Op::Sub(A, B), Ty::Word),
    (Op::Mul(A, B), Ty::Word),
    (Op::Ite(C, A, B), Ty::Word),
    (Op::Not(C), Ty::Truth),
    (Op::And(C, D), Ty::Truth),
    (Op::Or(C, D), Ty::Truth),
    (Op::Xor(C, D), Ty::Truth),
    (Op::Imp(C, D), Ty::Truth),
    (Op::Eq(A, B), Ty::Truth),
    (Op::Ne(A, B), Ty::Truth),
    (Op::Lt(A, B), Ty::Truth),
    (Op::Le(A, B), Ty::Truth),
    (Op::Gt(A, B), Ty::Truth),
    (Op::Ge(A, B), Ty::Truth),
];

/// The answers of the operators in plain arithmetic, words modulo 4.
fn plain(a: i64, b: i64, c: bool, d: bool) -> [i64; 21] {
    [
        a & 3,
        b & 3,
        i64::from(c),
        i64::from(d),
        a & 3,
        0i64.wrapping_sub(a) & 3,
        a.wrapping_add(b) & 3,
        a.wrapping_sub(b) & 3,
        a.wrapping_mul(b) & 3,
        (if c { a } else { b }) & 3,
        i64::from(!c),
        i64::from(c && d),
        i64::from(c || d),
        i64::from(c != d),
        i64::from(!c || d),
        i64::from(a == b),
        i64::from(a != b),
        i64::from(a < b),
        i64::from(a <= b),
        i64::from(a > b),
        i64::from(a >= b),
    ]
}

/// Compares the words of an assignment with the answers over those of the inputs.
fn check_operators(rt: &impl Abort, net: &Ordered, unrolled: &Unrolled, model: u128)
    requires { unrolled.now.edges ≡ length net.now.network.edges }
{
    let a = signed(bits(rt, net, unrolled, model, A, 0));
    let b = signed(bits(rt, net, unrolled, model, B, 0));
    let c = bits(rt, net, unrolled, model, C, 0) == 1;
    let d = bits(rt, net, unrolled, model, D, 0) == 1;
    let plain = plain(a, b, c, d);
    for e in 0..21 {
        let found = bits(rt, net, unrolled, model, EdgeId(e as u32), 0);
        assert_eq!(rt; found, plain[e], "edge {e} of {a} {b} {c} {d}");
    }
}

#[test]
fn operators_are_those_of_plain_arithmetic(rt: HostRuntime) -> Result<(), Fail> {
    let net = network(&rt, rt.alloc(), 2, 1, &OPERATORS)?;
    let unrolled = unroll(rt.alloc(), &net, 1)?;
    assert!(rt; unrolled.maker().formula().vars() <= 128);
    let models = models(rt.alloc(), unrolled.maker().formula())?;
    assert_eq!(rt; models.len(), 64);
    for model in models.as_slice() {
        check_operators(&rt, &net, &unrolled, *model);
    }
    Ok(())
}

// ---- streams

/// `same = (c = pre c)` of a choice, and a counter `n = 0 -> if x then pre n + 1 else pre n`.
const COUNTER: [(Op, Ty); 10] = [
    (Op::Input(0), Ty::Truth),
    (Op::Input(1), Ty::Choice(0)),
    (Op::Eq(B, D), Ty::Truth),
    (Op::Pre(B), Ty::Choice(0)),
    (Op::Arrow(F, I), Ty::Word),
    (Op::Const(Value::Word(0)), Ty::Word),
    (Op::Pre(E), Ty::Word),
    (Op::Const(Value::Word(1)), Ty::Word),
    (Op::Ite(A, J, G), Ty::Word),
    (Op::Add(G, H), Ty::Word),
];

/// Runs the counter beside the words of an assignment.
fn check_counter(rt: &impl Abort, net: &Ordered, unrolled: &Unrolled, model: u128)
    requires { unrolled.now.edges ≡ length net.now.network.edges }
{
    let mut before = 0;
    let mut count = 0i64;
    for t in 0..3 {
        let choice = bits(rt, net, unrolled, model, B, t);
        let same = i64::from(choice == before);
        let step = bits(rt, net, unrolled, model, A, t);
        count = if t == 0 {
            0
        } else {
            count.wrapping_add(step) & 3
        };
        assert!(rt; choice < 3);
        assert_eq!(rt; bits(rt, net, unrolled, model, C, t), same, "at {t}");
        assert_eq!(rt; bits(rt, net, unrolled, model, E, t), count, "at {t}");
        before = choice;
    }
}

/// Each of the three instants has a truth and one of three enumerators.
#[test]
fn streams_are_those_of_a_plain_run(rt: HostRuntime) -> Result<(), Fail> {
    let net = network(&rt, rt.alloc(), 2, 3, &COUNTER)?;
    let unrolled = unroll(rt.alloc(), &net, 3)?;
    assert_eq!(rt; unrolled.instants(), 3);
    assert!(rt; unrolled.maker().formula().vars() <= 128);
    let models = models(rt.alloc(), unrolled.maker().formula())?;
    assert_eq!(rt; models.len(), 216);
    for model in models.as_slice() {
        check_counter(&rt, &net, &unrolled, *model);
    }
    Ok(())
}

/// The square of 7.
const SQUARE: [(Op, Ty); 2] = [
    (Op::Const(Value::Word(7)), Ty::Word),
    (Op::Mul(A, A), Ty::Word),
];

/// 7 plus 1, whether -8 is less than 7, and the negation of -8.
const ENDS: [(Op, Ty); 6] = [
    (Op::Const(Value::Word(7)), Ty::Word),
    (Op::Const(Value::Word(1)), Ty::Word),
    (Op::Add(A, B), Ty::Word),
    (Op::Const(Value::Word(-8)), Ty::Word),
    (Op::Lt(D, A), Ty::Truth),
    (Op::Neg(D), Ty::Word),
];

/// Compares the words of a network without inputs, whose words have four bits.
fn check_words(
    rt: &impl Abort,
    alloc: Global,
    edges: &[(Op, Ty)],
    wants: &[(EdgeId, i64)],
) -> Result<(), Fail> {
    let net = network(rt, alloc, 4, 1, edges)?;
    let unrolled = unroll(alloc, &net, 1)?;
    assert!(rt; unrolled.maker().formula().vars() <= 128);
    let models = models(alloc, unrolled.maker().formula())?;
    assert_eq!(rt; models.len(), 1);
    for (e, want) in wants {
        let found = bits(rt, &net, &unrolled, models[0], *e, 0);
        assert_eq!(rt; found, *want, "edge {e:?}");
    }
    Ok(())
}

/// The words as numbers without a sign: -8 is 8.
#[test]
fn words_of_four_bits_wrap(rt: HostRuntime) -> Result<(), Fail> {
    check_words(&rt, rt.alloc(), &SQUARE, &[(B, 1)])?;
    check_words(&rt, rt.alloc(), &ENDS, &[(C, 8), (D, 8), (E, 1), (F, 8)])
}

// ---- the formula

/// A choice of three, a truth x, and `x and pre x`.
const SMALL: [(Op, Ty); 4] = [
    (Op::Input(0), Ty::Choice(0)),
    (Op::Input(1), Ty::Truth),
    (Op::And(B, D), Ty::Truth),
    (Op::Pre(B), Ty::Truth),
];

/// The choice has the variables 2 and 3 and excludes the number 3, x has 4, and `pre x` is `no`;
/// then 6 and 7, and 8.
#[test]
fn the_formula_has_its_gates_in_order(rt: HostRuntime) -> Result<(), Fail> {
    let net = network(&rt, rt.alloc(), 2, 3, &SMALL)?;
    let unrolled = unroll(rt.alloc(), &net, 2)?;
    let mut text = List::new(rt.alloc());
    write_dimacs(unrolled.maker().formula(), &mut text)?;
    let first = "1 0\n-2 -3 0\n-5 4 0\n-5 -1 0\n5 -4 1 0\n";
    let second = "-6 -7 0\n-9 8 0\n-9 4 0\n9 -8 -4 0\n";
    let want = format!(in rt.alloc(); "p cnf 9 9\n{first}{second}")?;
    assert!(rt; text.as_slice() == want.as_bytes());
    Ok(())
}

// ---- sizes

/// An input and eight products with it.
const PRODUCTS: [(Op, Ty); 9] = [
    (Op::Input(0), Ty::Word),
    (Op::Mul(A, A), Ty::Word),
    (Op::Mul(A, B), Ty::Word),
    (Op::Mul(A, C), Ty::Word),
    (Op::Mul(A, D), Ty::Word),
    (Op::Mul(A, E), Ty::Word),
    (Op::Mul(A, F), Ty::Word),
    (Op::Mul(A, G), Ty::Word),
    (Op::Mul(A, H), Ty::Word),
];

/// The costs are 32 and eight times 8 * 32 * 32, with 16 ports and 9 edges.
#[test]
fn what_is_too_large(rt: HostRuntime) -> Result<(), Fail> {
    let net = network(&rt, rt.alloc(), 32, 1, &PRODUCTS)?;
    assert_eq!(rt; size(net.network(), 32), 2_109_697);
    let fault = unroll(rt.alloc(), &net, 32).err();
    assert_eq!(rt; fault, Some(UnrollFault::TooLarge(2_109_697)));
    Ok(())
}

/// At an instant the small network costs 2, 1, 1 and 1, with 3 ports and 4 edges.
#[test]
fn what_a_small_network_takes(rt: HostRuntime) -> Result<(), Fail> {
    let net = network(&rt, rt.alloc(), 2, 3, &SMALL)?;
    assert_eq!(rt; size(net.network(), 1), 294);
    assert_eq!(rt; size(net.network(), 2), 587);
    Ok(())
}
