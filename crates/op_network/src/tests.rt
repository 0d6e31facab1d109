ghost use Rattle.std.specs.Prelude.{◌≡◌, ◌≤◌, IfOk, length};

use crate::edge::{Choice, Edge, EdgeId, Op, Parts};
use crate::form::{Binary, Unary};
use crate::frame::Frame;
use crate::limits::{LEAST_WIDTH, MOST_WIDTH};
use crate::network::Network;
use crate::ports::{is_unmasked, step_condition};
use crate::run::operator_value;
use crate::test::Test;
use crate::value::{Ty, Value};
use crate::values::{binary_value, if_value, unary_value};
use crate::word::wrapped;
use cov_base::{List, Memory, Text};
use std::alloc::Global;
use std::process::Abort;
use std::test::Fail;

const A: EdgeId = EdgeId(0);

const B: EdgeId = EdgeId(1);

const C: EdgeId = EdgeId(2);

/// Arithmetic on the least and the greatest word of a width.
fn wraps_at_both_ends(rt: &impl Abort, width: u32, low: i32, high: i32)
    requires narrowest { LEAST_WIDTH ≤ width }
    requires widest { width ≤ MOST_WIDTH }
{
    for (op, a, b, value) in [
        (Binary::Add, high, 1, low),
        (Binary::Add, low, -1, high),
        (Binary::Add, low, high, -1),
        (Binary::Sub, low, 1, high),
        (Binary::Sub, high, -1, low),
        (Binary::Sub, low, high, 1),
        (Binary::Mul, high, high, 1),
        (Binary::Mul, low, low, 0),
        (Binary::Mul, low, high, low),
        (Binary::Mul, low, -1, low),
    ] {
        let found = binary_value(width, op, Value::Word(a), Value::Word(b));
        assert_eq!(rt; found, Value::Word(value));
    }
    for (a, value) in [(low, low), (-1, 1), (0, 0), (1, -1)] {
        let found = unary_value(width, Unary::Neg, Value::Word(a));
        assert_eq!(rt; found, Value::Word(value));
    }
}

#[test]
fn words_wrap_at_both_ends(rt: HostRuntime) {
    wraps_at_both_ends(&rt, 2, -2, 1);
    wraps_at_both_ends(&rt, 4, -8, 7);
    wraps_at_both_ends(&rt, 31, -1_073_741_824, 1_073_741_823);
    wraps_at_both_ends(&rt, 32, -2_147_483_648, 2_147_483_647);
}

/// Each comparison of the least word of a width with itself, of the least with the greatest, and
/// the other way round.
fn has_a_signed_order(rt: &impl Abort, width: u32, low: i32, high: i32)
    requires narrowest { LEAST_WIDTH ≤ width }
    requires widest { width ≤ MOST_WIDTH }
{
    let low = Value::Word(low);
    let high = Value::Word(high);
    for (op, same, up, down) in [
        (Binary::Eq, true, false, false),
        (Binary::Ne, false, true, true),
        (Binary::Lt, false, true, false),
        (Binary::Le, true, true, false),
        (Binary::Gt, false, false, true),
        (Binary::Ge, true, false, true),
    ] {
        assert_eq!(rt; binary_value(width, op, low, low), Value::Truth(same));
        assert_eq!(rt; binary_value(width, op, low, high), Value::Truth(up));
        assert_eq!(rt; binary_value(width, op, high, low), Value::Truth(down));
    }
}

#[test]
fn words_have_a_signed_order(rt: HostRuntime) {
    has_a_signed_order(&rt, 2, -2, 1);
    has_a_signed_order(&rt, 4, -8, 7);
    has_a_signed_order(&rt, 31, -1_073_741_824, 1_073_741_823);
    has_a_signed_order(&rt, 32, -2_147_483_648, 2_147_483_647);
}

/// The pairs of truths in the order in which the tables below list them.
const TRUTHS: [(bool, bool); 4] = [(false, false), (false, true), (true, false), (true, true)];

#[test]
fn truths_have_their_tables(rt: HostRuntime) {
    for (op, values) in [
        (Binary::And, [false, false, false, true]),
        (Binary::Or, [false, true, true, true]),
        (Binary::Xor, [false, true, true, false]),
        (Binary::Imp, [true, true, false, true]),
        (Binary::Eq, [true, false, false, true]),
        (Binary::Ne, [false, true, true, false]),
    ] {
        for i in 0..4 {
            let (a, b) = TRUTHS[i];
            let found = binary_value(32, op, Value::Truth(a), Value::Truth(b));
            assert_eq!(rt; found, Value::Truth(values[i]));
        }
    }
}

/// For each port with a condition, its step and whether a tag passes it.
#[test]
fn ports_have_their_conditions(rt: HostRuntime) {
    let always = [true, true, true, true];
    let first = [false, false, true, true];
    let not_first = [true, true, false, false];
    let second = [false, true, false, true];
    let not_second = [true, false, true, false];
    for (op, port, steps, passes) in [
        (Op::And(A, B), 0, [true, true, false, true], second),
        (Op::And(A, B), 1, [true, false, true, true], first),
        (Op::Or(A, B), 0, [true, false, true, true], not_second),
        (Op::Or(A, B), 1, [true, true, false, true], not_first),
        (Op::Imp(A, B), 0, [true, true, true, false], not_second),
        (Op::Imp(A, B), 1, [false, true, true, true], first),
        (Op::Ite(A, B, C), 0, always, always),
        (Op::Ite(A, B, C), 1, first, first),
        (Op::Ite(A, B, C), 2, not_first, not_first),
    ] {
        for i in 0..4 {
            let (a, b) = TRUTHS[i];
            let frame = [Value::Truth(a), Value::Truth(b)];
            assert_eq!(rt; step_condition(op, port, &frame), steps[i]);
            assert_eq!(rt; is_unmasked(op, port, &frame, 0), passes[i]);
        }
    }
    for (port, t, passes) in [(0, 0, true), (0, 1, false), (1, 0, false), (1, 1, true)] {
        assert_eq!(rt; is_unmasked(Op::Arrow(A, B), port, &[], t), passes);
        assert!(rt; step_condition(Op::Arrow(A, B), port, &[]));
    }
}

/// The ports of the other operators let every step and every tag through.
#[test]
fn other_ports_have_no_condition(rt: HostRuntime) {
    for (op, last) in [
        (Op::Id(A), 0),
        (Op::Not(A), 0),
        (Op::Neg(A), 0),
        (Op::Xor(A, B), 1),
        (Op::Eq(A, B), 1),
        (Op::Ne(A, B), 1),
        (Op::Lt(A, B), 1),
        (Op::Le(A, B), 1),
        (Op::Gt(A, B), 1),
        (Op::Ge(A, B), 1),
        (Op::Add(A, B), 1),
        (Op::Sub(A, B), 1),
        (Op::Mul(A, B), 1),
        (Op::Pre(A), 0),
    ] {
        for (a, b) in TRUTHS {
            let frame = [Value::Truth(a), Value::Truth(b)];
            assert!(rt; step_condition(op, 0, &frame) && step_condition(op, last, &frame));
            assert!(rt; is_unmasked(op, 0, &frame, 1) && is_unmasked(op, last, &frame, 1));
        }
    }
}

/// An operator's values at instant 0 and at a later one, over three edges and one input.
fn instant_values(rt: &impl Abort, op: Op, ty: Ty, first: Value, later: Value) {
    let before = [Value::Truth(true), Value::Word(3), Value::Choice(4)];
    let now = [Value::Truth(false), Value::Word(-6), Value::Choice(5)];
    let inputs = [Value::Word(7)];
    let at_first = operator_value(4, op, ty, None, &now, &inputs);
    assert_eq!(rt; at_first, first);
    let at_later = operator_value(4, op, ty, Some(&before), &now, &inputs);
    assert_eq!(rt; at_later, later);
}

/// The value of each operator that the tables above leave out and that has the same one at instant
/// 0 and later.
#[test]
fn an_operator_reads_its_instant(rt: HostRuntime) {
    let yes = Value::Truth(true);
    let no = Value::Truth(false);
    for (op, ty, first, later) in [
        (Op::Input(0), Ty::Word, Value::Word(7), Value::Word(7)),
        (
            Op::Const(Value::Choice(2)),
            Ty::Choice(0),
            Value::Choice(2),
            Value::Choice(2),
        ),
        (Op::Id(B), Ty::Word, Value::Word(-6), Value::Word(-6)),
        (Op::Not(A), Ty::Truth, yes, yes),
        (Op::Eq(C, C), Ty::Truth, yes, yes),
        (Op::Eq(B, C), Ty::Truth, no, no),
        (Op::Ne(C, C), Ty::Truth, no, no),
        (Op::Sub(B, B), Ty::Word, Value::Word(0), Value::Word(0)),
        (
            Op::Ite(A, B, C),
            Ty::Choice(0),
            Value::Choice(5),
            Value::Choice(5),
        ),
    ] {
        instant_values(&rt, op, ty, first, later);
    }
}

/// The value of each operator that has another one at instant 0 than later.
#[test]
fn an_operator_knows_instant_0(rt: HostRuntime) {
    let yes = Value::Truth(true);
    let no = Value::Truth(false);
    for (op, ty, first, later) in [
        (Op::Arrow(B, C), Ty::Word, Value::Word(-6), Value::Choice(5)),
        (Op::Pre(A), Ty::Truth, no, yes),
        (Op::Pre(B), Ty::Word, Value::Word(0), Value::Word(3)),
        (
            Op::Pre(C),
            Ty::Choice(0),
            Value::Choice(0),
            Value::Choice(4),
        ),
    ] {
        instant_values(&rt, op, ty, first, later);
    }
}

/// A value of each kind of operator that the tables above leave out.
#[test]
fn an_operator_reads_its_values(rt: HostRuntime) {
    let yes = Value::Truth(true);
    let no = Value::Truth(false);
    assert_eq!(rt; unary_value(4, Unary::Not, yes), no);
    assert_eq!(rt;
        if_value(yes, Value::Word(1), Value::Word(2)),
        Value::Word(1)
    );
    assert_eq!(rt;
        binary_value(4, Binary::Eq, Value::Choice(1), Value::Choice(2)),
        no
    );
    assert_eq!(rt;
        binary_value(4, Binary::Ne, Value::Choice(1), Value::Choice(2)),
        yes
    );
}

#[test]
fn literals_are_wrapped(rt: HostRuntime) {
    assert_eq!(rt; wrapped(2, 2), -2);
    assert_eq!(rt; wrapped(7, 4), 7);
    assert_eq!(rt; wrapped(8, 4), -8);
    assert_eq!(rt; wrapped(31, 4), -1);
    assert_eq!(rt; wrapped(2_147_483_647, 32), 2_147_483_647);
    assert_eq!(rt; wrapped(2_147_483_648, 32), -2_147_483_648);
    assert_eq!(rt; wrapped(u128::MAX, 31), -1);
}

fn list_of<T: Copy>(alloc: Global, items: &[T]) -> Result<List<T>, Memory> {
    let mut list = List::new(alloc);
    list.extend_from_slice(items)?;
    Ok(list)
}

/// Two edges, a truth `x` and a word `n`, which are inputs, and a third.
fn edges_of(alloc: Global, op: Op, ty: Ty, name: &[u8]) -> Result<List<Edge>, Memory> {
    let mut edges = List::new(alloc);
    for (op, ty, name) in [
        (Op::Input(0), Ty::Truth, b"x".as_slice()),
        (Op::Input(1), Ty::Word, b"n".as_slice()),
        (op, ty, name),
    ] {
        edges.add(Edge {
            op,
            ty,
            name: Text::from_bytes(alloc, name)?,
            named: true,
            asserted: false,
        })?;
    }
    Ok(edges)
}

/// A choice of two.
fn light(alloc: Global) -> Result<List<Choice>, Memory> {
    let mut names = List::new(alloc);
    names.add(Text::from_bytes(alloc, b"Stop")?)?;
    names.add(Text::from_bytes(alloc, b"Go")?)?;
    let name = Text::from_bytes(alloc, b"Light")?;
    let mut choices = List::new(alloc);
    choices.add(Choice { name, names })?;
    Ok(choices)
}

/// A network of these edges, of width 4.
fn parts_of(
    alloc: Global,
    edges: List<Edge>,
    outputs: &[EdgeId],
    asserts: &[EdgeId],
) -> Result<Parts, Memory> {
    Ok(Parts {
        width: 4,
        choices: light(alloc)?,
        edges,
        inputs: list_of(alloc, &[A, B])?,
        outputs: list_of(alloc, outputs)?,
        asserts: list_of(alloc, asserts)?,
    })
}

#[test]
fn an_edge_is_well_typed_or_not(rt: HostRuntime) -> Result<(), Fail> {
    let alloc = rt.alloc();
    for (op, ty, name, valid) in [
        (Op::Not(A), Ty::Truth, b"y".as_slice(), true),
        (Op::Not(B), Ty::Truth, b"y".as_slice(), false),
        (Op::Not(EdgeId(3)), Ty::Truth, b"y".as_slice(), false),
        (Op::Not(A), Ty::Truth, b"x".as_slice(), false),
        (Op::Not(A), Ty::Truth, b"y z".as_slice(), false),
        (Op::Not(A), Ty::Truth, b"".as_slice(), false),
        (Op::Add(B, B), Ty::Word, b"y".as_slice(), true),
        (Op::Add(B, A), Ty::Word, b"y".as_slice(), false),
        (Op::Lt(B, B), Ty::Truth, b"y".as_slice(), true),
        (Op::Eq(A, B), Ty::Truth, b"y".as_slice(), false),
        (Op::Ite(A, B, B), Ty::Word, b"y".as_slice(), true),
        (Op::Ite(B, B, B), Ty::Word, b"y".as_slice(), false),
        (Op::Const(Value::Word(7)), Ty::Word, b"y".as_slice(), true),
        (Op::Const(Value::Word(8)), Ty::Word, b"y".as_slice(), false),
        (Op::Const(Value::Word(-8)), Ty::Word, b"y".as_slice(), true),
        (Op::Const(Value::Word(-9)), Ty::Word, b"y".as_slice(), false),
        (
            Op::Const(Value::Choice(1)),
            Ty::Choice(0),
            b"y".as_slice(),
            true,
        ),
        (
            Op::Const(Value::Choice(2)),
            Ty::Choice(0),
            b"y".as_slice(),
            false,
        ),
        (
            Op::Const(Value::Choice(0)),
            Ty::Choice(1),
            b"y".as_slice(),
            false,
        ),
        (Op::Input(1), Ty::Word, b"y".as_slice(), false),
    ] {
        let parts = parts_of(alloc, edges_of(alloc, op, ty, name)?, &[C], &[])?;
        assert_eq!(rt; parts.valid(), valid);
    }
    Ok(())
}

/// The edges are a truth `x` and a word `n`, which are inputs, and a truth `y`.
#[test]
fn the_width_and_the_lists_of_edges_are_checked(rt: HostRuntime) -> Result<(), Fail> {
    let alloc = rt.alloc();
    for (width, inputs, outputs, asserts, valid) in [
        (1, [A, B], [C, B], [A, C], false),
        (2, [A, B], [C, B], [A, C], true),
        (32, [A, B], [C, B], [A, C], true),
        (33, [A, B], [C, B], [A, C], false),
        (4, [B, A], [C, B], [A, C], false),
        (4, [A, A], [C, B], [A, C], false),
        (4, [A, B], [C, C], [A, C], false),
        (4, [A, B], [C, EdgeId(3)], [A, C], false),
        (4, [A, B], [C, B], [A, A], false),
        (4, [A, B], [C, B], [A, B], false),
    ] {
        let parts = Parts {
            width,
            choices: light(alloc)?,
            edges: edges_of(alloc, Op::Not(A), Ty::Truth, b"y")?,
            inputs: list_of(alloc, &inputs)?,
            outputs: list_of(alloc, &outputs)?,
            asserts: list_of(alloc, &asserts)?,
        };
        assert_eq!(rt; parts.valid(), valid);
    }
    Ok(())
}

/// The numbers from 0, so many, as texts; those above the greatest are the greatest.
fn numbers(alloc: Global, count: u32, greatest: u32) -> Result<List<Text>, Fail> {
    let mut names = List::new(alloc);
    for number in 0..count {
        let number = if number < greatest { number } else { greatest };
        let name = format!(in alloc; "{number}")?;
        names.add(Text::from_bytes(alloc, name.as_bytes())?)?;
    }
    Ok(names)
}

/// So many edges of different names.
fn constant_edges(alloc: Global, count: u32) -> Result<List<Edge>, Fail> {
    let mut edges = List::new(alloc);
    for number in 0..count {
        let name = format!(in alloc; "{number}")?;
        edges.add(Edge {
            op: Op::Const(Value::Truth(true)),
            ty: Ty::Truth,
            name: Text::from_bytes(alloc, name.as_bytes())?,
            named: true,
            asserted: false,
        })?;
    }
    Ok(edges)
}

#[test]
fn the_numbers_of_edges_and_of_enumerators_are_checked(rt: HostRuntime) -> Result<(), Fail> {
    let alloc = rt.alloc();
    for (edges, names, greatest, valid) in [
        (8192, 1, 0, true),
        (8193, 1, 0, false),
        (1, 0, 0, false),
        (1, 256, 255, true),
        (1, 257, 256, false),
        (1, 3, 1, false),
    ] {
        let mut choices = List::new(alloc);
        choices.add(Choice {
            name: Text::from_bytes(alloc, b"T")?,
            names: numbers(alloc, names, greatest)?,
        })?;
        let parts = Parts {
            width: 4,
            choices,
            edges: constant_edges(alloc, edges)?,
            inputs: List::new(alloc),
            outputs: List::new(alloc),
            asserts: List::new(alloc),
        };
        assert_eq!(rt; parts.valid(), valid);
    }
    Ok(())
}

/// `y = if x then n else n`.
fn conditional(rt: &impl Abort, alloc: Global) -> Result<Network, Memory> {
    let edges = edges_of(alloc, Op::Ite(A, B, B), Ty::Word, b"y")?;
    let parts = parts_of(alloc, edges, &[C], &[])?;
    assert!(rt; parts.valid());
    Ok(Network::build(parts))
}

/// `y = false -> x and not pre x`: the edges `x`, `y`, and `y#1` to `y#4`.
fn example(rt: &impl Abort, alloc: Global) -> Result<Network, Memory>
    ensures { IfOk result (λ net. length net.edges ≡ 6) }
{
    let mut edges = List::new(alloc);
    for (op, name) in [
        (Op::Input(0), b"x".as_slice()),
        (Op::Arrow(EdgeId(2), EdgeId(3)), b"y".as_slice()),
        (Op::Const(Value::Truth(false)), b"y#1".as_slice()),
        (Op::And(EdgeId(0), EdgeId(4)), b"y#2".as_slice()),
        (Op::Not(EdgeId(5)), b"y#3".as_slice()),
        (Op::Pre(EdgeId(0)), b"y#4".as_slice()),
    ] {
        edges.add(Edge {
            op,
            ty: Ty::Truth,
            name: Text::from_bytes(alloc, name)?,
            named: true,
            asserted: false,
        })?;
    }
    let parts = Parts {
        width: 32,
        choices: List::new(alloc),
        edges,
        inputs: list_of(alloc, &[A])?,
        outputs: list_of(alloc, &[B])?,
        asserts: List::new(alloc),
    };
    assert!(rt; parts.valid());
    assert!(rt; parts.edges.len() == 6);
    Ok(Network::build(parts))
}

#[test]
fn a_network_is_read(rt: HostRuntime) -> Result<(), Fail> {
    let alloc = rt.alloc();
    let net = example(&rt, alloc)?;
    let readers = net.readers(alloc, A)?;
    assert_eq!(rt;
        readers.as_slice(),
        [(EdgeId(3), 0u8), (EdgeId(5), 0u8)].as_slice()
    );
    assert_eq!(rt; net.ports(A), 0);
    assert!(rt; net.ports(EdgeId(3)) == 2);
    assert_eq!(rt; net.operand(EdgeId(3), 1), EdgeId(4));
    Ok(())
}

fn test_of(alloc: Global, instants: u32, values: &[Value]) -> Result<Test, Memory> {
    Ok(Test {
        name: Text::from_bytes(alloc, b"t")?,
        instants,
        values: list_of(alloc, values)?,
    })
}

#[test]
fn tests_fit_or_do_not(rt: HostRuntime) -> Result<(), Fail> {
    let alloc = rt.alloc();
    let net = conditional(&rt, alloc)?;
    for (instants, first, second, fits) in [
        (1, Value::Truth(true), Value::Word(7), true),
        (1, Value::Truth(true), Value::Word(8), false),
        (1, Value::Word(0), Value::Word(0), false),
        (2, Value::Truth(true), Value::Word(7), false),
        (0, Value::Truth(true), Value::Word(7), false),
    ] {
        let test = test_of(alloc, instants, &[first, second])?;
        assert_eq!(rt; net.fits(&test), fits);
    }
    Ok(())
}

#[test]
fn tests_and_frames_are_copied(rt: HostRuntime) -> Result<(), Fail> {
    let alloc = rt.alloc();
    let values = [Value::Word(-3), Value::Choice(1)];
    let test = test_of(alloc, 1, &values)?;
    let copy = test.copy(alloc)?;
    assert_eq!(rt; copy.name.bytes(), b"t".as_slice());
    assert_eq!(rt; copy.instants, 1);
    assert_eq!(rt; copy.values.as_slice(), values.as_slice());
    let frame = Frame::of(copy.values).copy(alloc)?;
    assert_eq!(rt; frame.values(), values.as_slice());
    Ok(())
}
