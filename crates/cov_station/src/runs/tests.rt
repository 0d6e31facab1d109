ghost use Rattle.std.specs.Prelude.{All};

use crate::runs::network::network_text;
use cov_base::{List, Memory, Text};
use lus_causality::order;
use op_network::{Choice, Edge, EdgeId, Network, Op, Parts, Test, Ty, Value};
use std::alloc::Global;
use std::process::Abort;
use std::test::Fail;

const A: EdgeId = EdgeId(0);

const B: EdgeId = EdgeId(1);

const C: EdgeId = EdgeId(2);

const D: EdgeId = EdgeId(3);

const E: EdgeId = EdgeId(4);

const F: EdgeId = EdgeId(5);

const FALSE: Op = Op::Const(Value::Truth(false));

/// Adds an edge with a name.
fn add_edge(
    alloc: Global,
    edges: &mut List<Edge>,
    op: Op,
    ty: Ty,
    name: &[u8],
) -> Result<(), Memory> {
    edges.add(Edge {
        op,
        ty,
        name: Text::from_bytes(alloc, name)?,
        named: true,
        asserted: false,
    })
}

/// These edges, as a list.
fn list_of(alloc: Global, ids: &[EdgeId]) -> Result<List<EdgeId>, Memory> {
    let mut list = List::new(alloc);
    list.extend_from_slice(ids)?;
    Ok(list)
}

/// A test of this name with these values.
fn test_of(alloc: Global, name: &[u8], instants: u32, values: &[Value]) -> Result<Test, Memory> {
    let mut list = List::new(alloc);
    list.extend_from_slice(values)?;
    Ok(Test {
        name: Text::from_bytes(alloc, name)?,
        instants,
        values: list,
    })
}

/// The text of tests over a network of these edges, of which the first ones are inputs. Nothing
/// where there is no order.
fn printed(
    rt: &impl Abort,
    alloc: Global,
    edges: List<Edge>,
    choices: List<Choice>,
    ports: (&[EdgeId], &[EdgeId], &[EdgeId]),
    tests: &[Test],
) -> Result<Option<List<u8>>, Fail> {
    let parts = Parts {
        width: 4,
        choices,
        edges,
        inputs: list_of(alloc, ports.0)?,
        outputs: list_of(alloc, ports.1)?,
        asserts: list_of(alloc, ports.2)?,
    };
    assert!(rt; parts.valid());
    match order(alloc, Network::build(parts)) {
        Ok(net) => {
            assert!(rt; tests.iter().all(|test| net.network().fits(test)));
            Ok(Some(network_text(alloc, &net, tests)?))
        }
        Err(_) => Ok(None),
    }
}

/// Whether a text is there, and is this one.
fn is_text(found: &Option<List<u8>>, text: &[u8]) -> bool {
    match found {
        Some(found) => found.as_slice() == text,
        None => false,
    }
}

/// `y = false -> x and not pre x` over x = 0 1 1, and over x = 1.
#[test]
fn streams_are_printed_test_by_test(rt: HostRuntime) -> Result<(), Fail> {
    let alloc = rt.alloc();
    let mut edges = List::new(alloc);
    add_edge(alloc, &mut edges, Op::Input(0), Ty::Truth, b"x")?;
    add_edge(alloc, &mut edges, Op::Arrow(C, D), Ty::Truth, b"y")?;
    add_edge(alloc, &mut edges, FALSE, Ty::Truth, b"y#1")?;
    add_edge(alloc, &mut edges, Op::And(A, E), Ty::Truth, b"y#2")?;
    add_edge(alloc, &mut edges, Op::Not(F), Ty::Truth, b"y#3")?;
    add_edge(alloc, &mut edges, Op::Pre(A), Ty::Truth, b"y#4")?;
    let (low, high) = (Value::Truth(false), Value::Truth(true));
    let mut tests = List::new(alloc);
    tests.add(test_of(alloc, b"a", 3, &[low, high, high])?)?;
    tests.add(test_of(alloc, b"b", 1, &[high])?)?;
    let found = printed(
        &rt,
        alloc,
        edges,
        List::new(alloc),
        (&[A], &[B], &[]),
        tests.as_slice(),
    )?;
    assert!(rt; is_text(&found, b"test a\nx 0 1 1\ny 0 1 0\ntest b\nx 1\ny 0\n"));
    Ok(())
}

/// `o = i + 1; c = o < i` over words of 4 bits, at i = 7 and i = -8.
#[test]
fn words_are_printed_with_their_sign(rt: HostRuntime) -> Result<(), Fail> {
    let alloc = rt.alloc();
    let mut edges = List::new(alloc);
    add_edge(alloc, &mut edges, Op::Input(0), Ty::Word, b"i")?;
    add_edge(alloc, &mut edges, Op::Add(A, D), Ty::Word, b"o")?;
    add_edge(alloc, &mut edges, Op::Lt(B, A), Ty::Truth, b"c")?;
    add_edge(
        alloc,
        &mut edges,
        Op::Const(Value::Word(1)),
        Ty::Word,
        b"o#1",
    )?;
    let mut tests = List::new(alloc);
    tests.add(test_of(alloc, b"t", 2, &[Value::Word(7), Value::Word(-8)])?)?;
    let found = printed(
        &rt,
        alloc,
        edges,
        List::new(alloc),
        (&[A], &[B, C], &[]),
        tests.as_slice(),
    )?;
    assert!(rt; is_text(&found, b"test t\ni 7 -8\no -8 -7\nc 1 0\n"));
    Ok(())
}

/// A type with two enumerators.
fn lamps(alloc: Global) -> Result<List<Choice>, Memory> {
    let mut names = List::new(alloc);
    names.add(Text::from_bytes(alloc, b"Dark")?)?;
    names.add(Text::from_bytes(alloc, b"Lit")?)?;
    let mut choices = List::new(alloc);
    choices.add(Choice {
        name: Text::from_bytes(alloc, b"lamp")?,
        names,
    })?;
    Ok(choices)
}

/// Inputs x and m, where x is asserted; the output is m at the instant before. An assertion fails
/// at instants 1 and 3, and the run goes on.
#[test]
fn runs_go_on_behind_a_failed_assertion(rt: HostRuntime) -> Result<(), Fail> {
    let alloc = rt.alloc();
    let lamp = Ty::Choice(0);
    let mut edges = List::new(alloc);
    add_edge(alloc, &mut edges, Op::Input(0), Ty::Truth, b"x")?;
    add_edge(alloc, &mut edges, Op::Input(1), lamp, b"m")?;
    add_edge(alloc, &mut edges, Op::Pre(B), lamp, b"p")?;
    let (low, high) = (Value::Truth(false), Value::Truth(true));
    let (dark, lit) = (Value::Choice(0), Value::Choice(1));
    let mut tests = List::new(alloc);
    tests.add(test_of(
        alloc,
        b"t",
        4,
        &[high, lit, low, lit, high, dark, low, dark],
    )?)?;
    tests.add(test_of(alloc, b"u", 1, &[high, dark])?)?;
    let found = printed(
        &rt,
        alloc,
        edges,
        lamps(alloc)?,
        (&[A, B], &[C], &[A]),
        tests.as_slice(),
    )?;
    assert!(rt;
        is_text(
            &found,
            b"\
test t
x 1 0 1 0
m Lit Lit Dark Dark
p Dark Lit Lit Dark
assertion fails at 1
test u
x 1
m Dark
p Dark
"
        )
    );
    Ok(())
}
