use crate::ordered::{OrderCause, order};
use cov_base::{List, Text};
use op_network::{Edge, EdgeId, Network, Op, Parts, Ty, Value};
use std::alloc::Global;
use std::process::Abort;
use std::test::Fail;

const A: EdgeId = EdgeId(0);

const B: EdgeId = EdgeId(1);

const C: EdgeId = EdgeId(2);

const D: EdgeId = EdgeId(3);

const E: EdgeId = EdgeId(4);

const F: EdgeId = EdgeId(5);

const G: EdgeId = EdgeId(6);

const FALSE: Op = Op::Const(Value::Truth(false));

/// Adds an edge of a truth, with a name of its own.
fn add(alloc: Global, parts: &mut Parts, op: Op) -> Result<(), Fail> {
    let place = parts.edges.len();
    let name = format!(in alloc; "v{place}")?;
    parts.edges.push(Edge {
        op,
        ty: Ty::Truth,
        name: Text::from_bytes(alloc, name.as_bytes())?,
        named: true,
        asserted: false,
    })?;
    if let (Op::Input(_), Ok(place)) = (op, u32::try_from(place)) {
        parts.inputs.push(EdgeId(place))?;
    }
    Ok(())
}

fn no_parts(alloc: Global) -> Parts {
    Parts {
        width: 32,
        choices: List::new(alloc),
        edges: List::new(alloc),
        inputs: List::new(alloc),
        outputs: List::new(alloc),
        asserts: List::new(alloc),
    }
}

/// The sequence of a network of truths, or the cause of its refusal.
fn ordered(
    rt: &impl Abort,
    alloc: Global,
    ops: &[Op],
) -> Result<Result<List<EdgeId>, OrderCause>, Fail> {
    let mut parts = no_parts(alloc);
    for op in ops {
        add(alloc, &mut parts, *op)?;
    }
    assert!(rt; parts.valid());
    Ok(match order(alloc, Network::build(parts)) {
        Ok(ordered) => {
            let mut sequence = List::new(alloc);
            sequence.extend_from_slice(ordered.sequence())?;
            Ok(sequence)
        }
        Err(fault) => Err(fault.cause),
    })
}

/// `y = false -> x and not pre x`, `a = false -> pre b; b = a`, and an edge that is read twice.
#[test]
fn the_least_edge_that_can_be_next(rt: HostRuntime) -> Result<(), Fail> {
    let rises: &[Op] = &[
        Op::Input(0),
        Op::Arrow(C, D),
        FALSE,
        Op::And(A, E),
        Op::Not(F),
        Op::Pre(A),
    ];
    let delayed: &[Op] = &[Op::Arrow(C, D), Op::Id(A), FALSE, Op::Pre(B)];
    let twice: &[Op] = &[Op::And(B, B), Op::Or(C, D), Op::Input(0), Op::Input(1)];
    let rises_order: &[EdgeId] = &[A, C, F, E, D, B];
    let delayed_order: &[EdgeId] = &[C, D, A, B];
    let twice_order: &[EdgeId] = &[C, D, B, A];
    for (ops, sequence) in [
        (rises, rises_order),
        (delayed, delayed_order),
        (twice, twice_order),
    ] {
        match ordered(&rt, rt.alloc(), ops)? {
            Ok(found) => assert_eq!(rt; found.as_slice(), sequence),
            Err(cause) => assert!(rt; false, "{cause:?}"),
        }
    }
    Ok(())
}

/// `a = b; b = a`, an edge that reads itself, the branch of `if` that is never taken, two cycles,
/// and edges that read a cycle and lie on none.
#[test]
fn the_least_edge_on_a_cycle(rt: HostRuntime) -> Result<(), Fail> {
    let pair: &[Op] = &[Op::Id(B), Op::Id(A)];
    let itself: &[Op] = &[Op::Input(0), Op::Or(A, B)];
    let untaken: &[Op] = &[FALSE, Op::Input(0), Op::Ite(A, C, B)];
    let two: &[Op] = &[
        Op::Input(0),
        Op::Or(A, G),
        Op::Not(F),
        Op::Pre(C),
        Op::Id(G),
        Op::Id(C),
        Op::Not(E),
    ];
    let behind: &[Op] = &[
        Op::And(C, D),
        Op::Not(A),
        Op::Id(E),
        Op::Input(0),
        Op::Id(C),
    ];
    for (ops, edge) in [(pair, A), (itself, B), (untaken, C), (two, C), (behind, C)] {
        match ordered(&rt, rt.alloc(), ops)? {
            Ok(found) => assert!(rt; false, "{found:?}"),
            Err(cause) => assert_eq!(rt; cause, OrderCause::Cycle(edge)),
        }
    }
    Ok(())
}

/// The sequence of as many edges as a network may have: of the edges but the last each is the
/// negation of the next, or of the last, which is the input.
fn long_order(rt: &impl Abort, alloc: Global, of_the_next: bool) -> Result<List<EdgeId>, Fail> {
    let last = 8191;
    let mut parts = no_parts(alloc);
    for e in 0..last {
        let operand = if of_the_next { e + 1 } else { last };
        add(alloc, &mut parts, Op::Not(EdgeId(operand)))?;
    }
    add(alloc, &mut parts, Op::Input(0))?;
    assert!(rt; parts.valid());
    let mut sequence = List::new(alloc);
    match order(alloc, Network::build(parts)) {
        Ok(ordered) => sequence.extend_from_slice(ordered.sequence())?,
        Err(fault) => {
            let cause = fault.cause;
            assert!(rt; false, "{cause:?}");
        }
    }
    Ok(sequence)
}

/// As many edges as a network may have, each of which reads the next.
#[test]
fn a_chain_of_8192_edges(rt: HostRuntime) -> Result<(), Fail> {
    let sequence = long_order(&rt, rt.alloc(), true)?;
    assert_eq!(rt; sequence.len(), 8192);
    for (place, e) in sequence.as_slice().iter().enumerate() {
        assert_eq!(rt; place + e.0 as usize, 8191);
    }
    Ok(())
}

/// As many edges as a network may have, the last of which all others read.
#[test]
fn an_edge_with_8191_readers(rt: HostRuntime) -> Result<(), Fail> {
    let sequence = long_order(&rt, rt.alloc(), false)?;
    assert_eq!(rt; sequence.len(), 8192);
    for (place, e) in sequence.as_slice().iter().enumerate() {
        let found = if place == 0 { 8191 } else { place - 1 };
        assert_eq!(rt; e.0 as usize, found);
    }
    Ok(())
}
