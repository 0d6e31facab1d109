use super::Tags;
use cov_base::{List, Text};
use dep_paths::conditions;
use lus_causality::{Ordered, order};
use op_network::{Edge, EdgeId, Frame, Network, Op, Parts, Ty, Value};
use std::alloc::Global;
use std::process::Abort;
use std::test::Fail;

/// An edge of a network of truths: its operator, and whether it has a name of its own.
type Row = (Op, bool);

fn edges_of(alloc: Global, rows: &[Row]) -> Result<List<Edge>, Fail> {
    let mut edges = List::new(alloc);
    for (op, named) in rows {
        let place = edges.len();
        let name = format!(in alloc; "v{place}")?;
        edges.push(Edge {
            op: *op,
            ty: Ty::Truth,
            name: Text::from_bytes(alloc, name.as_bytes())?,
            named: *named,
            asserted: false,
        })?;
    }
    Ok(edges)
}

fn ids(alloc: Global, places: &[u32]) -> Result<List<EdgeId>, Fail> {
    let mut ids = List::new(alloc);
    for place in places {
        ids.push(EdgeId(*place))?;
    }
    Ok(ids)
}

/// An ordered network of truths with these inputs and outputs.
fn network(
    rt: &impl Abort,
    alloc: Global,
    rows: &[Row],
    inputs: &[u32],
    outputs: &[u32],
) -> Result<Ordered, Fail> {
    let parts = Parts {
        width: 32,
        choices: List::new(alloc),
        edges: edges_of(alloc, rows)?,
        inputs: ids(alloc, inputs)?,
        outputs: ids(alloc, outputs)?,
        asserts: List::new(alloc),
    };
    assert!(rt; parts.valid());
    match order(alloc, Network::build(parts)) {
        Ok(net) => Ok(net),
        Err(fault) => Err(fault.cause)?,
    }
}

/// A frame in which an edge is true where its digit is 1.
fn frame_of(alloc: Global, digits: &[u8]) -> Result<Frame, Fail> {
    let mut values = List::new(alloc);
    for digit in digits {
        values.push(Value::Truth(*digit == b'1'))?;
    }
    Ok(Frame::of(values))
}

/// Asks that exactly these conditions with values are observed at the last instant. They are
/// numbered from 1, each condition with true and then with false.
fn expect_observed(rt: &impl Abort, tags: &Tags, numbers: &[u32]) -> Result<(), Fail> {
    for place in 0..tags.places.len() {
        let condition = u32::try_from(place)?;
        for (value, offset) in [(true, 1), (false, 2)] {
            let number = condition.saturating_mul(2).saturating_add(offset);
            let asked = numbers.contains(&number);
            assert_eq!(rt; tags.observed(condition, value), asked, "number {number}");
        }
    }
    Ok(())
}

/// Asks what is observed at the instants of these frames, for the conditions of the network.
fn expect(
    rt: &impl Abort,
    alloc: Global,
    net: &Ordered,
    count: usize,
    rows: &[(&[u8], &[u32])],
) -> Result<(), Fail> {
    let conditions = conditions(alloc, net.network())?;
    assert_eq!(rt; conditions.len(), count);
    let mut tags = Tags::of_conditions(alloc, net, conditions.as_slice())?;
    for (digits, numbers) in rows {
        tags.take(net, &frame_of(alloc, digits)?);
        expect_observed(rt, &tags, numbers)?;
    }
    Ok(())
}

/// `y = false -> x and not pre x` at x = 0, 1, 1. The conditions are port 0 of the conjunction, of
/// `not` and of `pre`. The first is never observed with false: x is false at instant 0 alone, where
/// `->` hides the conjunction.
#[test]
fn a_tag_passes_where_the_other_operand_does_not_hide_it(rt: HostRuntime) -> Result<(), Fail> {
    let alloc = rt.alloc();
    let edges = [
        (Op::Input(0), true),
        (Op::Arrow(EdgeId(2), EdgeId(3)), true),
        (Op::Const(Value::Truth(false)), false),
        (Op::And(EdgeId(0), EdgeId(4)), false),
        (Op::Not(EdgeId(5)), false),
        (Op::Pre(EdgeId(0)), false),
    ];
    let net = network(&rt, alloc, &edges, &[0], &[1])?;
    let rows = [
        (b"000010".as_slice(), [].as_slice()),
        (b"110110".as_slice(), [1, 4, 6].as_slice()),
        (b"100001".as_slice(), [3, 5].as_slice()),
    ];
    expect(&rt, alloc, &net, 3, &rows)
}

/// `a = false -> pre b; b = a`: all are false, and a tag comes back through `pre` an instant later.
#[test]
fn a_tag_goes_on_behind_an_output(rt: HostRuntime) -> Result<(), Fail> {
    let alloc = rt.alloc();
    let edges = [
        (Op::Arrow(EdgeId(1), EdgeId(2)), true),
        (Op::Const(Value::Truth(false)), false),
        (Op::Pre(EdgeId(3)), false),
        (Op::Id(EdgeId(0)), true),
    ];
    let net = network(&rt, alloc, &edges, &[], &[0, 3])?;
    let rows = [
        (b"0000".as_slice(), [6].as_slice()),
        (b"0000".as_slice(), [2, 4, 6].as_slice()),
    ];
    expect(&rt, alloc, &net, 3, &rows)
}
