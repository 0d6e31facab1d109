use super::Acts;
use cov_base::{List, Text};
use dep_paths::plan;
use op_network::{Edge, EdgeId, Frame, Network, Op, Parts, Ty, Value};
use std::alloc::Global;
use std::process::Abort;
use std::test::Fail;

/// A network of truths whose only input is edge 0 and whose only output is edge 1.
fn network(rt: &impl Abort, alloc: Global, ops: &[Op]) -> Result<Network, Fail> {
    let mut edges = List::new(alloc);
    for op in ops {
        let place = edges.len();
        let name = format!(in alloc; "v{place}")?;
        edges.push(Edge {
            op: *op,
            ty: Ty::Truth,
            name: Text::from_bytes(alloc, name.as_bytes())?,
            named: true,
            asserted: false,
        })?;
    }
    let mut inputs = List::new(alloc);
    inputs.push(EdgeId(0))?;
    let mut outputs = List::new(alloc);
    outputs.push(EdgeId(1))?;
    let parts = Parts {
        width: 32,
        choices: List::new(alloc),
        edges,
        inputs,
        outputs,
        asserts: List::new(alloc),
    };
    assert!(rt; parts.valid());
    Ok(Network::build(parts))
}

/// `y = false -> x and not pre x`.
fn edge_detector(rt: &impl Abort, alloc: Global) -> Result<Network, Fail> {
    let ops = [
        Op::Input(0),
        Op::Arrow(EdgeId(2), EdgeId(3)),
        Op::Const(Value::Truth(false)),
        Op::And(EdgeId(0), EdgeId(4)),
        Op::Not(EdgeId(5)),
        Op::Pre(EdgeId(0)),
    ];
    network(rt, alloc, &ops)
}

/// A frame in which an edge is true where its digit is 1.
fn frame_of(alloc: Global, digits: &[u8]) -> Result<Frame, Fail> {
    let mut values = List::new(alloc);
    for digit in digits {
        values.push(Value::Truth(*digit == b'1'))?;
    }
    Ok(Frame::of(values))
}

/// Asks that exactly the obligations of these numbers, from 1, are met at the last instant.
fn expect_met(rt: &impl Abort, acts: &Acts, numbers: &[u32]) -> Result<(), Fail> {
    for place in 0..acts.goals.len() {
        let o = u32::try_from(place)?;
        let asked = numbers.contains(&o.saturating_add(1));
        assert_eq!(rt; acts.active(o), asked, "place {o}");
    }
    Ok(())
}

/// Asks that at the instants of these frames exactly the obligations of these numbers are met.
fn expect(
    rt: &impl Abort,
    alloc: Global,
    net: &Network,
    rows: &[(&[u8], &[u32])],
) -> Result<(), Fail> {
    let plan = plan(alloc, net, 5)?;
    let mut acts = Acts::new(alloc, net, &plan)?;
    for (digits, numbers) in rows {
        acts.step(net, &plan, &frame_of(alloc, digits)?);
        expect_met(rt, &acts, numbers)?;
    }
    Ok(())
}

/// The first path is `x > y#2:0 > y:1`, the second `x > y#4:0 > y#3:0 > y#2:1 > y:1`; x is 0, 1, 1.
/// The input of the second path is asked one instant before the output.
#[test]
fn a_delay_takes_the_input_an_instant_before(rt: HostRuntime) -> Result<(), Fail> {
    let alloc = rt.alloc();
    let net = edge_detector(&rt, alloc)?;
    let rows = [
        (b"000010".as_slice(), [].as_slice()),
        (
            b"110110".as_slice(),
            [1, 2, 3, 6, 7, 9, 11, 14, 16, 17, 19, 21].as_slice(),
        ),
        (b"100001".as_slice(), [2, 5, 13, 15, 18, 20, 22].as_slice()),
    ];
    expect(&rt, alloc, &net, &rows)
}

/// `y = x and x`: two paths of two edges.
#[test]
fn two_ports_are_two_paths(rt: HostRuntime) -> Result<(), Fail> {
    let alloc = rt.alloc();
    let ops = [Op::Input(0), Op::And(EdgeId(0), EdgeId(0))];
    let net = network(&rt, alloc, &ops)?;
    let rows = [(b"11".as_slice(), [1, 2, 3, 5, 7, 9, 11, 13].as_slice())];
    expect(&rt, alloc, &net, &rows)
}

/// `y = x and not x`: the operand that is false alone hides the other.
#[test]
fn a_step_asks_the_other_operand(rt: HostRuntime) -> Result<(), Fail> {
    let alloc = rt.alloc();
    let ops = [
        Op::Input(0),
        Op::And(EdgeId(0), EdgeId(2)),
        Op::Not(EdgeId(0)),
    ];
    let net = network(&rt, alloc, &ops)?;
    let rows = [
        (b"001".as_slice(), [1, 4, 8, 10].as_slice()),
        (b"100".as_slice(), [2, 5, 11, 14, 16].as_slice()),
    ];
    expect(&rt, alloc, &net, &rows)
}

/// `y = x -> false`.
#[test]
fn the_first_operand_of_an_arrow_counts_at_instant_0(rt: HostRuntime) -> Result<(), Fail> {
    let alloc = rt.alloc();
    let ops = [
        Op::Input(0),
        Op::Arrow(EdgeId(0), EdgeId(2)),
        Op::Const(Value::Truth(false)),
    ];
    let net = network(&rt, alloc, &ops)?;
    let rows = [
        (b"110".as_slice(), [1, 2, 4, 6].as_slice()),
        (b"100".as_slice(), [].as_slice()),
    ];
    expect(&rt, alloc, &net, &rows)
}

/// The two paths, of three and of five edges, have their first edge in common. Their fronts are 7
/// without a pin, 14 with one of the two truths of the first edge, and 26 with one of a later edge.
#[test]
fn prefixes_are_shared(rt: HostRuntime) -> Result<(), Fail> {
    let alloc = rt.alloc();
    let net = edge_detector(&rt, alloc)?;
    let plan = plan(alloc, &net, 5)?;
    let acts = Acts::new(alloc, &net, &plan)?;
    assert_eq!(rt; acts.nodes.len(), 47);
    Ok(())
}
