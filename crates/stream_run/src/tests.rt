ghost use Rattle.std.specs.Prelude.{◌≡◌, ◌<◌, length};
ghost use Rattle.stream_run.specs.Firings.{IsFiringOf};

use crate::firing::Firing;
use crate::runner::Runner;
use cov_base::{List, Memory, Steps, Text};
use lus_causality::{Ordered, order};
use op_network::{Edge, EdgeId, Network, Op, Parts, Ty, Value};
use std::alloc::Global;
use std::marker::Brand;
use std::process::Abort;
use std::sync::ledger::{Blank, Ledger};
use std::test::Fail;

const A: EdgeId = EdgeId(0);

const B: EdgeId = EdgeId(1);

const C: EdgeId = EdgeId(2);

const D: EdgeId = EdgeId(3);

const E: EdgeId = EdgeId(4);

const F: EdgeId = EdgeId(5);

/// A network of truths with the input 0.
fn network(
    rt: &impl Abort,
    alloc: Global,
    ops: &[Op],
    asserts: &[EdgeId],
) -> Result<Network, Fail> {
    let mut edges = List::new(alloc);
    for op in ops {
        let place = edges.len();
        let name = format!(in alloc; "v{place}")?;
        edges.push(Edge {
            op: *op,
            ty: Ty::Truth,
            name: Text::from_bytes(alloc, name.as_bytes())?,
            named: true,
            asserted: false,
        })?;
    }
    let mut inputs = List::new(alloc);
    inputs.push(A)?;
    let mut asserted = List::new(alloc);
    asserted.extend_from_slice(asserts)?;
    let parts = Parts {
        width: 32,
        choices: List::new(alloc),
        edges,
        inputs,
        outputs: List::new(alloc),
        asserts: asserted,
    };
    assert!(rt; parts.valid());
    Ok(Network::build(parts))
}

/// `y = false -> x and not pre x`, where x is edge 0 and y edge 1.
fn rises(rt: &impl Abort, alloc: Global) -> Result<Network, Fail> {
    let ops = [
        Op::Input(0),
        Op::Arrow(C, D),
        Op::Const(Value::Truth(false)),
        Op::And(A, E),
        Op::Not(F),
        Op::Pre(A),
    ];
    network(rt, alloc, &ops, &[])
}

/// Whether edge 1 is true.
fn is_high(values: &[Value]) -> bool {
    matches!(values.get(1), Some(Value::Truth(true)))
}

/// Whether edge 1 is true, instant by instant, where the input is true but for instant 0.
fn stepped<L: Ledger>(
    alloc: Global,
    net: &Ordered,
    instants: u32,
    blank: Blank,
) -> Result<List<bool>, Memory>
    requires name { blank.name ≡ L.name }
    requires parts { blank.parts ≡ L.parts }
    requires some { 0 < blank.parts }
{
    let mut steps = Steps::<L>::new(blank);
    let mut runner = Runner::new(alloc, net)?;
    let mut found = List::new(alloc);
    for t in 0..instants {
        runner.step(net, &[Value::Truth(t > 0)], &mut steps);
        found.add(is_high(runner.frame().values()))?;
    }
    Ok(found)
}

/// Fires those of the edges that are ready, one behind the other.
fn fire_in_order(net: &Network, firing: &mut Firing, edges: &[EdgeId])
    requires { IsFiringOf net.now firing.old }
    ensures { IsFiringOf net.now firing.new }
{
    for e in edges {
        if firing.ready(net, *e) {
            firing.fire(net, *e);
        }
    }
}

/// Whether edge 1 is true, instant by instant, with the edges fired in this order.
fn fired(alloc: Global, net: &Network, xs: &[bool], edges: &[EdgeId]) -> Result<List<bool>, Memory>
    requires { length net.now.inputs ≡ 1 }
{
    let mut firing = Firing::new(alloc, net)?;
    let mut found = List::new(alloc);
    for x in xs {
        firing.begin(net, &[Value::Truth(*x)]);
        fire_in_order(net, &mut firing, edges);
        if !firing.finished() {
            return Ok(found);
        }
        found.add(firing.value(B) == Some(Value::Truth(true)))?;
        firing.end();
    }
    Ok(found)
}

/// `y = false -> x and not pre x` over x = 0 1 1, with the edges fired in this order.
fn rises_fired(rt: &impl Abort, alloc: Global, edges: &[EdgeId]) -> Result<List<bool>, Fail> {
    let net = rises(rt, alloc)?;
    assert!(rt; net.parts().inputs.len() == 1);
    Ok(fired(alloc, &net, &[false, true, true], edges)?)
}

/// The same, step by step. Nothing where there is no order.
fn rises_stepped(rt: &impl Abort, alloc: Global) -> Result<List<bool>, Fail> {
    match order(alloc, rises(rt, alloc)?) {
        Ok(net) => Ok(stepped::<Brand>(alloc, &net, 3, Blank::new(1))?),
        Err(_) => Ok(List::new(alloc)),
    }
}

/// y = 0 1 0, by steps and with the edges fired in two orders. Where edge 1 is asked for too early
/// it isn't ready, and the instant isn't finished.
#[test]
fn steps_and_firings_give_the_run(rt: HostRuntime) -> Result<(), Fail> {
    let ys: &[bool] = &[false, true, false];
    for (edges, found) in [
        ([A, C, F, E, D, B], ys),
        ([F, E, A, D, C, B], ys),
        ([B, A, C, F, E, D], &[]),
    ] {
        let values = rises_fired(&rt, rt.alloc(), &edges)?;
        assert_eq!(rt; values.as_slice(), found, "{edges:?}");
    }
    let values = rises_stepped(&rt, rt.alloc())?;
    assert_eq!(rt; values.as_slice(), ys);
    Ok(())
}

/// Whether the assertions hold at an instant with this input.
fn holds_over<L: Ledger>(
    alloc: Global,
    net: &Ordered,
    x: bool,
    blank: Blank,
) -> Result<bool, Memory>
    requires name { blank.name ≡ L.name }
    requires parts { blank.parts ≡ L.parts }
    requires some { 0 < blank.parts }
{
    let mut steps = Steps::<L>::new(blank);
    let mut runner = Runner::new(alloc, net)?;
    runner.step(net, &[Value::Truth(x)], &mut steps);
    Ok(runner.asserts_hold(net))
}

/// Whether these edges, asserted, are true at an instant with this input, where edge 1 is true and
/// edge 2 false. Nothing where there is no order.
fn held(rt: &impl Abort, alloc: Global, asserts: &[EdgeId], x: bool) -> Result<Option<bool>, Fail> {
    let ops = [
        Op::Input(0),
        Op::Const(Value::Truth(true)),
        Op::Const(Value::Truth(false)),
    ];
    match order(alloc, network(rt, alloc, &ops, asserts)?) {
        Ok(net) => Ok(Some(holds_over::<Brand>(alloc, &net, x, Blank::new(1))?)),
        Err(_) => Ok(None),
    }
}

/// No assertion, x, true and x, x and false.
#[test]
fn all_assertions_have_to_hold(rt: HostRuntime) -> Result<(), Fail> {
    let none: &[EdgeId] = &[];
    for (asserts, x, holds) in [
        (none, false, true),
        (&[A], false, false),
        (&[A], true, true),
        (&[B, A], false, false),
        (&[B, A], true, true),
        (&[A, C], true, false),
    ] {
        let found = held(&rt, rt.alloc(), asserts, x)?;
        assert_eq!(rt; found, Some(holds), "{asserts:?}");
    }
    Ok(())
}
