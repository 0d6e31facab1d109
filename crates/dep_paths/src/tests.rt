use crate::path::{Criterion, Obligation, Pin, PlanFault, Step};
use crate::paths::list;
use crate::planned::Plan;
use crate::planning::plan;
use cov_base::{List, Text};
use op_network::{Edge, EdgeId, Network, Op, Parts, Ty, Value};
use std::alloc::Global;
use std::process::Abort;
use std::test::Fail;

/// Adds an edge of a type, which is called by its place, and tells whether it has a name of its
/// own.
fn add_edge(
    alloc: Global,
    op: Op,
    ty: Ty,
    named: bool,
    edges: &mut List<Edge>,
) -> Result<(), Fail> {
    let place = edges.len();
    let name = format!(in alloc; "v{place}")?;
    edges.push(Edge {
        op,
        ty,
        name: Text::from_bytes(alloc, name.as_bytes())?,
        named,
        asserted: false,
    })?;
    Ok(())
}

/// Adds an edge with a name of its own.
fn add_typed(alloc: Global, op: Op, ty: Ty, edges: &mut List<Edge>) -> Result<(), Fail> {
    add_edge(alloc, op, ty, true, edges)
}

/// Adds an edge of type `Truth` with a name of its own.
fn add(alloc: Global, op: Op, edges: &mut List<Edge>) -> Result<(), Fail> {
    add_typed(alloc, op, Ty::Truth, edges)
}

/// Adds an edge of type `Truth` without one.
fn add_inner(alloc: Global, op: Op, edges: &mut List<Edge>) -> Result<(), Fail> {
    add_edge(alloc, op, Ty::Truth, false, edges)
}

/// The parts of a network whose only input is its first edge.
fn parts_of(alloc: Global, edges: List<Edge>, output: u32) -> Result<Parts, Fail> {
    let mut inputs = List::new(alloc);
    inputs.push(EdgeId(0))?;
    let mut outputs = List::new(alloc);
    outputs.push(EdgeId(output))?;
    Ok(Parts {
        width: 32,
        choices: List::new(alloc),
        edges,
        inputs,
        outputs,
        asserts: List::new(alloc),
    })
}

/// `y = false -> x and not pre x`, where `y` is edge 1.
fn example(alloc: Global) -> Result<Parts, Fail> {
    let mut edges = List::new(alloc);
    add(alloc, Op::Input(0), &mut edges)?;
    add(alloc, Op::Arrow(EdgeId(2), EdgeId(3)), &mut edges)?;
    add_inner(alloc, Op::Const(Value::Truth(false)), &mut edges)?;
    add_inner(alloc, Op::And(EdgeId(0), EdgeId(4)), &mut edges)?;
    add_inner(alloc, Op::Not(EdgeId(5)), &mut edges)?;
    add_inner(alloc, Op::Pre(EdgeId(0)), &mut edges)?;
    parts_of(alloc, edges, 1)
}

/// `o = i + 1`, `c = o < i`, where `i` is edge 0, `o` edge 1 and `c` edge 3.
fn words(alloc: Global) -> Result<Parts, Fail> {
    let mut edges = List::new(alloc);
    add_typed(alloc, Op::Input(0), Ty::Word, &mut edges)?;
    add_typed(alloc, Op::Add(EdgeId(0), EdgeId(2)), Ty::Word, &mut edges)?;
    add_typed(alloc, Op::Const(Value::Word(1)), Ty::Word, &mut edges)?;
    add(alloc, Op::Lt(EdgeId(1), EdgeId(0)), &mut edges)?;
    let mut parts = parts_of(alloc, edges, 1)?;
    parts.outputs.push(EdgeId(3))?;
    Ok(parts)
}

/// `v1 = x and x`, `v2 = v1 and v1`, and so on, with the last as the output.
fn doublings(alloc: Global, count: u32) -> Result<Parts, Fail> {
    let mut edges = List::new(alloc);
    add(alloc, Op::Input(0), &mut edges)?;
    for before in 0..count {
        add(alloc, Op::And(EdgeId(before), EdgeId(before)), &mut edges)?;
    }
    parts_of(alloc, edges, count)
}

/// `y = x and pre y`, where `y` is edge 1: a path for each number of turns.
fn turns(alloc: Global) -> Result<Parts, Fail> {
    let mut edges = List::new(alloc);
    add(alloc, Op::Input(0), &mut edges)?;
    add(alloc, Op::And(EdgeId(0), EdgeId(2)), &mut edges)?;
    add(alloc, Op::Pre(EdgeId(1)), &mut edges)?;
    parts_of(alloc, edges, 1)
}

/// The plan of a network, up to so many edges.
fn plan_of(rt: &impl Abort, alloc: Global, parts: Parts, n: u32) -> Result<Plan, Fail> {
    assert!(rt; parts.valid());
    assert!(rt; 1 <= n);
    assert!(rt; n <= 64);
    Ok(plan(alloc, &Network::build(parts), n)?)
}

/// How many obligations of a plan are of a criterion.
fn total(plan: &Plan, criterion: Criterion) -> usize {
    plan.duties()
        .iter()
        .filter(|duty| duty.criterion() == criterion)
        .count()
}

/// How many obligations a plan has of each criterion.
fn totals(plan: &Plan) -> [usize; 4] {
    [
        Criterion::Bc,
        Criterion::Ecc,
        Criterion::Mcc,
        Criterion::Omcdc,
    ]
    .map(|criterion| total(plan, criterion))
}

/// How many complete paths there are of at most `n` edges, if not too many.
fn count(rt: &impl Abort, alloc: Global, parts: Parts, n: u32) -> Result<Option<usize>, Fail> {
    assert!(rt; parts.valid());
    assert!(rt; 1 <= n);
    assert!(rt; n <= 64);
    match list(alloc, &Network::build(parts), n) {
        Ok(paths) => Ok(Some(paths.len())),
        Err(PlanFault::Paths) => Ok(None),
        Err(fault) => Err(fault)?,
    }
}

#[test]
fn the_example_has_two_paths(rt: HostRuntime) -> Result<(), Fail> {
    let alloc = rt.alloc();
    let parts = example(alloc)?;
    let plan = plan_of(&rt, alloc, parts, 5)?;
    let short = [
        Step {
            edge: EdgeId(3),
            port: 0,
        },
        Step {
            edge: EdgeId(1),
            port: 1,
        },
    ];
    let long = [
        Step {
            edge: EdgeId(5),
            port: 0,
        },
        Step {
            edge: EdgeId(4),
            port: 0,
        },
        Step {
            edge: EdgeId(3),
            port: 1,
        },
        Step {
            edge: EdgeId(1),
            port: 1,
        },
    ];
    assert_eq!(rt; plan.paths().len(), 2);
    assert_eq!(rt; plan.paths()[0].steps.as_slice(), short.as_slice());
    assert_eq!(rt; plan.paths()[1].steps.as_slice(), long.as_slice());
    assert_eq!(rt; count(&rt, alloc, example(alloc)?, 3)?, Some(1));
    Ok(())
}

#[test]
fn each_port_is_a_path(rt: HostRuntime) -> Result<(), Fail> {
    let alloc = rt.alloc();
    assert_eq!(rt; count(&rt, alloc, doublings(alloc, 1)?, 2)?, Some(2));
    assert_eq!(rt; count(&rt, alloc, doublings(alloc, 14)?, 15)?, Some(16_384));
    assert_eq!(rt; count(&rt, alloc, doublings(alloc, 15)?, 16)?, None);
    Ok(())
}

#[test]
fn what_is_too_long_is_not_followed(rt: HostRuntime) -> Result<(), Fail> {
    let alloc = rt.alloc();
    assert_eq!(rt; count(&rt, alloc, doublings(alloc, 15)?, 15)?, Some(0));
    assert_eq!(rt; count(&rt, alloc, doublings(alloc, 60)?, 60)?, Some(0));
    Ok(())
}

#[test]
fn a_loop_has_a_path_for_each_number_of_turns(rt: HostRuntime) -> Result<(), Fail> {
    let alloc = rt.alloc();
    assert_eq!(rt; count(&rt, alloc, turns(alloc)?, 2)?, Some(1));
    assert_eq!(rt; count(&rt, alloc, turns(alloc)?, 7)?, Some(3));
    assert_eq!(rt; count(&rt, alloc, turns(alloc)?, 64)?, Some(32));
    Ok(())
}

fn pin(path: u32, place: u8, value: bool) -> Obligation {
    let pin = Some(Pin { place, value });
    Obligation::Mcc { path, pin }
}

fn observed(condition: u32, value: bool) -> Obligation {
    Obligation::Omc { condition, value }
}

#[test]
fn each_criterion_has_its_obligations(rt: HostRuntime) -> Result<(), Fail> {
    let alloc = rt.alloc();
    let long = plan_of(&rt, alloc, example(alloc)?, 5)?;
    assert_eq!(rt; totals(&long), [2, 4, 16, 6]);
    let short = plan_of(&rt, alloc, example(alloc)?, 3)?;
    assert_eq!(rt; totals(&short), [1, 2, 6, 6]);
    let twice = plan_of(&rt, alloc, doublings(alloc, 1)?, 2)?;
    assert_eq!(rt; totals(&twice), [2, 4, 8, 4]);
    Ok(())
}

#[test]
fn obligations_stand_in_order(rt: HostRuntime) -> Result<(), Fail> {
    let alloc = rt.alloc();
    let plan = plan_of(&rt, alloc, example(alloc)?, 3)?;
    let duties = [
        Obligation::Bc { path: 0 },
        Obligation::Ecc {
            path: 0,
            value: Some(true),
        },
        Obligation::Ecc {
            path: 0,
            value: Some(false),
        },
        pin(0, 0, true),
        pin(0, 0, false),
        pin(0, 1, true),
        pin(0, 1, false),
        pin(0, 2, true),
        pin(0, 2, false),
        observed(0, true),
        observed(0, false),
        observed(1, true),
        observed(1, false),
        observed(2, true),
        observed(2, false),
    ];
    assert_eq!(rt; plan.duties(), duties.as_slice());
    Ok(())
}

#[test]
fn words_are_not_pinned(rt: HostRuntime) -> Result<(), Fail> {
    let alloc = rt.alloc();
    let plan = plan_of(&rt, alloc, words(alloc)?, 10)?;
    let duties = [
        Obligation::Bc { path: 0 },
        Obligation::Bc { path: 1 },
        Obligation::Bc { path: 2 },
        Obligation::Ecc {
            path: 0,
            value: None,
        },
        Obligation::Ecc {
            path: 1,
            value: None,
        },
        Obligation::Ecc {
            path: 2,
            value: None,
        },
        Obligation::Mcc { path: 0, pin: None },
        pin(1, 1, true),
        pin(1, 1, false),
        pin(2, 2, true),
        pin(2, 2, false),
    ];
    assert_eq!(rt; plan.duties(), duties.as_slice());
    Ok(())
}

#[test]
fn too_many_obligations_are_refused(rt: HostRuntime) -> Result<(), Fail> {
    let alloc = rt.alloc();
    let parts = doublings(alloc, 14)?;
    assert!(rt; parts.valid());
    match plan(alloc, &Network::build(parts), 15) {
        Err(fault) => assert_eq!(rt; fault, PlanFault::Obligations),
        Ok(_) => assert!(rt; false),
    }
    Ok(())
}
