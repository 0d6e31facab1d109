use super::conditions;
use crate::path::Condition;
use cov_base::{List, Text};
use op_network::{Edge, EdgeId, Network, Op, Parts, Ty, Value};
use std::alloc::Global;
use std::process::Abort;
use std::test::Fail;

/// An edge: its operator, its type, whether it has a name of its own, and whether it is asserted.
type Row = (Op, Ty, bool, bool);

/// Asks that a network of these edges, of which the first alone is an input, has its conditions at
/// these ports.
fn expect(rt: &impl Abort, alloc: Global, rows: &[Row], ports: &[(u32, u8)]) -> Result<(), Fail> {
    let mut edges = List::new(alloc);
    for (op, ty, named, asserted) in rows {
        let place = edges.len();
        let name = format!(in alloc; "v{place}")?;
        edges.push(Edge {
            op: *op,
            ty: *ty,
            name: Text::from_bytes(alloc, name.as_bytes())?,
            named: *named,
            asserted: *asserted,
        })?;
    }
    let mut inputs = List::new(alloc);
    inputs.push(EdgeId(0))?;
    let parts = Parts {
        width: 32,
        choices: List::new(alloc),
        edges,
        inputs,
        outputs: List::new(alloc),
        asserts: List::new(alloc),
    };
    assert!(rt; parts.valid());
    let found = conditions(alloc, &Network::build(parts))?;
    let mut wanted = List::new(alloc);
    for (edge, port) in ports {
        wanted.push(Condition {
            edge: EdgeId(*edge),
            port: *port,
        })?;
    }
    assert_eq!(rt; found.as_slice(), wanted.as_slice());
    Ok(())
}

/// `y = false -> x and not pre x`.
#[test]
fn constants_and_inner_links_are_no_conditions(rt: HostRuntime) -> Result<(), Fail> {
    let rows = [
        (Op::Input(0), Ty::Truth, true, false),
        (Op::Arrow(EdgeId(2), EdgeId(3)), Ty::Truth, true, false),
        (Op::Const(Value::Truth(false)), Ty::Truth, false, false),
        (Op::And(EdgeId(0), EdgeId(4)), Ty::Truth, false, false),
        (Op::Not(EdgeId(5)), Ty::Truth, false, false),
        (Op::Pre(EdgeId(0)), Ty::Truth, false, false),
    ];
    expect(&rt, rt.alloc(), &rows, &[(3, 0), (4, 0), (5, 0)])
}

/// `y = (x = b) or 1 < 1` with `b = x <> x`, and an assertion of `b and x`. The `=` of truths has
/// no name and is a link, `<` is none; words are no conditions.
#[test]
fn asserted_edges_and_words_have_none(rt: HostRuntime) -> Result<(), Fail> {
    let rows = [
        (Op::Input(0), Ty::Truth, true, false),
        (Op::Ne(EdgeId(0), EdgeId(0)), Ty::Truth, true, false),
        (Op::Eq(EdgeId(0), EdgeId(1)), Ty::Truth, false, false),
        (Op::Or(EdgeId(2), EdgeId(5)), Ty::Truth, true, false),
        (Op::Const(Value::Word(1)), Ty::Word, false, false),
        (Op::Lt(EdgeId(4), EdgeId(4)), Ty::Truth, false, false),
        (Op::And(EdgeId(1), EdgeId(0)), Ty::Truth, true, true),
    ];
    let ports = [(1, 0), (1, 1), (2, 0), (2, 1), (3, 1)];
    expect(&rt, rt.alloc(), &rows, &ports)
}
