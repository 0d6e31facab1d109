ghost use Rattle.std.specs.Prelude.{◌≡◌, ◌++◌, ◌+◌, ◌≤◌, ◌==◌, ◌||◌, ◌∷◌, [], true, map, unwrap_or, slice_get, OnOk, IfOk};
ghost use Rattle.node_expand.specs.Fragments.{edge};
ghost use Rattle.node_expand.specs.Headers.{node_seen};
ghost use Rattle.node_expand.specs.Instances as spec;
ghost use Rattle.node_expand.specs.Law.{program_in};
ghost use Rattle.node_expand.specs.Roots as look;
ghost use Rattle.node_expand.specs.Variables.{variable_seen};

use crate::counts::type_of_name;
use crate::header::{Header, Variable};
use crate::names::{assertion_name, edge_name, joined};
use crate::parts::Gate;
use cov_base::{List, Memory, Text};
use lus_syntax::{Item, Spot};
use lus_types::Typed;
use op_network::{Edge, EdgeId, Op, Ty};
use std::alloc::Global;

/// Whether an item is an assertion.
pub(crate) fn is_assertion(item: &Item) -> bool
    ensures { result ≡ spec.is_assertion item.now }
{
    match item {
        Item::Assert { .. } => true,
        Item::Equation { .. } => false,
    }
}

/// Whether the edges of an item are made for an assertion, in an instance that is or isn't.
pub(crate) fn is_asserted(asserted: bool, item: &Item) -> bool
    ensures { result ≡ (asserted || spec.is_assertion item.now) }
{
    asserted || is_assertion(item)
}

/// The names on a left side, with their types.
fn left_roots(
    alloc: Global,
    typed: &Typed,
    header: &Header,
    left: &[Spot],
) -> Result<List<Variable>, Memory>
    ensures { IfOk result (λ roots. roots
        ≡ map (look.left_root (program_in typed.now) (node_seen header.now)) left.now) }
{
    let mut roots = List::new(alloc);
    for spot in left {
        let name = spot.text.copy(alloc)?;
        let ty = type_of_name(typed, header, spot.text.bytes());
        roots.add(Variable { name, ty })?;
    }
    Ok(roots)
}

fn assertion_root(alloc: Global, k: usize) -> Result<List<Variable>, Memory>
    ensures { IfOk result (λ roots. roots ≡ look.assertion_root k ∷ []) }
{
    let mut roots = List::new(alloc);
    let name = assertion_name(alloc, k)?;
    roots.add(Variable {
        name,
        ty: Ty::Truth,
    })?;
    Ok(roots)
}

/// The roots of an item: one for each variable that it defines, and one for an assertion, the
/// `k`-th of its node.
pub(crate) fn roots_of(
    alloc: Global,
    typed: &Typed,
    header: &Header,
    item: &Item,
    k: usize,
) -> Result<List<Variable>, Memory>
    ensures { IfOk result (λ roots. roots
        ≡ look.item_roots (program_in typed.now) (node_seen header.now) k item.now) }
{
    match item {
        Item::Assert { .. } => assertion_root(alloc, k),
        Item::Equation { left, .. } => left_roots(alloc, typed, header, left.as_slice()),
    }
}

/// The name of the first root, or nothing.
pub(crate) fn first_name(roots: &[Variable]) -> &[u8]
    ensures { result.now ≡ look.first_root roots.now }
{
    match roots {
        [] => &[],
        [root, ..] => root.name.bytes(),
    }
}

/// The value at a place, or 0.
fn value_at(values: &[u32], i: usize) -> u32
    ensures { result ≡ unwrap_or (slice_get values.now i) 0 }
{
    match values.get(i) {
        Some(edge) => *edge,
        None => 0,
    }
}

/// Adds a root that is `Id` of an edge.
fn add_id(
    alloc: Global,
    prefix: &[u8],
    asserted: bool,
    root: &Variable,
    value: u32,
    edges: &mut List<Edge>,
) -> Result<(), Memory>
    ensures { OnOk result (edges.new
        ≡ edges.old ++ look.id_edge prefix.now asserted root.now value ∷ []) }
{
    let name = joined(alloc, prefix, root.name.bytes())?;
    edges.add(Edge {
        op: Op::Id(EdgeId(value)),
        ty: root.ty,
        name,
        named: true,
        asserted,
    })
}

/// Adds roots that are `Id`, of the values of the right side.
pub(crate) fn add_ids(
    alloc: Global,
    prefix: &[u8],
    asserted: bool,
    roots: &[Variable],
    values: &[u32],
    edges: &mut List<Edge>,
) -> Result<(), Memory>
    ensures { OnOk result (edges.new ≡ edges.old
        ++ spec.id_edges prefix.now asserted (map variable_seen roots.now) values.now) }
{
    for i in 0..roots.len() {
        let value = value_at(values, i);
        add_id(alloc, prefix, asserted, &roots[i], value, edges)?;
    }
    Ok(())
}

fn add_edge(
    edges: &mut List<Edge>,
    gate: Gate,
    name: Text,
    named: bool,
    asserted: bool,
) -> Result<(), Memory>
    ensures { OnOk result (edges.new ≡ edges.old ++ look.edge_of gate name named asserted ∷ []) }
{
    edges.add(Edge {
        op: gate.op,
        ty: gate.ty,
        name,
        named,
        asserted,
    })
}

/// Adds the own edges of a right side whose first root has this name. Where the root is one of
/// them, it is the first, which is the 0th; else the first is the 1st.
pub(crate) fn add_own(
    alloc: Global,
    root: &[u8],
    asserted: bool,
    first: usize,
    gates: &[Gate],
    edges: &mut List<Edge>,
) -> Result<(), Memory>
    requires { first ≤ 1 }
    ensures { OnOk result (edges.new ≡ edges.old
        ++ spec.own_edges root.now asserted first gates.now) }
{
    for i in 0..gates.len() {
        let k = first + i;
        let name = edge_name(alloc, root, k)?;
        add_edge(edges, gates[i], name, k == 0, asserted)?;
    }
    Ok(())
}
