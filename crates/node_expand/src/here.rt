ghost use Rattle.std.specs.Prelude.{◌≡◌, ◌≤◌, ◌+◌, ◌++◌, map, length, OnOk, IfOk};
ghost use Rattle.op_network.specs.declared.limits.TheConstants.{MOST_EDGES};
ghost use Rattle.node_expand.specs.Counts as count;
ghost use Rattle.node_expand.specs.Drafts as spec;
ghost use Rattle.node_expand.specs.Fragments.{edge};
ghost use Rattle.node_expand.specs.Instances.{root_asserts};
ghost use Rattle.node_expand.specs.Making as look;
ghost use Rattle.node_expand.specs.Making.{AreKnown, AreNested};
ghost use Rattle.node_expand.specs.Variables.{variable_seen};

use crate::counts::{has_edge, id_count, own_count, right_of};
use crate::draft::Draft;
use crate::header::Variable;
use crate::items::{add_ids, add_own, first_name, is_asserted, roots_of};
use crate::making::Scope;
use crate::names::joined;
use crate::parts::Call;
use crate::right::{Right, make_right};
use cov_base::{List, Memory, Text};
use lus_syntax::Item;
use op_network::{Edge, EdgeId};
use std::alloc::Global;

/// What is left to be made of an item: the instances of its calls, under the name of its first
/// root.
#[derive(Debug, Drop)]
pub(crate) struct Here {
    pub(crate) root: Text,
    pub(crate) calls: List<Call>,
}

/// Adds the roots and the other edges of an item, without those of the instances of its calls.
fn add_edges(
    alloc: Global,
    prefix: &[u8],
    root: &[u8],
    asserted: bool,
    is_root: bool,
    roots: &[Variable],
    right: &Right,
    edges: &mut List<Edge>,
) -> Result<(), Memory>
    ensures { OnOk result (edges.new ≡ edges.old ++ spec.edges_here prefix.now root.now asserted
        is_root (map variable_seen roots.now) right.now.values right.now.gates) }
{
    if is_root {
        return add_own(alloc, root, asserted, 0, right.gates.as_slice(), edges);
    }
    add_ids(
        alloc,
        prefix,
        asserted,
        roots,
        right.values.as_slice(),
        edges,
    )?;
    add_own(alloc, root, asserted, 1, right.gates.as_slice(), edges)
}

/// Adds the root of an item to those of assertions, if it is one.
fn add_assert(item: &Item, root: u32, asserts: &mut List<EdgeId>) -> Result<(), Memory>
    ensures { OnOk result (asserts.new ≡ asserts.old ++ map edge (root_asserts root item.now)) }
{
    match item {
        Item::Assert { .. } => asserts.add(EdgeId(root)),
        Item::Equation { .. } => Ok(()),
    }
}

/// Makes the roots and the other edges of an item, the `k`-th assertion of its node if it is one.
/// From the nodes that it calls on, calls are nested at most `below` deep.
pub(crate) fn make_here(
    alloc: Global,
    scope: &Scope,
    below: u32,
    prefix: &[u8],
    asserted: bool,
    k: usize,
    item: &Item,
    draft: &mut Draft,
) -> Result<Here, Memory>
    requires known { AreKnown scope.now.typed.now scope.now.tables.now }
    requires deep { below ≤ scope.now.tables.now.depth }
    requires nested { AreNested scope.now.typed.now below
        (count.nodes_called (count.right_of item.now)) }
    requires room { length draft.old.edges + count.item_size (look.program_of scope.now)
        (look.node_of scope.now) (look.callees_at scope.now.typed.now scope.now.tables.now) item.now
        ≤ MOST_EDGES }
    ensures { IfOk result (spec.AddsEdges (look.program_of scope.now) (look.node_of scope.now)
        (look.callees_at scope.now.typed.now scope.now.tables.now) scope.now.places.now prefix.now
        asserted k item.now draft.old draft.new) }
{
    let _below = below;
    let next = draft.edges.len() as u32;
    let expr = right_of(item);
    let at = next + id_count(scope.typed, scope.header, item);
    let inner = at + own_count(scope.typed, scope.header, expr);
    let right = make_right(alloc, scope, expr, at, inner)?;
    let roots = roots_of(alloc, scope.typed, scope.header, item, k)?;
    let root = joined(alloc, prefix, first_name(roots.as_slice()))?;
    let asserted = is_asserted(asserted, item);
    let is_root = has_edge(scope.typed, scope.header, expr);
    let edges = &mut draft.edges;
    add_edges(
        alloc,
        prefix,
        root.bytes(),
        asserted,
        is_root,
        roots.as_slice(),
        &right,
        edges,
    )?;
    add_assert(item, next, &mut draft.asserts)?;
    let Right { calls, .. } = right;
    Ok(Here { root, calls })
}
