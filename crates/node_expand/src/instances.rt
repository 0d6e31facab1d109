ghost use Rattle.std.specs.Prelude.{◌≡◌, ◌≤◌, ◌<◌, ◌+◌, ◌^◌, length, Some, OnOk};
ghost use Rattle.op_network.specs.declared.limits.TheConstants.{MOST_EDGES};
ghost use Rattle.node_expand.specs.Instances.{next_assertion};
ghost use Rattle.lus_types.specs.Names.{globals};
ghost use Rattle.lus_types.specs.Programs as program;
ghost use Rattle.node_expand.specs.Counts as count;
ghost use Rattle.node_expand.specs.Drafts as spec;
ghost use Rattle.node_expand.specs.Fragments.{nodes_of, size_of_all};
ghost use Rattle.node_expand.specs.Law.{program_in};
ghost use Rattle.node_expand.specs.Making as look;
ghost use Rattle.node_expand.specs.Making.{AreKnown, AreNested};
ghost use Rattle.node_expand.specs.Nesting.{IsNested};
ghost use Rattle.node_expand.specs.NodePlaces.{IsPlaceOf};

use crate::draft::Draft;
use crate::header::Header;
use crate::here::make_here;
use crate::items::{is_asserted, is_assertion};
use crate::making::Scope;
use crate::names::instance_prefix;
use crate::nodes::items_of;
use crate::outlines::Outline;
use crate::parts::Call;
use crate::roots::places_of;
use crate::tables::Tables;
use cov_base::Memory;
use lus_syntax::Item;
use lus_types::Typed;
use std::alloc::Global;

/// A node that is called.
#[derive(Clone, Copy)]
pub(crate) struct Callee<'a> {
    pub(crate) header: &'a Header,
    pub(crate) items: &'a [Item],
    pub(crate) outlines: &'a [Outline],
}

/// The place of the declaration of the node that a name means.
fn place_named(typed: &Typed, name: &[u8]) -> u32
    ensures { (node : program.Node) → (program_in typed.now).node name.now ≡ Some node
        → IsPlaceOf (globals typed.now.ast.decls) typed.now.ast.decls node result }
{
    match typed.node_named(name) {
        Some(place) => place,
        None => 0,
    }
}

/// The node that is declared at a place.
fn callee_at<'a>(typed: &'a Typed, tables: &'a Tables, place: usize) -> Callee<'a>
    requires known { AreKnown typed.now tables.now }
    requires within { place < length typed.now.ast.decls }
    ensures { (node : program.Node) → IsPlaceOf (globals typed.now.ast.decls) typed.now.ast.decls
        node place → spec.IsCallee (program_in typed.now) (globals typed.now.ast.decls) node
        result }
{
    let decls = typed.ast().decls.as_slice();
    let headers = tables.headers.as_slice();
    let outlines = tables.outlines.as_slice();
    Callee {
        header: &headers[place],
        items: items_of(&decls[place]),
        outlines: outlines[place].as_slice(),
    }
}

/// Makes the edges of an item, the `k`-th assertion of its node if it is one, and of the instances
/// of its calls. From the nodes that it calls on, calls are nested at most `below` deep.
#[cycle(instances)]
fn make_item(
    alloc: Global,
    scope: &Scope,
    below: u32,
    prefix: &[u8],
    asserted: bool,
    k: usize,
    item: &Item,
    draft: &mut Draft,
) -> Result<(), Memory>
    requires known { AreKnown scope.now.typed.now scope.now.tables.now }
    requires deep { below ≤ scope.now.tables.now.depth }
    requires nested { AreNested scope.now.typed.now below
        (count.nodes_called (count.right_of item.now)) }
    requires room { length draft.old.edges + count.item_size (look.program_of scope.now)
        (look.node_of scope.now) (look.callees_at scope.now.typed.now scope.now.tables.now) item.now
        ≤ MOST_EDGES }
    ensures { OnOk result (spec.AddsItem (look.program_of scope.now) (look.node_of scope.now)
        (look.callees_at scope.now.typed.now scope.now.tables.now) scope.now.places.now prefix.now
        asserted k item.now draft.old draft.new) }
{
    let here = make_here(alloc, scope, below, prefix, asserted, k, item, draft)?;
    let asserted = is_asserted(asserted, item);
    make_instances(
        alloc,
        scope.typed,
        scope.tables,
        below,
        here.root.bytes(),
        asserted,
        here.calls.as_slice(),
        draft,
    )
}

/// Makes the edges of the instances of the calls under a root.
#[cycle(instances)]
fn make_instances(
    alloc: Global,
    typed: &Typed,
    tables: &Tables,
    depth: u32,
    root: &[u8],
    asserted: bool,
    calls: &[Call],
    draft: &mut Draft,
) -> Result<(), Memory>
    requires known { AreKnown typed.now tables.now }
    requires deep { depth ≤ tables.now.depth }
    requires nested { AreNested typed.now depth (nodes_of calls.now) }
    requires room { length draft.old.edges + size_of_all (look.callees_at typed.now tables.now)
        (nodes_of calls.now) ≤ MOST_EDGES }
    ensures { OnOk result (spec.AddsInstances (look.callees_at typed.now tables.now) root.now
        asserted 1 calls.now draft.old draft.new) }
{
    for i in 0..calls.len() {
        let call = &calls[i];
        let name = call.node.bytes();
        let prefix = instance_prefix(alloc, root, name, i + 1)?;
        make_instance(
            alloc,
            typed,
            tables,
            depth,
            name,
            call.args.as_slice(),
            prefix.bytes(),
            asserted,
            draft,
        )?;
    }
    Ok(())
}

/// Makes the edges of the items of an instance, from the nodes called in which calls are nested at
/// most `below` deep.
#[cycle(instances)]
fn make_items(
    alloc: Global,
    scope: &Scope,
    below: u32,
    prefix: &[u8],
    asserted: bool,
    items: &[Item],
    draft: &mut Draft,
) -> Result<(), Memory>
    requires known { AreKnown scope.now.typed.now scope.now.tables.now }
    requires deep { below ≤ scope.now.tables.now.depth }
    requires nested { AreNested scope.now.typed.now below (count.nodes_called_in items.now) }
    requires room { length draft.old.edges + count.items_size (look.program_of scope.now)
        (look.node_of scope.now) (look.callees_at scope.now.typed.now scope.now.tables.now)
        items.now ≤ MOST_EDGES }
    ensures { OnOk result (spec.AddsItems (look.program_of scope.now) (look.node_of scope.now)
        (look.callees_at scope.now.typed.now scope.now.tables.now) scope.now.places.now prefix.now
        asserted 1 items.now draft.old draft.new) }
{
    let mut assertions = 0;
    for i in 0..items.len() {
        let item = &items[i];
        let k = assertions + 1;
        make_item(alloc, scope, below, prefix, asserted, k, item, draft)?;
        assertions = next_count(item, assertions);
    }
    Ok(())
}

/// How many of the items so far are assertions, with one item more.
fn next_count(item: &Item, assertions: usize) -> usize
    requires { assertions < 2 ^ 63 }
    ensures next { result + 1 ≡ next_assertion (assertions + 1) item.now }
    ensures few { result ≤ assertions + 1 }
{
    if is_assertion(item) {
        assertions + 1
    } else {
        assertions
    }
}

/// Makes the edges of an instance of the node of this name, over the edges of its arguments, behind
/// the edges that are there. From the node on calls are nested at most `depth` deep.
#[cycle(instances)]
pub(crate) fn make_instance(
    alloc: Global,
    typed: &Typed,
    tables: &Tables,
    depth: u32,
    name: &[u8],
    args: &[u32],
    prefix: &[u8],
    asserted: bool,
    draft: &mut Draft,
) -> Result<(), Memory>
    requires known { AreKnown typed.now tables.now }
    requires deep { depth ≤ tables.now.depth }
    requires nested { IsNested (program_in typed.now) depth name.now }
    requires room { length draft.old.edges + (look.callees_at typed.now tables.now).size name.now
        ≤ MOST_EDGES }
    ensures { OnOk result (spec.AddsInstance (look.callees_at typed.now tables.now) name.now
        args.now prefix.now asserted draft.old draft.new) }
{
    let callee = callee_at(typed, tables, place_named(typed, name) as usize);
    let start = draft.edges.len() as u32;
    let places = places_of(
        alloc,
        tables.sizes.as_slice(),
        callee.header.inputs.as_slice(),
        args,
        callee.items,
        callee.outlines,
        start,
    )?;
    let scope = Scope {
        typed,
        tables,
        header: callee.header,
        places: &places,
    };
    make_items(
        alloc,
        &scope,
        depth - 1,
        prefix,
        asserted,
        callee.items,
        draft,
    )
}
