ghost use Rattle.std.specs.Prelude.{◌≡◌, ◌++◌, ◌∷◌, [], map, OnOk, IfOk};
ghost use Rattle.std.specs.List.{flat_map};
ghost use Rattle.lus_types.specs.Names.{globals};
ghost use Rattle.node_expand.specs.Headers.{heads, heads_seen, node_seen};
ghost use Rattle.node_expand.specs.Law.{program_in};
ghost use Rattle.node_expand.specs.Outlines as spec;

use crate::counts::{id_count, own_count, right_of};
use crate::header::Header;
use crate::limits::MANY;
use crate::nodes::items_of;
use cov_base::{List, Memory};
use lus_syntax::{Expr, ExprKind, Item};
use lus_types::Typed;
use std::alloc::Global;

/// What the number of an item's edges is made of. `MANY` stands for any number from it on.
#[derive(Drop)]
pub(crate) struct Outline {
    /// How many roots are edges `Id`.
    pub(crate) ids: u32,
    /// How many edges the right side has of its own.
    pub(crate) own: u32,
    /// The places of the nodes that the right side calls, in pre-order. A name that means no node,
    /// which no typed program calls, has none.
    pub(crate) callees: List<Option<u32>>,
}

/// Adds the place of the node that a name means.
fn add_callee(typed: &Typed, name: &[u8], callees: &mut List<Option<u32>>) -> Result<(), Memory>
    ensures { OnOk result (callees.new
        ≡ callees.old ++ spec.callee (globals typed.now.ast.decls) name.now ∷ []) }
{
    callees.add(typed.node_named(name))
}

#[cycle(callees)]
fn add_callees_of_args(
    typed: &Typed,
    args: &[Expr],
    callees: &mut List<Option<u32>>,
) -> Result<(), Memory>
    ensures { OnOk result (callees.new
        ≡ callees.old ++ flat_map (spec.callees (globals typed.now.ast.decls)) args.now) }
{
    for arg in args {
        add_callees(typed, arg, callees)?;
    }
    Ok(())
}

/// Adds the places of the nodes that an expression calls, in pre-order.
#[cycle(callees)]
fn add_callees(typed: &Typed, expr: &Expr, callees: &mut List<Option<u32>>) -> Result<(), Memory>
    ensures { OnOk result (callees.new
        ≡ callees.old ++ spec.callees (globals typed.now.ast.decls) expr.now) }
{
    match &expr.kind {
        ExprKind::Name(_) => Ok(()),
        ExprKind::Number(_) => Ok(()),
        ExprKind::Truth(_) => Ok(()),
        ExprKind::One(_, a) => add_callees(typed, a.get(), callees),
        ExprKind::Two(_, a, b) => {
            add_callees(typed, a.get(), callees)?;
            add_callees(typed, b.get(), callees)
        }
        ExprKind::Cond(a, b, c) => {
            add_callees(typed, a.get(), callees)?;
            add_callees(typed, b.get(), callees)?;
            add_callees(typed, c.get(), callees)
        }
        ExprKind::Call(name, args) => {
            add_callee(typed, name.bytes(), callees)?;
            add_callees_of_args(typed, args.as_slice(), callees)
        }
    }
}

fn outline_of(alloc: Global, typed: &Typed, header: &Header, item: &Item) -> Result<Outline, Memory>
    ensures { IfOk result (λ o. o ≡ spec.outline (program_in typed.now)
        (globals typed.now.ast.decls) (node_seen header.now) item.now) }
{
    let mut callees = List::new(alloc);
    add_callees(typed, right_of(item), &mut callees)?;
    let ids = id_count(typed, header, item).min(MANY);
    let own = own_count(typed, header, right_of(item)).min(MANY);
    Ok(Outline { ids, own, callees })
}

fn outlines_of_items(
    alloc: Global,
    typed: &Typed,
    header: &Header,
    items: &[Item],
) -> Result<List<Outline>, Memory>
    ensures { IfOk result (λ outlines. outlines ≡ map (spec.outline (program_in typed.now)
        (globals typed.now.ast.decls) (node_seen header.now)) items.now) }
{
    let mut outlines = List::new(alloc);
    for item in items {
        let outline = outline_of(alloc, typed, header, item)?;
        outlines.add(outline)?;
    }
    Ok(outlines)
}

/// The outlines of the items of all declarations, by their places. The cost is linear in the text.
pub(crate) fn outlines_of(
    alloc: Global,
    typed: &Typed,
    headers: &[Header],
) -> Result<List<List<Outline>>, Memory>
    requires { heads_seen headers.now ≡ heads (globals typed.now.ast.decls) typed.now.ast.decls }
    ensures { IfOk result (λ outlines. outlines ≡ spec.all_outlines (program_in typed.now)
        (globals typed.now.ast.decls) typed.now.ast.decls) }
{
    let decls = typed.ast().decls.as_slice();
    let mut outlines = List::new(alloc);
    for place in 0..decls.len() {
        let items = items_of(&decls[place]);
        let of_items = outlines_of_items(alloc, typed, &headers[place], items)?;
        outlines.add(of_items)?;
    }
    Ok(outlines)
}
