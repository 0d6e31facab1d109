ghost use Rattle.std.specs.Prelude.{◌≡◌, min, is_some};
ghost use Rattle.lus_types.specs.Programs.{or_truth, type_of_name};
ghost use Rattle.node_expand.specs.Counts as spec;
ghost use Rattle.node_expand.specs.Headers.{node_seen};
ghost use Rattle.node_expand.specs.Law.{program_in};
ghost use Rattle.node_expand.specs.Names.{constant_in};

use crate::header::Header;
use lus_syntax::{Expr, ExprKind, Item};
use lus_types::{Constant, Typed};
use op_network::Ty;

/// The constant or enumerator that a name of a node means: the node's variables hide these.
pub(crate) fn constant_in(typed: &Typed, header: &Header, name: &[u8]) -> Option<Constant>
    ensures { result ≡ constant_in (program_in typed.now) (node_seen header.now) name.now }
{
    match header.types.get(name) {
        Some(_) => None,
        None => typed.constant_named(name),
    }
}

/// Whether an expression is an operator or a literal, and so has an edge for itself.
pub(crate) fn has_edge(typed: &Typed, header: &Header, expr: &Expr) -> bool
    ensures { result ≡ spec.has_edge (program_in typed.now) (node_seen header.now) expr.now }
{
    match &expr.kind {
        ExprKind::Name(name) => constant_in(typed, header, name.bytes()).is_some(),
        ExprKind::Call(_, _) => false,
        ExprKind::Number(_)
        | ExprKind::Truth(_)
        | ExprKind::One(_, _)
        | ExprKind::Two(_, _, _)
        | ExprKind::Cond(_, _, _) => true,
    }
}

/// How many edges of its own an expression has, or `u32::MAX` where there are more.
pub(crate) fn own_count(typed: &Typed, header: &Header, expr: &Expr) -> u32
    ensures { result
        ≡ min (spec.own_count (program_in typed.now) (node_seen header.now) expr.now) u32.MAX }
{
    match &expr.kind {
        ExprKind::Name(name) => u32::from(constant_in(typed, header, name.bytes()).is_some()),
        ExprKind::Number(_) | ExprKind::Truth(_) => 1,
        ExprKind::One(_, a) => own_count(typed, header, a.get()).saturating_add(1),
        ExprKind::Two(_, a, b) => own_count(typed, header, a.get())
            .saturating_add(own_count(typed, header, b.get()))
            .saturating_add(1),
        ExprKind::Cond(a, b, c) => own_count(typed, header, a.get())
            .saturating_add(own_count(typed, header, b.get()))
            .saturating_add(own_count(typed, header, c.get()))
            .saturating_add(1),
        ExprKind::Call(_, args) => {
            let mut sum: u32 = 0;
            for arg in args.as_slice() {
                sum = sum.saturating_add(own_count(typed, header, arg));
            }
            sum
        }
    }
}

/// The right side of an equation, or what an assertion asserts.
pub(crate) fn right_of(item: &Item) -> &Expr
    ensures { result.now ≡ spec.right_of item.now }
{
    match item {
        Item::Assert { expr, .. } => expr,
        Item::Equation { expr, .. } => expr,
    }
}

/// How many roots an item has: one for each name on its left, and one for an assertion.
/// `u32::MAX` stands for any number from it on.
fn root_count(item: &Item) -> u32
    ensures { result ≡ min (spec.root_count item.now) u32.MAX }
{
    match item {
        Item::Assert { .. } => 1,
        Item::Equation { left, .. } => left.len().min(u32::MAX as usize) as u32,
    }
}

/// How many roots of an item are edges `Id`: all, or none where the right side has an edge for
/// itself. `u32::MAX` stands for any number from it on.
pub(crate) fn id_count(typed: &Typed, header: &Header, item: &Item) -> u32
    ensures { result
        ≡ min (spec.id_count (program_in typed.now) (node_seen header.now) item.now) u32.MAX }
{
    if has_edge(typed, header, right_of(item)) {
        return 0;
    }
    root_count(item)
}

/// The type of what a name of a node means: of a variable, and else of a constant or an enumerator.
/// Each name of a typed program has one.
pub(crate) fn type_of_name(typed: &Typed, header: &Header, name: &[u8]) -> Ty
    ensures { result ≡ or_truth (type_of_name (program_in typed.now) (node_seen header.now)
        name.now) }
{
    match header.types.get(name) {
        Some(ty) => *ty,
        None => match typed.constant_named(name) {
            Some(constant) => constant.ty,
            None => Ty::Truth,
        },
    }
}
