ghost use Rattle.std.specs.Prelude.{◌≡◌, ◌≤◌, [], ◌∷◌, ◌++◌, length, replicate, IfErr, IfOk, OnOk};
ghost use Rattle.std.specs.List.{flat_map};
ghost use Rattle.lus_types.specs.Calls.{called_names, called_in, called_by};
ghost use Rattle.lus_types.specs.Graphs.{AddsCaller, AreCallers, callees, call_rows, node_place};
ghost use Rattle.lus_types.specs.Views.{globals_seen};

use crate::fault::TypeFault;
use crate::limits::MOST_DECLS;
use crate::names::table::NameTable;
use crate::nodes::header::meaning_in;
use crate::types::Meaning;
use cov_base::List;
use lus_syntax::{Decl, Expr, ExprKind, Item};
use std::alloc::Global;

/// Adds the node that a name means, if it means one.
fn add_callee(names: &NameTable<Meaning>, name: &[u8], row: &mut List<u32>) -> Result<(), TypeFault>
    ensures ok { OnOk result (row.new ≡ row.old ++ node_place (globals_seen names.now name.now)) }
    ensures err { IfErr result (λ fault. fault ≡ TypeFault.Memory) }
{
    match meaning_in(names, name) {
        Some(Meaning::Node(place)) => {
            row.add(place)?;
            Ok(())
        }
        Some(Meaning::Enumeration(_)) => Ok(()),
        Some(Meaning::Constant(_)) => Ok(()),
        Some(Meaning::Enumerator(_, _)) => Ok(()),
        None => Ok(()),
    }
}

/// Adds the nodes that the arguments of a call call.
#[cycle(callees)]
fn add_from_args(
    names: &NameTable<Meaning>,
    args: &[Expr],
    row: &mut List<u32>,
) -> Result<(), TypeFault>
    ensures ok { OnOk result (row.new ≡ row.old ++ callees (globals_seen names.now)
        (flat_map called_names args.now)) }
    ensures err { IfErr result (λ fault. fault ≡ TypeFault.Memory) }
{
    for arg in args {
        add_from(names, arg, row)?;
    }
    Ok(())
}

/// Adds the nodes that an expression calls.
#[cycle(callees)]
fn add_from(names: &NameTable<Meaning>, expr: &Expr, row: &mut List<u32>) -> Result<(), TypeFault>
    ensures ok { OnOk result (row.new
        ≡ row.old ++ callees (globals_seen names.now) (called_names expr.now)) }
    ensures err { IfErr result (λ fault. fault ≡ TypeFault.Memory) }
{
    match &expr.kind {
        ExprKind::Name(_) => Ok(()),
        ExprKind::Number(_) => Ok(()),
        ExprKind::Truth(_) => Ok(()),
        ExprKind::One(_, a) => add_from(names, a.get(), row),
        ExprKind::Two(_, a, b) => {
            add_from(names, a.get(), row)?;
            add_from(names, b.get(), row)
        }
        ExprKind::Cond(a, b, c) => {
            add_from(names, a.get(), row)?;
            add_from(names, b.get(), row)?;
            add_from(names, c.get(), row)
        }
        ExprKind::Call(name, args) => {
            add_from_args(names, args.as_slice(), row)?;
            add_callee(names, name.bytes(), row)
        }
    }
}

/// Adds the nodes that an item calls.
fn add_from_item(
    names: &NameTable<Meaning>,
    item: &Item,
    row: &mut List<u32>,
) -> Result<(), TypeFault>
    ensures ok { OnOk result (row.new
        ≡ row.old ++ callees (globals_seen names.now) (called_in item.now)) }
    ensures err { IfErr result (λ fault. fault ≡ TypeFault.Memory) }
{
    match item {
        Item::Assert { expr, .. } => add_from(names, expr, row),
        Item::Equation { expr, .. } => add_from(names, expr, row),
    }
}

/// Adds the nodes that items call.
fn add_from_items(
    names: &NameTable<Meaning>,
    items: &[Item],
    row: &mut List<u32>,
) -> Result<(), TypeFault>
    ensures ok { OnOk result (row.new ≡ row.old ++ callees (globals_seen names.now)
        (flat_map called_in items.now)) }
    ensures err { IfErr result (λ fault. fault ≡ TypeFault.Memory) }
{
    for item in items {
        add_from_item(names, item, row)?;
    }
    Ok(())
}

/// The nodes that a declaration calls, in the order of the text.
fn callees_of(
    alloc: Global,
    names: &NameTable<Meaning>,
    decl: &Decl,
) -> Result<List<u32>, TypeFault>
    ensures ok { IfOk result (λ row. row ≡ callees (globals_seen names.now) (called_by decl.now)) }
    ensures err { IfErr result (λ fault. fault ≡ TypeFault.Memory) }
{
    let mut row = List::new(alloc);
    match decl {
        Decl::TypeDecl { .. } => Ok(row),
        Decl::ConstDecl { .. } => Ok(row),
        Decl::NodeDecl { items, .. } => {
            add_from_items(names, items.as_slice(), &mut row)?;
            Ok(row)
        }
    }
}

/// For each declaration the nodes that it calls.
pub(crate) fn rows_of_callees(
    alloc: Global,
    names: &NameTable<Meaning>,
    decls: &[Decl],
) -> Result<List<List<u32>>, TypeFault>
    ensures ok { IfOk result (λ rows. rows ≡ call_rows (globals_seen names.now) decls.now) }
    ensures err { IfErr result (λ fault. fault ≡ TypeFault.Memory) }
{
    let mut rows = List::new(alloc);
    for decl in decls {
        let row = callees_of(alloc, names, decl)?;
        rows.add(row)?;
    }
    Ok(rows)
}

/// Adds a caller to the row of a place, if there is one.
#[tactic(auto, using(crate::proofs::CallRows::adds_past))]
fn add_caller(rows: &mut [List<u32>], caller: u32, place: u32) -> Result<(), TypeFault>
    ensures ok { OnOk result (AddsCaller caller (place ∷ []) rows.old rows.new) }
    ensures err { IfErr result (λ fault. fault ≡ TypeFault.Memory) }
{
    if place as usize >= rows.len() {
        return Ok(());
    }
    rows[place as usize].add(caller)?;
    Ok(())
}

/// Adds a caller to the rows of these places.
fn add_caller_to_all(rows: &mut [List<u32>], caller: u32, places: &[u32]) -> Result<(), TypeFault>
    ensures ok { OnOk result (AddsCaller caller places.now rows.old rows.new) }
    ensures err { IfErr result (λ fault. fault ≡ TypeFault.Memory) }
{
    for place in places {
        add_caller(rows, caller, *place)?;
    }
    Ok(())
}

/// So many rows without a place.
fn empty_rows(alloc: Global, len: usize) -> Result<List<List<u32>>, TypeFault>
    ensures ok { IfOk result (λ rows. rows ≡ replicate len []) }
    ensures err { IfErr result (λ fault. fault ≡ TypeFault.Memory) }
{
    let mut rows = List::new(alloc);
    for _row in 0..len {
        rows.add(List::new(alloc))?;
    }
    Ok(rows)
}

/// Adds each place to the rows of the places that its own row has.
fn add_all_callers(rows: &[List<u32>], back: &mut [List<u32>]) -> Result<(), TypeFault>
    requires few { length rows.now ≤ MOST_DECLS }
    requires none { back.old ≡ replicate (length rows.now) [] }
    ensures ok { OnOk result (AreCallers rows.now (length rows.now) back.new) }
    ensures err { IfErr result (λ fault. fault ≡ TypeFault.Memory) }
{
    for (caller, places) in rows.iter().enumerate() {
        add_caller_to_all(back, caller as u32, places.as_slice())?;
    }
    Ok(())
}

/// The rows turned round: for each place the places whose rows have it.
pub(crate) fn rows_of_callers(
    alloc: Global,
    rows: &[List<u32>],
) -> Result<List<List<u32>>, TypeFault>
    requires few { length rows.now ≤ MOST_DECLS }
    ensures ok { IfOk result (λ back. AreCallers rows.now (length rows.now) back) }
    ensures err { IfErr result (λ fault. fault ≡ TypeFault.Memory) }
{
    let mut back = empty_rows(alloc, rows.len())?;
    add_all_callers(rows, back.items_mut())?;
    Ok(back)
}
