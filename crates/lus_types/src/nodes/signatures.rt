ghost use Rattle.std.specs.Prelude.{◌≡◌, [], ◌∷◌, IfErr, IfOk, OnOk};
ghost use Rattle.lus_types.specs.Names.{Name, entry_of, is_among, left_of, lefts, spot_names};
ghost use Rattle.lus_types.specs.NameTables.{among_either};
ghost use Rattle.lus_types.specs.Signatures as spec;
ghost use Rattle.lus_types.specs.Views.{globals_seen};

use crate::expressions::scope::{Signature, Variable};
use crate::fault::TypeFault;
use crate::names::set::NameSet;
use crate::names::table::NameTable;
use crate::nodes::variables::add_groups;
use crate::types::Meaning;
use cov_base::List;
use lus_syntax::{Decl, Group, Item, Spot};
use std::alloc::Global;

/// Adds a name, if the set lacks it.
#[tactic(auto, using(crate::proofs::Among::among_append, crate::proofs::Among::among_there))]
fn put(alloc: Global, names: &mut NameSet, name: &[u8]) -> Result<(), TypeFault>
    ensures ok { OnOk result ((x : Name) → is_among x names.new
        ≡ among_either x names.old (name.now ∷ [])) }
    ensures err { IfErr result (λ fault. fault ≡ TypeFault.Memory) }
{
    names.add(alloc, name)?;
    Ok(())
}

/// Adds names to a set.
fn add_all(alloc: Global, names: &mut NameSet, spots: &[Spot]) -> Result<(), TypeFault>
    ensures ok { OnOk result ((x : Name) → is_among x names.new ≡ among_either x names.old
        (spot_names spots.now)) }
    ensures err { IfErr result (λ fault. fault ≡ TypeFault.Memory) }
{
    for spot in spots {
        put(alloc, names, spot.text.bytes())?;
    }
    Ok(())
}

/// Adds the names on the left side of an item.
fn add_left(alloc: Global, names: &mut NameSet, item: &Item) -> Result<(), TypeFault>
    ensures ok { OnOk result ((x : Name) → is_among x names.new ≡ among_either x names.old
        (left_of item.now)) }
    ensures err { IfErr result (λ fault. fault ≡ TypeFault.Memory) }
{
    match item {
        Item::Assert { .. } => Ok(()),
        Item::Equation { left, .. } => add_all(alloc, names, left.as_slice()),
    }
}

/// The names that have equations.
pub(crate) fn defined_in(alloc: Global, items: &[Item]) -> Result<NameSet, TypeFault>
    ensures ok { IfOk result (λ names. (x : Name) → is_among x names
        ≡ is_among x (lefts items.now)) }
    ensures err { IfErr result (λ fault. fault ≡ TypeFault.Memory) }
{
    let mut names = NameSet::new(alloc);
    for item in items {
        add_left(alloc, &mut names, item)?;
    }
    Ok(names)
}

/// The variables of a node.
pub(crate) fn node_variables(
    alloc: Global,
    globals: &NameTable<Meaning>,
    items: &[Item],
    inputs: &[Group],
    outputs: &[Group],
    locals: &[Group],
) -> Result<NameTable<Variable>, TypeFault>
    ensures ok { IfOk result (λ table. (x : Name) → entry_of table x ≡ spec.variables
        (globals_seen globals.now) items.now inputs.now outputs.now locals.now x) }
    ensures err { IfErr result (λ fault. fault ≡ TypeFault.Memory) }
{
    let defined = defined_in(alloc, items)?;
    let mut table = NameTable::new(alloc);
    let mut tys = List::new(alloc);
    add_groups(alloc, globals, true, &defined, &mut table, &mut tys, inputs)?;
    add_groups(
        alloc, globals, false, &defined, &mut table, &mut tys, outputs,
    )?;
    add_groups(
        alloc, globals, false, &defined, &mut table, &mut tys, locals,
    )?;
    Ok(table)
}

/// The signature of a node.
fn node_signature(
    alloc: Global,
    globals: &NameTable<Meaning>,
    items: &[Item],
    inputs: &[Group],
    outputs: &[Group],
) -> Result<Signature, TypeFault>
    ensures ok { IfOk result (λ s. s ≡ spec.node_signature (globals_seen globals.now) items.now
        inputs.now outputs.now) }
    ensures err { IfErr result (λ fault. fault ≡ TypeFault.Memory) }
{
    let defined = defined_in(alloc, items)?;
    let mut table = NameTable::new(alloc);
    let mut params = List::new(alloc);
    let mut results = List::new(alloc);
    add_groups(
        alloc,
        globals,
        true,
        &defined,
        &mut table,
        &mut params,
        inputs,
    )?;
    add_groups(
        alloc,
        globals,
        false,
        &defined,
        &mut table,
        &mut results,
        outputs,
    )?;
    Ok(Signature { params, results })
}

/// The signature of a declaration, if it is a node.
fn signature(
    alloc: Global,
    globals: &NameTable<Meaning>,
    decl: &Decl,
) -> Result<Option<Signature>, TypeFault>
    ensures ok { IfOk result (λ s. s ≡ spec.signature (globals_seen globals.now) decl.now) }
    ensures err { IfErr result (λ fault. fault ≡ TypeFault.Memory) }
{
    match decl {
        Decl::NodeDecl {
            inputs,
            outputs,
            items,
            ..
        } => {
            let signature = node_signature(
                alloc,
                globals,
                items.as_slice(),
                inputs.as_slice(),
                outputs.as_slice(),
            )?;
            Ok(Some(signature))
        }
        Decl::TypeDecl { .. } => Ok(None),
        Decl::ConstDecl { .. } => Ok(None),
    }
}

/// The signatures of the nodes, by the places of their declarations.
pub(crate) fn signatures_of(
    alloc: Global,
    globals: &NameTable<Meaning>,
    decls: &[Decl],
) -> Result<List<Option<Signature>>, TypeFault>
    ensures ok { IfOk result (λ list. list ≡ spec.signatures (globals_seen globals.now) decls.now) }
    ensures err { IfErr result (λ fault. fault ≡ TypeFault.Memory) }
{
    let mut list = List::new(alloc);
    for decl in decls {
        let signature = signature(alloc, globals, decl)?;
        list.add(signature)?;
    }
    Ok(list)
}
