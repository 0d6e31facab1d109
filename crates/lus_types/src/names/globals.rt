ghost use Rattle.std.specs.Prelude.{◌≡◌, ◌+◌, ◌≤◌, ◌<◌, [], ◌∷◌, length, IfErr, IfOk, OnOk};
ghost use Rattle.lus_types.specs.Names as spec;
ghost use Rattle.lus_types.specs.Names.{Name, declares, enumerators, entry_of, globals};
ghost use Rattle.lus_types.specs.NameTables.{either};

use crate::fault::TypeFault;
use crate::limits::MOST_DECLS;
use crate::names::table::NameTable;
use crate::types::Meaning;
use lus_syntax::{Decl, Spot};
use std::alloc::Global;

/// Adds the enumerators of the type of a number.
fn declare_choices(
    alloc: Global,
    table: &mut NameTable<Meaning>,
    ty: u32,
    choices: &[Spot],
) -> Result<(), TypeFault>
    ensures ok { OnOk result ((x : Name) → entry_of table.new x ≡ either (entry_of table.old x)
        (entry_of (enumerators ty 0 choices.now) x)) }
    ensures err { IfErr result (λ fault. fault ≡ TypeFault.Memory) }
{
    for (i, choice) in choices.iter().enumerate() {
        table.add(alloc, choice.text.bytes(), Meaning::Enumerator(ty, i))?;
    }
    Ok(())
}

/// Adds the global names of the declaration at a place, behind so many types.
fn declare(
    alloc: Global,
    table: &mut NameTable<Meaning>,
    place: u32,
    types: u32,
    decl: &Decl,
) -> Result<(), TypeFault>
    ensures ok { OnOk result ((x : Name) → entry_of table.new x ≡ either (entry_of table.old x)
        (entry_of (declares place types decl.now) x)) }
    ensures err { IfErr result (λ fault. fault ≡ TypeFault.Memory) }
{
    match decl {
        Decl::TypeDecl { name, choices, .. } => {
            table.add(alloc, name.text.bytes(), Meaning::Enumeration(types))?;
            declare_choices(alloc, table, types, choices.as_slice())
        }
        Decl::ConstDecl { name, .. } => {
            table.add(alloc, name.text.bytes(), Meaning::Constant(place))?;
            Ok(())
        }
        Decl::NodeDecl { name, .. } => {
            table.add(alloc, name.text.bytes(), Meaning::Node(place))?;
            Ok(())
        }
    }
}

/// How many types are declared, this declaration counted in.
pub(crate) fn next_type(types: u32, decl: &Decl) -> u32
    requires { types < 4_294_967_295 }
    ensures value { result ≡ spec.next_type types decl.now }
    ensures one_more { result ≤ types + 1 }
{
    match decl {
        Decl::TypeDecl { .. } => types + 1,
        Decl::ConstDecl { .. } => types,
        Decl::NodeDecl { .. } => types,
    }
}

/// The global names of a program, each with what its first declaration says.
pub(crate) fn globals_of(alloc: Global, decls: &[Decl]) -> Result<NameTable<Meaning>, TypeFault>
    requires few { length decls.now ≤ MOST_DECLS }
    ensures ok { IfOk result (λ table. (x : Name) → entry_of table x ≡ globals decls.now x) }
    ensures err { IfErr result (λ fault. fault ≡ TypeFault.Memory) }
{
    let mut table = NameTable::new(alloc);
    let mut types = 0;
    for (place, decl) in decls.iter().enumerate() {
        declare(alloc, &mut table, place as u32, types, decl)?;
        types = next_type(types, decl);
    }
    Ok(table)
}
