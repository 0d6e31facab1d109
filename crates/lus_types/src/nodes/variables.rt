ghost use Rattle.std.specs.Prelude.{◌≡◌, ◌++◌, ◌∷◌, [], cond, not, ◌&&◌, ◌||◌, is_some, None, OnOk, IfErr};
ghost use Rattle.lus_types.specs.Names.{Name, entry_of};
ghost use Rattle.lus_types.specs.NameTables.{either};
ghost use Rattle.lus_types.specs.Rows.{IsTableOf, IsGrown, names_in};
ghost use Rattle.lus_types.specs.Signatures as spec;
ghost use Rattle.lus_types.specs.Types as types;
ghost use Rattle.lus_types.specs.Views.{globals_seen, names_seen};

use crate::expressions::scope::Variable;
use crate::fault::TypeFault;
use crate::names::set::NameSet;
use crate::names::table::NameTable;
use crate::nodes::header::type_named;
use crate::types::Meaning;
use cov_base::List;
use lus_syntax::{Group, Spot};
use op_network::Ty;
use std::alloc::Global;

/// The type of a variable whose name is new to the node, and has an equation or needs none.
fn type_unless(
    globals: &NameTable<Meaning>,
    sound: bool,
    clock: &Option<Spot>,
    ty: &Spot,
) -> Option<Ty>
    ensures { result ≡ cond sound (spec.unless_clocked clock.now
        (types.type_named (globals_seen globals.now) ty.now.text)) None }
{
    if !sound {
        return None;
    }
    match clock {
        Some(_) => None,
        None => type_named(globals, ty.text.bytes()),
    }
}

/// Whether a table has a name.
fn has(table: &NameTable<Variable>, name: &[u8]) -> bool
    ensures { result ≡ is_some (entry_of table.now name.now) }
{
    match table.get(name) {
        Some(_) => true,
        None => false,
    }
}

/// Whether a variable is new to the node, and has an equation or needs none.
fn is_sound(known: bool, is_input: bool, defined: bool) -> bool
    ensures { result ≡ not known && (is_input || defined) }
{
    !known && (is_input || defined)
}

/// Adds a variable of a group, behind those of the table, and its type to the types.
fn add_variable(
    alloc: Global,
    globals: &NameTable<Meaning>,
    is_input: bool,
    defined: &NameSet,
    table: &mut NameTable<Variable>,
    tys: &mut List<Option<Ty>>,
    group: &Group,
    name: &Spot,
) -> Result<(), TypeFault>
    ensures ok { OnOk result ((row : spec.Row) → IsTableOf table.old row → IsGrown table.new tys.old
        tys.new row (spec.variable (globals_seen globals.now) is_input
        (names_seen defined.now) group.now.clock group.now.ty (names_in row) name.now ∷ [])) }
    ensures err { IfErr result (λ fault. fault ≡ TypeFault.Memory) }
{
    let text = name.text.bytes();
    let sound = is_sound(has(table, text), is_input, defined.has(text));
    let ty = type_unless(globals, sound, &group.clock, &group.ty);
    table.add(alloc, text, Variable { ty, is_input })?;
    tys.add(ty)?;
    Ok(())
}

/// Adds the variables of these names of a group.
fn add_names(
    alloc: Global,
    globals: &NameTable<Meaning>,
    is_input: bool,
    defined: &NameSet,
    table: &mut NameTable<Variable>,
    tys: &mut List<Option<Ty>>,
    group: &Group,
    names: &[Spot],
) -> Result<(), TypeFault>
    ensures ok { OnOk result ((row : spec.Row) → IsTableOf table.old row → IsGrown table.new tys.old
        tys.new row (spec.group_variables (globals_seen globals.now) is_input
        (names_seen defined.now) group.now.clock group.now.ty (names_in row) names.now)) }
    ensures err { IfErr result (λ fault. fault ≡ TypeFault.Memory) }
{
    for name in names {
        add_variable(alloc, globals, is_input, defined, table, tys, group, name)?;
    }
    Ok(())
}

/// Adds the variables of groups.
pub(crate) fn add_groups(
    alloc: Global,
    globals: &NameTable<Meaning>,
    is_input: bool,
    defined: &NameSet,
    table: &mut NameTable<Variable>,
    tys: &mut List<Option<Ty>>,
    groups: &[Group],
) -> Result<(), TypeFault>
    ensures ok { OnOk result ((row : spec.Row) → IsTableOf table.old row → IsGrown table.new tys.old
        tys.new row (spec.variables_in (globals_seen globals.now) is_input
        (names_seen defined.now) (names_in row) groups.now)) }
    ensures err { IfErr result (λ fault. fault ≡ TypeFault.Memory) }
{
    for group in groups {
        let names = group.names.as_slice();
        add_names(alloc, globals, is_input, defined, table, tys, group, names)?;
    }
    Ok(())
}
