ghost use Rattle.std.specs.Prelude.{◌≡◌, ◌++◌, [], ◌∷◌};
ghost use Rattle.std.specs.Str.{bytes_eq};
ghost use Rattle.lus_types.specs.Checking as check;
ghost use Rattle.lus_types.specs.Checking.{Answers, Recursions, kind_of, fault_at, fault_in};
ghost use Rattle.lus_types.specs.Names.{spot_names, declared_names};
ghost use Rattle.lus_types.specs.Occurrences as thing;
ghost use Rattle.lus_types.specs.Types as spec;
ghost use Rattle.lus_types.specs.Views.{globals_seen, names_seen};
ghost use Rattle.lus_types.specs.Walk as walk;

use crate::expressions::fine;
use crate::fault::{TypeFault, TypeKind};
use crate::names::set::NameSet;
use crate::names::table::NameTable;
use crate::types::Meaning;
use lus_syntax::{Group, Spot};
use op_network::Ty;
use std::alloc::Global;

/// The type of a global name, if it means one.
fn type_meant(meaning: Option<Meaning>) -> Option<Ty>
    ensures { result ≡ spec.type_meant meaning }
{
    match meaning {
        Some(Meaning::Enumeration(ty)) => Some(Ty::Choice(ty)),
        Some(Meaning::Constant(_)) => None,
        Some(Meaning::Node(_)) => None,
        Some(Meaning::Enumerator(_, _)) => None,
        None => None,
    }
}

/// What a global name means.
pub(crate) fn meaning_in(globals: &NameTable<Meaning>, name: &[u8]) -> Option<Meaning>
    ensures { result ≡ globals_seen globals.now name.now }
{
    match globals.get(name) {
        None => None,
        Some(meaning) => Some(*meaning),
    }
}

/// Whether two lists of bytes are equal.
fn is(bytes: &[u8], word: &[u8]) -> bool
    ensures { result ≡ bytes_eq bytes.now word.now }
{
    bytes == word
}

/// The type that a word names, if it names one.
pub(crate) fn type_named(globals: &NameTable<Meaning>, word: &[u8]) -> Option<Ty>
    ensures { result ≡ spec.type_named (globals_seen globals.now) word.now }
{
    if is(word, b"bool") {
        Some(Ty::Truth)
    } else if is(word, b"int") {
        Some(Ty::Word)
    } else if is(word, b"real") {
        None
    } else {
        type_meant(meaning_in(globals, word))
    }
}

/// The kind of a word that stands for a type.
pub(crate) fn type_name_kind(globals: &NameTable<Meaning>, word: &[u8]) -> Option<TypeKind>
    ensures { (r : Recursions) → result
        ≡ kind_of r (thing.TypeName (globals_seen globals.now) word.now) }
{
    if is(word, b"real") {
        Some(TypeKind::Unsupported)
    } else if type_named(globals, word).is_none() {
        Some(TypeKind::Unknown)
    } else {
        None
    }
}

/// What is wrong with a declared variable.
fn variable_kind(fresh: bool, is_input: bool, defined: bool) -> Option<TypeKind>
    ensures { result ≡ check.variable_kind fresh is_input defined }
{
    if !fresh {
        Some(TypeKind::Duplicate)
    } else if is_input || defined {
        None
    } else {
        Some(TypeKind::Undefined)
    }
}

/// The declared name of a variable, behind those of the node that are declared.
fn check_variable_name(
    alloc: Global,
    is_input: bool,
    defined: &NameSet,
    declared: &mut NameSet,
    name: &Spot,
) -> Result<(), TypeFault>
    ensures { (r : Recursions) → Answers
        (fault_at name.now.at
        (kind_of r (walk.variable_name is_input (names_seen defined.now) declared.old
        name.now.text))) result (λ done. declared.new ≡ declared.old ++ name.now.text ∷ []) }
{
    let fresh = declared.add(alloc, name.text.bytes())?;
    fine(
        name.at,
        variable_kind(fresh, is_input, defined.has(name.text.bytes())),
    )
}

/// The names of a group of variables.
fn check_variable_names(
    alloc: Global,
    is_input: bool,
    defined: &NameSet,
    declared: &mut NameSet,
    names: &[Spot],
) -> Result<(), TypeFault>
    ensures { (r : Recursions) → Answers
        (fault_in r (walk.group_names is_input (names_seen defined.now) declared.old
        names.now)) result (λ done. declared.new ≡ declared.old ++ spot_names names.now) }
{
    for name in names {
        check_variable_name(alloc, is_input, defined, declared, name)?;
    }
    Ok(())
}

/// The `when` of a group.
fn check_clock(clock: &Option<Spot>) -> Result<(), TypeFault>
    ensures { (r : Recursions) → Answers (fault_in r (walk.clock_mark clock.now)) result
        (λ done. Unit {0}) }
{
    match clock {
        Some(clock) => Err(TypeFault::Bad {
            kind: TypeKind::Clocked,
            at: clock.at,
        }),
        None => Ok(()),
    }
}

/// A group of variables: its names, its type and its clock.
fn check_group(
    alloc: Global,
    globals: &NameTable<Meaning>,
    is_input: bool,
    defined: &NameSet,
    declared: &mut NameSet,
    group: &Group,
) -> Result<(), TypeFault>
    ensures { (r : Recursions) → Answers
        (fault_in r (walk.group (globals_seen globals.now) is_input (names_seen defined.now)
        declared.old group.now)) result
        (λ done. declared.new ≡ declared.old ++ spot_names group.now.names) }
{
    check_variable_names(alloc, is_input, defined, declared, group.names.as_slice())?;
    fine(group.ty.at, type_name_kind(globals, group.ty.text.bytes()))?;
    check_clock(&group.clock)
}

/// Groups of variables, behind those of the node that are declared.
pub(crate) fn check_groups(
    alloc: Global,
    globals: &NameTable<Meaning>,
    is_input: bool,
    defined: &NameSet,
    declared: &mut NameSet,
    groups: &[Group],
) -> Result<(), TypeFault>
    ensures { (r : Recursions) → Answers
        (fault_in r (walk.groups (globals_seen globals.now) is_input (names_seen defined.now)
        declared.old groups.now)) result
        (λ done. declared.new ≡ declared.old ++ declared_names groups.now) }
{
    for group in groups {
        check_group(alloc, globals, is_input, defined, declared, group)?;
    }
    Ok(())
}
