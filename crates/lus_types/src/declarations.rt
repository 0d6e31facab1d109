ghost use Rattle.std.specs.Prelude.{◌≡◌, ◌≤◌, length, take};
ghost use Rattle.lus_syntax.specs.declared.ast.Decl.TheVariants.{ConstDecl};
ghost use Rattle.lus_types.specs.Checking.{Answers, Recursions, kind_of, fault_at, fault_in};
ghost use Rattle.lus_types.specs.Occurrences as thing;
ghost use Rattle.lus_types.specs.Views.{globals_seen, recursions, tables_seen, variables_seen};
ghost use Rattle.lus_types.specs.Typing as spec;
ghost use Rattle.lus_types.specs.Walk as walk;

use crate::constants::{check_constant, check_global_name, means};
use crate::expressions::scope::{Scope, Signature, Variable};
use crate::fault::{TypeFault, TypeKind};
use crate::limits::MOST_DECLS;
use crate::names::globals::next_type;
use crate::names::set::NameSet;
use crate::names::table::NameTable;
use crate::nodes::header::{check_groups, meaning_in};
use crate::nodes::items::check_items;
use crate::nodes::signatures::{defined_in, node_variables};
use crate::types::Meaning;
use lus_syntax::{Decl, Expr, Group, Item, Spot};
use op_network::{LEAST_WIDTH, MOST_NAMES, MOST_WIDTH, Ty};
use std::alloc::Global;

/// What the names of a program mean.
#[derive(Clone, Copy)]
pub(crate) struct Tables<'a> {
    pub(crate) width: u32,
    pub(crate) globals: &'a NameTable<Meaning>,
    /// By the places of the declarations: the signature of a node.
    pub(crate) signatures: &'a [Option<Signature>],
    /// By the places of the declarations: the type of a constant.
    pub(crate) constants: &'a [Option<Ty>],
    /// By the places of the declarations: a number that two nodes share where each reaches the
    /// other by calls.
    pub(crate) cycles: &'a [u32],
}

/// The i-th enumerator of the type of a number.
fn check_choice(
    globals: &NameTable<Meaning>,
    ty: u32,
    i: usize,
    choice: &Spot,
) -> Result<(), TypeFault>
    ensures { (r : Recursions) → Answers
        (fault_at choice.now.at
        (kind_of r (thing.EnumeratorName (globals_seen globals.now) ty i choice.now.text)))
        result (λ done. Unit {0}) }
{
    if i == MOST_NAMES {
        Err(TypeFault::Bad {
            kind: TypeKind::Unsupported,
            at: choice.at,
        })
    } else if means(
        Meaning::Enumerator(ty, i),
        meaning_in(globals, choice.text.bytes()),
    ) {
        Ok(())
    } else {
        Err(TypeFault::Bad {
            kind: TypeKind::Duplicate,
            at: choice.at,
        })
    }
}

/// The enumerators of the type of a number.
fn check_choices(globals: &NameTable<Meaning>, ty: u32, choices: &[Spot]) -> Result<(), TypeFault>
    ensures { (r : Recursions) → Answers
        (fault_in r (walk.enumerator_names (globals_seen globals.now) ty 0 choices.now))
        result (λ done. Unit {0}) }
{
    for (i, choice) in choices.iter().enumerate() {
        check_choice(globals, ty, i, choice)?;
    }
    Ok(())
}

/// The declaration of the type of a number.
fn check_type(
    globals: &NameTable<Meaning>,
    ty: u32,
    name: &Spot,
    choices: &[Spot],
) -> Result<(), TypeFault>
    ensures { (r : Recursions) → Answers
        (fault_in r (spec.enumeration (globals_seen globals.now) ty name.now choices.now))
        result (λ done. Unit {0}) }
{
    check_global_name(globals, Meaning::Enumeration(ty), name)?;
    check_choices(globals, ty, choices)
}

/// The inputs, outputs and locals of a node.
fn check_header(
    alloc: Global,
    globals: &NameTable<Meaning>,
    inputs: &[Group],
    outputs: &[Group],
    locals: &[Group],
    items: &[Item],
) -> Result<(), TypeFault>
    ensures { (r : Recursions) → Answers
        (fault_in r (spec.header (globals_seen globals.now) inputs.now outputs.now locals.now
        items.now)) result (λ done. Unit {0}) }
{
    let defined = defined_in(alloc, items)?;
    let mut declared = NameSet::new(alloc);
    check_groups(alloc, globals, true, &defined, &mut declared, inputs)?;
    check_groups(alloc, globals, false, &defined, &mut declared, outputs)?;
    check_groups(alloc, globals, false, &defined, &mut declared, locals)
}

/// The items of the node at a place, whose variables these are.
fn check_body(
    alloc: Global,
    tables: &Tables,
    place: u32,
    variables: &NameTable<Variable>,
    items: &[Item],
) -> Result<(), TypeFault>
    requires narrowest { LEAST_WIDTH ≤ tables.now.width }
    requires widest { tables.now.width ≤ MOST_WIDTH }
    ensures { Answers (fault_in (recursions tables.now.cycles.now)
        (spec.body (tables_seen tables.now) place (variables_seen variables.now) items.now))
        result (λ done. Unit {0}) }
{
    let scope = Scope {
        width: tables.width,
        globals: tables.globals,
        signatures: tables.signatures,
        constants: tables.constants,
        cycles: tables.cycles,
        place,
        variables: Some(variables),
    };
    check_items(alloc, &scope, variables, items)
}

/// The node at a place.
fn check_node(
    alloc: Global,
    tables: &Tables,
    place: u32,
    name: &Spot,
    inputs: &[Group],
    outputs: &[Group],
    locals: &[Group],
    items: &[Item],
) -> Result<(), TypeFault>
    requires narrowest { LEAST_WIDTH ≤ tables.now.width }
    requires widest { tables.now.width ≤ MOST_WIDTH }
    ensures { Answers (fault_in (recursions tables.now.cycles.now)
        (spec.node (tables_seen tables.now) place name.now inputs.now outputs.now locals.now
        items.now)) result (λ done. Unit {0}) }
{
    check_global_name(tables.globals, Meaning::Node(place), name)?;
    check_header(alloc, tables.globals, inputs, outputs, locals, items)?;
    let variables = node_variables(alloc, tables.globals, items, inputs, outputs, locals)?;
    check_body(alloc, tables, place, &variables, items)
}

/// The first items, or all where there are fewer.
fn first(tys: &[Option<Ty>], n: u32) -> &[Option<Ty>]
    ensures { result.now ≡ take n tys.now }
{
    if n as usize <= tys.len() {
        tys.split_at(n as usize).0
    } else {
        tys
    }
}

/// The constant that is declared at a place.
fn check_constant_decl(
    alloc: Global,
    tables: &Tables,
    place: u32,
    at: u32,
    name: &Spot,
    ty: &Option<Spot>,
    value: &Option<Expr>,
) -> Result<(), TypeFault>
    requires narrowest { LEAST_WIDTH ≤ tables.now.width }
    requires widest { tables.now.width ≤ MOST_WIDTH }
    ensures { Answers (fault_in (recursions tables.now.cycles.now)
        (spec.declaration (tables_seen tables.now) place 0
        (ConstDecl at name.now ty.now value.now))) result (λ done. Unit {0}) }
{
    let scope = Scope {
        width: tables.width,
        globals: tables.globals,
        signatures: tables.signatures,
        constants: first(tables.constants, place),
        cycles: tables.cycles,
        place,
        variables: None,
    };
    check_constant(alloc, &scope, at, name, ty, value)?;
    Ok(())
}

/// The declaration at a place, behind so many types.
fn check_decl(
    alloc: Global,
    tables: &Tables,
    place: u32,
    types: u32,
    decl: &Decl,
) -> Result<(), TypeFault>
    requires narrowest { LEAST_WIDTH ≤ tables.now.width }
    requires widest { tables.now.width ≤ MOST_WIDTH }
    ensures { Answers (fault_in (recursions tables.now.cycles.now)
        (spec.declaration (tables_seen tables.now) place types decl.now)) result
        (λ done. Unit {0}) }
{
    match decl {
        Decl::TypeDecl { name, choices, .. } => {
            check_type(tables.globals, types, name, choices.as_slice())
        }
        Decl::ConstDecl {
            at,
            name,
            ty,
            value,
        } => check_constant_decl(alloc, tables, place, *at, name, ty, value),
        Decl::NodeDecl {
            name,
            inputs,
            outputs,
            locals,
            items,
            ..
        } => check_node(
            alloc,
            tables,
            place,
            name,
            inputs.as_slice(),
            outputs.as_slice(),
            locals.as_slice(),
            items.as_slice(),
        ),
    }
}

/// The declarations, in the order of the text.
pub(crate) fn check_decls(alloc: Global, tables: &Tables, decls: &[Decl]) -> Result<(), TypeFault>
    requires narrowest { LEAST_WIDTH ≤ tables.now.width }
    requires widest { tables.now.width ≤ MOST_WIDTH }
    requires few { length decls.now ≤ MOST_DECLS }
    ensures { Answers (fault_in (recursions tables.now.cycles.now)
        (spec.declarations (tables_seen tables.now) 0 0 decls.now)) result (λ done. Unit {0}) }
{
    let mut types = 0;
    for (place, decl) in decls.iter().enumerate() {
        check_decl(alloc, tables, place as u32, types, decl)?;
        types = next_type(types, decl);
    }
    Ok(())
}
