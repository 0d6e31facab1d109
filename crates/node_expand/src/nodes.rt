ghost use Rattle.std.specs.Prelude.{◌≡◌, ◌++◌, OnOk, IfOk};
ghost use Rattle.lus_types.specs.Names.{globals};
ghost use Rattle.lus_types.specs.Programs as program;
ghost use Rattle.lus_types.specs.Types.{type_named};
ghost use Rattle.node_expand.specs.Headers as spec;
ghost use Rattle.node_expand.specs.NameTables.{with_entries};
ghost use Rattle.node_expand.specs.Roots as look;
ghost use Rattle.node_expand.specs.Variables.{typed_names};

use crate::header::{Header, Variable};
use crate::names::table::NameTable;
use cov_base::{List, Memory};
use lus_syntax::{Decl, Group, Item, Spot};
use lus_types::Typed;
use op_network::Ty;
use std::alloc::Global;

/// The type that a word names. Each word of a typed program names one.
fn type_of(typed: &Typed, word: &[u8]) -> Ty
    ensures { result ≡ program.or_truth (type_named (globals typed.now.ast.decls) word.now) }
{
    match typed.type_named(word) {
        Some(ty) => ty,
        None => Ty::Truth,
    }
}

/// Adds variables of one type behind the others.
fn add_names(
    alloc: Global,
    spots: &[Spot],
    ty: Ty,
    variables: &mut List<Variable>,
) -> Result<(), Memory>
    ensures { OnOk result (variables.new ≡ variables.old ++ look.group_variables ty spots.now) }
{
    for spot in spots {
        let name = spot.text.copy(alloc)?;
        variables.add(Variable { name, ty })?;
    }
    Ok(())
}

/// The variables of groups, in the order of the text.
fn variables_of(alloc: Global, typed: &Typed, groups: &[Group]) -> Result<List<Variable>, Memory>
    ensures { IfOk result (λ variables. variables
        ≡ look.declared_variables (globals typed.now.ast.decls) groups.now) }
{
    let mut variables = List::new(alloc);
    for group in groups {
        let ty = type_of(typed, group.ty.text.bytes());
        add_names(alloc, group.names.as_slice(), ty, &mut variables)?;
    }
    Ok(variables)
}

/// Adds the types of variables to those of others.
fn add_types(alloc: Global, variables: &[Variable], types: &mut NameTable<Ty>) -> Result<(), Memory>
    ensures { OnOk result (types.new ≡ with_entries types.old (typed_names variables.now)) }
{
    for variable in variables {
        types.add(alloc, variable.name.bytes(), variable.ty)?;
    }
    Ok(())
}

/// A header of these variables.
fn header_with(
    alloc: Global,
    inputs: List<Variable>,
    outputs: List<Variable>,
    locals: List<Variable>,
) -> Result<Header, Memory>
    ensures inputs { IfOk result (λ header. header.inputs ≡ inputs) }
    ensures outputs { IfOk result (λ header. header.outputs ≡ outputs) }
    ensures locals { IfOk result (λ header. header.locals ≡ locals) }
{
    let mut types = NameTable::new(alloc);
    add_types(alloc, inputs.as_slice(), &mut types)?;
    add_types(alloc, outputs.as_slice(), &mut types)?;
    add_types(alloc, locals.as_slice(), &mut types)?;
    Ok(Header {
        inputs,
        outputs,
        locals,
        types,
    })
}

/// The variables of these groups.
fn node_header(
    alloc: Global,
    typed: &Typed,
    inputs: &[Group],
    outputs: &[Group],
    locals: &[Group],
) -> Result<Header, Memory>
    ensures { IfOk result (λ header. spec.node_seen header
        ≡ spec.head_with (globals typed.now.ast.decls) inputs.now outputs.now locals.now) }
{
    let inputs = variables_of(alloc, typed, inputs)?;
    let outputs = variables_of(alloc, typed, outputs)?;
    let locals = variables_of(alloc, typed, locals)?;
    header_with(alloc, inputs, outputs, locals)
}

/// The variables of a declaration. One that is no node has none.
fn header_of(alloc: Global, typed: &Typed, decl: &Decl) -> Result<Header, Memory>
    ensures { IfOk result (λ header. spec.node_seen header
        ≡ spec.head_of (globals typed.now.ast.decls) decl.now) }
{
    match decl {
        Decl::NodeDecl {
            inputs,
            outputs,
            locals,
            ..
        } => node_header(
            alloc,
            typed,
            inputs.as_slice(),
            outputs.as_slice(),
            locals.as_slice(),
        ),
        Decl::TypeDecl { .. } => node_header(alloc, typed, &[], &[], &[]),
        Decl::ConstDecl { .. } => node_header(alloc, typed, &[], &[], &[]),
    }
}

/// The variables of all declarations, by their places. The cost is linear in the declarations.
pub(crate) fn headers_of(alloc: Global, typed: &Typed) -> Result<List<Header>, Memory>
    ensures { IfOk result (λ headers. spec.heads_seen headers
        ≡ spec.heads (globals typed.now.ast.decls) typed.now.ast.decls) }
{
    let mut headers = List::new(alloc);
    for decl in typed.ast().decls.as_slice() {
        let header = header_of(alloc, typed, decl)?;
        headers.add(header)?;
    }
    Ok(headers)
}

/// The items of a declaration. One that is no node has none.
pub(crate) fn items_of(decl: &Decl) -> &[Item]
    ensures { result.now ≡ spec.items_of decl.now }
{
    match decl {
        Decl::NodeDecl { items, .. } => items.as_slice(),
        Decl::TypeDecl { .. } | Decl::ConstDecl { .. } => &[],
    }
}
