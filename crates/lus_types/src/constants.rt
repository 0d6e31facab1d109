pub(crate) mod values;

ghost use Rattle.std.specs.Prelude.{◌≡◌, ◌≤◌, length, None, IfOk, IfErr};
ghost use Rattle.lus_types.specs.Checking as check;
ghost use Rattle.lus_types.specs.Checking.{Answers, Recursions, kind_of, fault_at, fault_in};
ghost use Rattle.lus_types.specs.Constants as spec;
ghost use Rattle.lus_types.specs.Names as names;
ghost use Rattle.lus_types.specs.Occurrences as thing;
ghost use Rattle.lus_types.specs.Views.{scope_seen, globals_seen, recursions};
ghost use Rattle.lus_types.specs.Walk as walk;

use crate::expressions::operators::differ;
use crate::expressions::scope::{Scope, Signature};
use crate::expressions::{check_expression, fine};
use crate::fault::{TypeFault, TypeKind};
use crate::limits::MOST_DECLS;
use crate::names::table::NameTable;
use crate::nodes::header::{meaning_in, type_name_kind, type_named};
use crate::types::{Meaning, Position};
use cov_base::List;
use lus_syntax::{Decl, Expr, Spot};
use op_network::{LEAST_WIDTH, MOST_WIDTH, Ty};
use std::alloc::Global;

/// Whether a name means this.
pub(crate) fn means(meaning: Meaning, found: Option<Meaning>) -> bool
    ensures { result ≡ names.means meaning found }
{
    match (meaning, found) {
        (Meaning::Enumeration(p), Some(Meaning::Enumeration(q))) => p == q,
        (Meaning::Constant(p), Some(Meaning::Constant(q))) => p == q,
        (Meaning::Node(p), Some(Meaning::Node(q))) => p == q,
        (Meaning::Enumerator(p, i), Some(Meaning::Enumerator(q, j))) => p == q && i == j,
        _ => false,
    }
}

/// A declared global name, which is to mean this.
pub(crate) fn check_global_name(
    globals: &NameTable<Meaning>,
    meaning: Meaning,
    name: &Spot,
) -> Result<(), TypeFault>
    ensures { (r : Recursions) → Answers
        (fault_at name.now.at
        (kind_of r (thing.GlobalName (globals_seen globals.now) meaning name.now.text)))
        result (λ done. Unit {0}) }
{
    if means(meaning, meaning_in(globals, name.text.bytes())) {
        Ok(())
    } else {
        Err(TypeFault::Bad {
            kind: TypeKind::Duplicate,
            at: name.at,
        })
    }
}

/// The declared type of a constant, if it has one.
fn check_declared(
    globals: &NameTable<Meaning>,
    ty: &Option<Spot>,
) -> Result<Option<Option<Ty>>, TypeFault>
    ensures { (r : Recursions) → Answers
        (fault_in r (walk.declared_type_name (globals_seen globals.now) ty.now)) result
        (λ tys. tys ≡ walk.declared_type (globals_seen globals.now) ty.now) }
{
    match ty {
        None => Ok(None),
        Some(ty) => {
            fine(ty.at, type_name_kind(globals, ty.text.bytes()))?;
            Ok(Some(type_named(globals, ty.text.bytes())))
        }
    }
}

/// The expression of a constant, if it has one, and its type.
fn check_value(
    alloc: Global,
    scope: &Scope,
    value: &Option<Expr>,
) -> Result<Option<Option<Ty>>, TypeFault>
    requires narrowest { LEAST_WIDTH ≤ scope.now.width }
    requires widest { scope.now.width ≤ MOST_WIDTH }
    ensures { Answers (fault_in (recursions scope.now.cycles.now)
        (walk.value_walk (scope_seen scope.now) value.now)) result
        (λ tys. tys ≡ walk.value_type (scope_seen scope.now) value.now) }
{
    match value {
        None => Ok(None),
        Some(value) => {
            let ty = check_expression(alloc, scope, Position::Inside, value)?;
            Ok(Some(ty))
        }
    }
}

/// What is wrong with a constant itself, over its declared type and its expression's.
fn constant_kind(ty: Option<Option<Ty>>, value: Option<Option<Ty>>) -> Option<TypeKind>
    ensures { result ≡ check.constant_kind ty value }
{
    match (ty, value) {
        (_, None) => Some(TypeKind::Unsupported),
        (None, Some(_)) => None,
        (Some(ty), Some(value)) => {
            if differ(ty, value) {
                Some(TypeKind::Mismatch)
            } else {
                None
            }
        }
    }
}

/// The declaration of a constant, and its type.
pub(crate) fn check_constant(
    alloc: Global,
    scope: &Scope,
    at: u32,
    name: &Spot,
    ty: &Option<Spot>,
    value: &Option<Expr>,
) -> Result<Option<Ty>, TypeFault>
    requires narrowest { LEAST_WIDTH ≤ scope.now.width }
    requires widest { scope.now.width ≤ MOST_WIDTH }
    ensures { Answers (fault_in (recursions scope.now.cycles.now)
        (walk.constant (scope_seen scope.now) at name.now ty.now value.now)) result
        (λ found. found ≡ thing.flat (walk.value_type (scope_seen scope.now) value.now)) }
{
    check_global_name(scope.globals, Meaning::Constant(scope.place), name)?;
    let ty = check_declared(scope.globals, ty)?;
    let value = check_value(alloc, scope, value)?;
    fine(at, constant_kind(ty, value))?;
    Ok(flat(value))
}

/// The type of an expression, if there is one and it has one.
fn flat(value: Option<Option<Ty>>) -> Option<Ty>
    ensures { result ≡ thing.flat value }
{
    match value {
        Some(ty) => ty,
        None => None,
    }
}

/// The type of a declared constant, which has none where its declaration is faulty.
fn constant_type(alloc: Global, scope: &Scope, decl: &Decl) -> Result<Option<Ty>, TypeFault>
    requires narrowest { LEAST_WIDTH ≤ scope.now.width }
    requires widest { scope.now.width ≤ MOST_WIDTH }
    requires no_variables { scope.now.variables ≡ None }
    ensures ok { IfOk result (λ ty. ty ≡ spec.constant_type (scope_seen scope.now) decl.now) }
    ensures err { IfErr result (λ fault. fault ≡ TypeFault.Memory) }
{
    match decl {
        Decl::ConstDecl {
            at,
            name,
            ty,
            value,
        } => match check_constant(alloc, scope, *at, name, ty, value) {
            Ok(ty) => Ok(ty),
            Err(TypeFault::Bad { .. }) => Ok(None),
            Err(TypeFault::Memory) => Err(TypeFault::Memory),
        },
        Decl::TypeDecl { .. } | Decl::NodeDecl { .. } => Ok(None),
    }
}

/// The type of the declaration at a place, if it is a constant, behind constants of these types.
fn next_constant<'a>(
    alloc: Global,
    width: u32,
    globals: &'a NameTable<Meaning>,
    signatures: &'a [Option<Signature>],
    known: &'a [Option<Ty>],
    place: u32,
    decl: &Decl,
) -> Result<Option<Ty>, TypeFault>
    requires narrowest { LEAST_WIDTH ≤ width }
    requires widest { width ≤ MOST_WIDTH }
    ensures ok { IfOk result (λ ty. ty ≡ spec.constant_type
        (spec.constant_scope width (globals_seen globals.now) signatures.now known.now place)
        decl.now) }
    ensures err { IfErr result (λ fault. fault ≡ TypeFault.Memory) }
{
    let scope = Scope {
        width,
        globals,
        signatures,
        constants: known,
        cycles: &[],
        place,
        variables: None,
    };
    constant_type(alloc, &scope, decl)
}

/// The types of the constants, by the places of the declarations.
pub(crate) fn constants_of(
    alloc: Global,
    width: u32,
    globals: &NameTable<Meaning>,
    signatures: &[Option<Signature>],
    decls: &[Decl],
) -> Result<List<Option<Ty>>, TypeFault>
    requires narrowest { LEAST_WIDTH ≤ width }
    requires widest { width ≤ MOST_WIDTH }
    requires few { length decls.now ≤ MOST_DECLS }
    ensures ok { IfOk result (λ tys. tys
        ≡ spec.constants width (globals_seen globals.now) signatures.now decls.now) }
    ensures err { IfErr result (λ fault. fault ≡ TypeFault.Memory) }
{
    let mut constants = List::new(alloc);
    for (place, decl) in decls.iter().enumerate() {
        let known = constants.as_slice();
        let ty = next_constant(alloc, width, globals, signatures, known, place as u32, decl)?;
        constants.add(ty)?;
    }
    Ok(constants)
}
