ghost use Rattle.std.specs.Prelude.{◌≡◌, ◌≤◌, ◌++◌, [], ◌∷◌, Ok, true, false};
ghost use Rattle.lus_types.specs.Checking as check;
ghost use Rattle.lus_types.specs.Checking.{Answers, kind_of, fault_at, fault_in};
ghost use Rattle.lus_types.specs.Names.{entry_of, spot_names, left_of};
ghost use Rattle.lus_types.specs.Occurrences as thing;
ghost use Rattle.lus_types.specs.Views.{scope_seen, recursions, variables_seen};
ghost use Rattle.lus_types.specs.Walk as walk;

use crate::expressions::operators::{all_typed, any_differ, differ};
use crate::expressions::scope::{Scope, Variable};
use crate::expressions::{check_expression, check_right, fine};
use crate::fault::{TypeFault, TypeKind};
use crate::names::set::NameSet;
use crate::names::table::NameTable;
use crate::types::Position;
use cov_base::List;
use lus_syntax::{Item, Spot};
use op_network::{LEAST_WIDTH, MOST_WIDTH, Ty};
use std::alloc::Global;

/// The first kind of a left name, whose variable this is, and which stands on a left side before
/// or not.
fn left_kind(variable: Option<Variable>, defined: bool) -> Option<TypeKind>
    ensures { result ≡ check.left_kind variable defined }
{
    match variable {
        None => Some(TypeKind::Unknown),
        Some(variable) => {
            if defined {
                Some(TypeKind::DefinedTwice)
            } else if variable.is_input {
                Some(TypeKind::DefinesInput)
            } else {
                None
            }
        }
    }
}

/// The variable that has a name.
fn variable_of(variables: &NameTable<Variable>, name: &[u8]) -> Option<Variable>
    ensures { result ≡ entry_of variables.now name.now }
{
    match variables.get(name) {
        None => None,
        Some(variable) => Some(*variable),
    }
}

/// The type of a variable, if there is one and it has one.
fn type_of(variable: Option<Variable>) -> Option<Ty>
    ensures { result ≡ walk.type_in variable }
{
    match variable {
        None => None,
        Some(variable) => variable.ty,
    }
}

/// A name on a left side, behind those that are defined.
fn check_left_name(
    alloc: Global,
    scope: &Scope,
    variables: &NameTable<Variable>,
    defined: &mut NameSet,
    name: &Spot,
) -> Result<Option<Ty>, TypeFault>
    ensures { Answers (fault_at name.now.at
        (kind_of (recursions scope.now.cycles.now)
        (thing.LeftName (variables_seen variables.now) defined.old name.now.text))) result
        (λ ty. (ty ≡ walk.type_in (entry_of variables.now name.now.text))
        × (defined.new ≡ defined.old ++ name.now.text ∷ [])) }
{
    let variable = variable_of(variables, name.text.bytes());
    let fresh = defined.add(alloc, name.text.bytes())?;
    match left_kind(variable, !fresh) {
        Some(kind) => Err(TypeFault::Bad { kind, at: name.at }),
        None => Ok(type_of(variable)),
    }
}

/// The left side of an equation, behind the names that are defined: the types of its names.
fn check_left(
    alloc: Global,
    scope: &Scope,
    variables: &NameTable<Variable>,
    defined: &mut NameSet,
    left: &[Spot],
) -> Result<List<Option<Ty>>, TypeFault>
    ensures { Answers (fault_in (recursions scope.now.cycles.now)
        (walk.left_names (variables_seen variables.now) defined.old left.now)) result
        (λ tys. (tys ≡ walk.left_types (variables_seen variables.now) left.now)
        × (defined.new ≡ defined.old ++ spot_names left.now)) }
{
    let mut tys = List::new(alloc);
    for name in left {
        let ty = check_left_name(alloc, scope, variables, defined, name)?;
        tys.add(ty)?;
    }
    Ok(tys)
}

/// The kind of an equation between these left names and this right side.
fn equation_kind(left: &[Option<Ty>], right: &Option<List<Option<Ty>>>) -> Option<TypeKind>
    ensures { result ≡ check.equation_kind left.now right.now }
{
    match right {
        None => None,
        Some(right) => {
            if left.len() != right.len() {
                Some(TypeKind::Arity)
            } else if all_typed(left)
                && all_typed(right.as_slice())
                && any_differ(left, right.as_slice())
            {
                Some(TypeKind::Mismatch)
            } else {
                None
            }
        }
    }
}

/// An item behind the names that are defined.
fn check_item(
    alloc: Global,
    scope: &Scope,
    variables: &NameTable<Variable>,
    defined: &mut NameSet,
    item: &Item,
) -> Result<(), TypeFault>
    requires narrowest { LEAST_WIDTH ≤ scope.now.width }
    requires widest { scope.now.width ≤ MOST_WIDTH }
    ensures { Answers (fault_in (recursions scope.now.cycles.now)
        (walk.item (scope_seen scope.now) (variables_seen variables.now) defined.old item.now))
        result (λ done. defined.new ≡ defined.old ++ left_of item.now) }
{
    match item {
        Item::Assert { at, expr } => {
            let ty = check_expression(alloc, scope, Position::Inside, expr)?;
            fine(*at, assertion_kind(ty))
        }
        Item::Equation { at, left, expr } => {
            let left = check_left(alloc, scope, variables, defined, left.as_slice())?;
            let right = check_right(alloc, scope, expr)?;
            fine(*at, equation_kind(left.as_slice(), &right))
        }
    }
}

/// The items of a node, behind the names that are defined.
pub(crate) fn check_items(
    alloc: Global,
    scope: &Scope,
    variables: &NameTable<Variable>,
    items: &[Item],
) -> Result<(), TypeFault>
    requires narrowest { LEAST_WIDTH ≤ scope.now.width }
    requires widest { scope.now.width ≤ MOST_WIDTH }
    ensures { Answers (fault_in (recursions scope.now.cycles.now)
        (walk.items (scope_seen scope.now) (variables_seen variables.now) [] items.now)) result
        (λ done. Unit {0}) }
{
    let mut defined = NameSet::new(alloc);
    for item in items {
        check_item(alloc, scope, variables, &mut defined, item)?;
    }
    Ok(())
}

/// The kind of an assertion of an expression of this type.
fn assertion_kind(ty: Option<Ty>) -> Option<TypeKind>
    ensures { result ≡ check.assertion_kind ty }
{
    if differ(ty, Some(Ty::Truth)) {
        Some(TypeKind::Mismatch)
    } else {
        None
    }
}
