mod kinds;
pub(crate) mod operators;
pub(crate) mod scope;

ghost use Rattle.std.specs.Prelude.{◌≡◌, ◌≤◌, Some, None, map, cond, IfOk, IfErr};
ghost use Rattle.lus_types.specs.Checking.{Answers, kind_of, fault_at, fault_in};
ghost use Rattle.lus_types.specs.Occurrences as thing;
ghost use Rattle.lus_types.specs.Types as spec;
ghost use Rattle.lus_types.specs.Views.{scope_seen, recursions};
ghost use Rattle.lus_types.specs.Walk as walk;

use crate::expressions::kinds::{
    binary_kind, call_kind, conditional_kind, literal_kind, typed_call, unary_kind,
};
use crate::expressions::operators::{binary_of, conditional_of, unary_of};
use crate::expressions::scope::{Scope, Signature, signature_named, value_named};
use crate::fault::{TypeFault, TypeKind};
use crate::types::Position;
use cov_base::List;
use lus_syntax::{BinOp, Expr, ExprKind, UnOp};
use op_network::{LEAST_WIDTH, MOST_WIDTH, Ty};
use std::alloc::Global;

/// The answer at an occurrence: its kind, if it fails.
pub(crate) fn fine(at: u32, kind: Option<TypeKind>) -> Result<(), TypeFault>
    ensures { Answers (fault_at at kind) result (λ done. Unit {0}) }
{
    match kind {
        Some(kind) => Err(TypeFault::Bad { kind, at }),
        None => Ok(()),
    }
}

/// A name in an expression, and its type.
fn check_name(scope: &Scope, at: u32, name: &[u8]) -> Result<Option<Ty>, TypeFault>
    ensures { Answers (fault_at at
        (kind_of (recursions scope.now.cycles.now) (thing.NameUse (scope_seen scope.now) name.now)))
        result (λ ty. ty ≡ thing.flat (thing.value_named (scope_seen scope.now) name.now)) }
{
    let value = value_named(scope, name);
    match value {
        Some(ty) => Ok(ty),
        None => Err(TypeFault::Bad {
            kind: TypeKind::Unknown,
            at,
        }),
    }
}

/// A number, which is to be in the range of the width.
fn check_literal(
    scope: &Scope,
    at: u32,
    position: Position,
    n: u128,
) -> Result<Option<Ty>, TypeFault>
    requires narrowest { LEAST_WIDTH ≤ scope.now.width }
    requires widest { scope.now.width ≤ MOST_WIDTH }
    ensures { Answers (fault_at at
        (kind_of (recursions scope.now.cycles.now)
        (thing.Literal (scope_seen scope.now) position n))) result (λ ty. ty ≡ Some Ty.Word) }
{
    match literal_kind(scope, position, n) {
        Some(kind) => Err(TypeFault::Bad { kind, at }),
        None => Ok(Some(Ty::Word)),
    }
}

/// An operator over an operand of this type, and the type of its result.
fn check_unary(scope: &Scope, at: u32, op: UnOp, a: Option<Ty>) -> Result<Option<Ty>, TypeFault>
    ensures { Answers (fault_at at
        (kind_of (recursions scope.now.cycles.now) (thing.Unary (scope_seen scope.now) op a)))
        result (λ ty. ty ≡ spec.unary_of op a) }
{
    match unary_kind(scope, op, a) {
        Some(kind) => Err(TypeFault::Bad { kind, at }),
        None => Ok(unary_of(op, a)),
    }
}

/// An operator over operands of these types, and the type of its result.
fn check_binary(
    scope: &Scope,
    at: u32,
    op: BinOp,
    a: Option<Ty>,
    b: Option<Ty>,
) -> Result<Option<Ty>, TypeFault>
    ensures { Answers (fault_at at
        (kind_of (recursions scope.now.cycles.now) (thing.Binary (scope_seen scope.now) op a b)))
        result (λ ty. ty ≡ spec.binary_of op a b) }
{
    match binary_kind(scope, op, a, b) {
        Some(kind) => Err(TypeFault::Bad { kind, at }),
        None => Ok(binary_of(op, a, b)),
    }
}

/// An `if` over parts of these types, and the type of its result.
fn check_conditional(
    scope: &Scope,
    at: u32,
    a: Option<Ty>,
    b: Option<Ty>,
    c: Option<Ty>,
) -> Result<Option<Ty>, TypeFault>
    ensures { Answers (fault_at at
        (kind_of (recursions scope.now.cycles.now) (thing.Conditional a b c))) result
        (λ ty. ty ≡ spec.conditional_of a b c) }
{
    match conditional_kind(scope, a, b, c) {
        Some(kind) => Err(TypeFault::Bad { kind, at }),
        None => Ok(conditional_of(a, b, c)),
    }
}

/// The type of a call over arguments of these types: that of the result of the node, if it has one
/// result, and the parts of the call have types.
fn result_type(args: &[Option<Ty>], signature: &Signature) -> Option<Ty>
    ensures { result ≡ walk.the_one_of (walk.results_of (Some signature.now) args.now) }
{
    if typed_call(args, signature) {
        match signature.results.as_slice() {
            [ty] => *ty,
            _ => None,
        }
    } else {
        None
    }
}

/// The type of a call inside an expression, if it has one.
fn call_type(scope: &Scope, name: &[u8], args: &[Option<Ty>]) -> Option<Ty>
    ensures { result ≡ walk.the_one_of
        (walk.results_of (thing.signature_named (scope_seen scope.now) name.now) args.now) }
{
    match signature_named(scope, name) {
        Some(signature) => result_type(args, signature),
        None => None,
    }
}

/// A call over arguments of these types, and its type inside an expression.
fn check_call(
    scope: &Scope,
    at: u32,
    position: Position,
    name: &[u8],
    args: &[Option<Ty>],
) -> Result<Option<Ty>, TypeFault>
    ensures { Answers (fault_at at
        (kind_of (recursions scope.now.cycles.now)
        (thing.Call (scope_seen scope.now) position name.now args.now))) result
        (λ ty. ty ≡ walk.the_one_of
        (walk.results_of (thing.signature_named (scope_seen scope.now) name.now) args.now)) }
{
    match call_kind(scope, position, name, args) {
        Some(kind) => Err(TypeFault::Bad { kind, at }),
        None => Ok(call_type(scope, name, args)),
    }
}

/// The position of an operand.
fn operand_of(op: UnOp) -> Position
    ensures { result ≡ walk.operand_of op }
{
    match op {
        UnOp::Neg => Position::Negated,
        UnOp::Not => Position::Inside,
        UnOp::Pre => Position::Inside,
        UnOp::Current => Position::Inside,
    }
}

/// Walks the arguments of a call, and answers their types.
#[cycle(expression)]
fn check_args(alloc: Global, scope: &Scope, args: &[Expr]) -> Result<List<Option<Ty>>, TypeFault>
    requires narrowest { LEAST_WIDTH ≤ scope.now.width }
    requires widest { scope.now.width ≤ MOST_WIDTH }
    ensures { Answers (fault_in (recursions scope.now.cycles.now)
        (walk.arguments (scope_seen scope.now) args.now)) result
        (λ tys. tys ≡ map (walk.type_of (scope_seen scope.now)) args.now) }
{
    let mut tys = List::new(alloc);
    for arg in args {
        let ty = check_expression(alloc, scope, Position::Inside, arg)?;
        tys.add(ty)?;
    }
    Ok(tys)
}

/// Walks an expression, its operands first, and answers its type. The cost is linear in the
/// expression and in the lengths of the names that it has.
#[cycle(expression)]
pub(crate) fn check_expression(
    alloc: Global,
    scope: &Scope,
    position: Position,
    expr: &Expr,
) -> Result<Option<Ty>, TypeFault>
    requires narrowest { LEAST_WIDTH ≤ scope.now.width }
    requires widest { scope.now.width ≤ MOST_WIDTH }
    ensures { Answers (fault_in (recursions scope.now.cycles.now)
        (walk.expression (scope_seen scope.now) position expr.now)) result
        (λ ty. ty ≡ walk.type_of (scope_seen scope.now) expr.now) }
{
    let at = expr.at;
    match &expr.kind {
        ExprKind::Name(name) => check_name(scope, at, name.bytes()),
        ExprKind::Number(n) => check_literal(scope, at, position, *n),
        ExprKind::Truth(_) => Ok(Some(Ty::Truth)),
        ExprKind::One(op, a) => {
            let a = check_expression(alloc, scope, operand_of(*op), a.get())?;
            check_unary(scope, at, *op, a)
        }
        ExprKind::Two(op, a, b) => {
            let a = check_expression(alloc, scope, Position::Inside, a.get())?;
            let b = check_expression(alloc, scope, Position::Inside, b.get())?;
            check_binary(scope, at, *op, a, b)
        }
        ExprKind::Cond(a, b, c) => {
            let a = check_expression(alloc, scope, Position::Inside, a.get())?;
            let b = check_expression(alloc, scope, Position::Inside, b.get())?;
            let c = check_expression(alloc, scope, Position::Inside, c.get())?;
            check_conditional(scope, at, a, b, c)
        }
        ExprKind::Call(name, args) => {
            let tys = check_args(alloc, scope, args.as_slice())?;
            check_call(scope, at, position, name.bytes(), tys.as_slice())
        }
    }
}

/// The types of the results of a call over these arguments, if it calls a node.
fn results_of(
    alloc: Global,
    scope: &Scope,
    name: &[u8],
    args: &[Option<Ty>],
) -> Result<Option<List<Option<Ty>>>, TypeFault>
    ensures ok { IfOk result (λ tys. tys ≡ walk.results_of
        (thing.signature_named (scope_seen scope.now) name.now) args.now) }
    ensures err { IfErr result (λ fault. fault ≡ TypeFault.Memory) }
{
    match signature_named(scope, name) {
        None => Ok(None),
        Some(signature) => {
            let typed = typed_call(args, signature);
            let tys = typed_if(alloc, typed, signature.results.as_slice())?;
            Ok(Some(tys))
        }
    }
}

/// This type, or none.
fn kept(typed: bool, ty: Option<Ty>) -> Option<Ty>
    ensures { result ≡ cond typed ty None }
{
    if typed { ty } else { None }
}

/// These types, or none of them.
fn typed_if(alloc: Global, typed: bool, tys: &[Option<Ty>]) -> Result<List<Option<Ty>>, TypeFault>
    ensures ok { IfOk result (λ list. list ≡ cond typed tys.now (walk.untyped tys.now)) }
    ensures err { IfErr result (λ fault. fault ≡ TypeFault.Memory) }
{
    let mut list = List::new(alloc);
    for ty in tys {
        list.add(kept(typed, *ty))?;
    }
    Ok(list)
}

/// Walks a whole right side, and answers its types. They are unknown where it calls no node.
pub(crate) fn check_right(
    alloc: Global,
    scope: &Scope,
    expr: &Expr,
) -> Result<Option<List<Option<Ty>>>, TypeFault>
    requires narrowest { LEAST_WIDTH ≤ scope.now.width }
    requires widest { scope.now.width ≤ MOST_WIDTH }
    ensures { Answers (fault_in (recursions scope.now.cycles.now)
        (walk.expression (scope_seen scope.now) Position.Whole expr.now)) result
        (λ tys. tys ≡ (walk.judge (scope_seen scope.now) expr.now).right) }
{
    match &expr.kind {
        ExprKind::Call(name, args) => {
            let args = check_args(alloc, scope, args.as_slice())?;
            fine(
                expr.at,
                call_kind(scope, Position::Whole, name.bytes(), args.as_slice()),
            )?;
            results_of(alloc, scope, name.bytes(), args.as_slice())
        }
        _ => {
            let ty = check_expression(alloc, scope, Position::Whole, expr)?;
            let mut tys = List::new(alloc);
            tys.add(ty)?;
            Ok(Some(tys))
        }
    }
}
