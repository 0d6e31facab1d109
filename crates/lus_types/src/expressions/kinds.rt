ghost use Rattle.std.specs.Prelude.{◌≡◌, ◌≤◌, Some, get_or};
ghost use Rattle.lus_types.specs.Checking as check;
ghost use Rattle.lus_types.specs.Checking.{kind_of};
ghost use Rattle.lus_types.specs.Kinds as spec;
ghost use Rattle.lus_types.specs.Occurrences as thing;
ghost use Rattle.lus_types.specs.Views.{scope_seen, recursions};

use crate::expressions::operators::{all_typed, any_differ, binary_of, conditional_of, unary_of};
use crate::expressions::scope::{Scope, Signature, in_constant, meaning_of, signature_at};
use crate::fault::TypeKind;
use crate::types::{Meaning, Position};
use lus_syntax::{BinOp, UnOp};
use op_network::{LEAST_WIDTH, MOST_WIDTH, Ty};

/// The kind of an operator whose operands have types or not, and which takes them or not.
fn mismatch(typed: bool, over_these: Option<Ty>) -> Option<TypeKind>
    ensures { result ≡ check.mismatch typed over_these }
{
    if typed && over_these.is_none() {
        Some(TypeKind::Mismatch)
    } else {
        None
    }
}

/// Unsupported in a constant, and else this kind.
fn unsupported_in_constant(scope: &Scope, otherwise: Option<TypeKind>) -> Option<TypeKind>
    ensures { result ≡ check.unless_in_constant (scope_seen scope.now) otherwise }
{
    if in_constant(scope) {
        Some(TypeKind::Unsupported)
    } else {
        otherwise
    }
}

/// What is wrong with an operator over an operand of this type.
pub(crate) fn unary_kind(scope: &Scope, op: UnOp, a: Option<Ty>) -> Option<TypeKind>
    ensures { result ≡ kind_of (recursions scope.now.cycles.now)
        (thing.Unary (scope_seen scope.now) op a) }
{
    let wrong = mismatch(a.is_some(), unary_of(op, a));
    match op {
        UnOp::Current => Some(TypeKind::Clocked),
        UnOp::Pre => unsupported_in_constant(scope, wrong),
        UnOp::Not => wrong,
        UnOp::Neg => wrong,
    }
}

/// What is wrong with an operator over operands of these types.
pub(crate) fn binary_kind(
    scope: &Scope,
    op: BinOp,
    a: Option<Ty>,
    b: Option<Ty>,
) -> Option<TypeKind>
    ensures { result ≡ kind_of (recursions scope.now.cycles.now)
        (thing.Binary (scope_seen scope.now) op a b) }
{
    let wrong = mismatch(a.is_some() && b.is_some(), binary_of(op, a, b));
    match op {
        BinOp::When => Some(TypeKind::Clocked),
        BinOp::Div | BinOp::Mod | BinOp::Fby => Some(TypeKind::Unsupported),
        BinOp::Arrow => unsupported_in_constant(scope, wrong),
        BinOp::And | BinOp::Or | BinOp::Xor | BinOp::Imp => wrong,
        BinOp::Eq | BinOp::Ne => wrong,
        BinOp::Lt | BinOp::Le | BinOp::Gt | BinOp::Ge => wrong,
        BinOp::Add | BinOp::Sub | BinOp::Mul => wrong,
    }
}

/// What is wrong with an `if` over parts of these types.
pub(crate) fn conditional_kind(
    scope: &Scope,
    a: Option<Ty>,
    b: Option<Ty>,
    c: Option<Ty>,
) -> Option<TypeKind>
    ensures { result ≡ kind_of (recursions scope.now.cycles.now) (thing.Conditional a b c) }
{
    mismatch(
        a.is_some() && b.is_some() && c.is_some(),
        conditional_of(a, b, c),
    )
}

/// The greatest literal is one less than half of the numbers of the width, and that half under `-`.
pub(crate) fn literal_kind(scope: &Scope, position: Position, n: u128) -> Option<TypeKind>
    requires narrowest { LEAST_WIDTH ≤ scope.now.width }
    requires widest { scope.now.width ≤ MOST_WIDTH }
    ensures { result ≡ kind_of (recursions scope.now.cycles.now)
        (thing.Literal (scope_seen scope.now) position n) }
{
    let half = 1u128 << (scope.width - 1);
    let too_great = match position {
        Position::Negated => n > half,
        Position::Whole => n >= half,
        Position::Inside => n >= half,
    };
    if too_great {
        Some(TypeKind::LiteralRange)
    } else {
        None
    }
}

/// Whether a call in a position may not have so many results.
fn too_many_results(position: Position, results: usize) -> bool
    ensures { result ≡ spec.too_many_results position results }
{
    match position {
        Position::Whole => false,
        Position::Negated => results != 1,
        Position::Inside => results != 1,
    }
}

/// Whether a call has a wrong number of arguments or of results.
fn wrong_numbers(position: Position, args: usize, signature: &Signature) -> bool
    ensures { result ≡ spec.wrong_numbers position args (Some signature.now) }
{
    args != signature.params.len() || too_many_results(position, signature.results.len())
}

/// Whether the arguments, and the parameters and results of the node, all have types.
pub(crate) fn typed_call(args: &[Option<Ty>], signature: &Signature) -> bool
    ensures { result ≡ thing.typed_call args.now signature.now }
{
    all_typed(args)
        && all_typed(signature.params.as_slice())
        && all_typed(signature.results.as_slice())
}

/// Whether some argument has another type than its parameter, where all parts have types.
fn wrong_arguments(args: &[Option<Ty>], signature: &Signature) -> bool
    ensures { result ≡ spec.wrong_arguments args.now (Some signature.now) }
{
    typed_call(args, signature) && any_differ(args, signature.params.as_slice())
}

/// The kind of a call of a node whose signature this is, if it isn't recursive.
fn signature_kind(
    position: Position,
    args: &[Option<Ty>],
    signature: &Signature,
) -> Option<TypeKind>
    ensures { result ≡ check.signature_kind position args.now (Some signature.now) }
{
    if wrong_numbers(position, args.len(), signature) {
        return Some(TypeKind::Arity);
    }
    if wrong_arguments(args, signature) {
        return Some(TypeKind::Mismatch);
    }
    None
}

/// The number of the cycle at a place, or 0.
fn number_at(numbers: &[u32], place: u32) -> u32
    ensures { result ≡ get_or numbers.now place 0 }
{
    match numbers.get(place as usize) {
        Some(number) => *number,
        None => 0,
    }
}

/// What is wrong with a call of the node at a place, as far as recursion goes.
fn recursion_kind(scope: &Scope, callee: u32) -> Option<TypeKind>
    ensures { result
        ≡ check.recursion_kind (recursions scope.now.cycles.now callee scope.now.place) }
{
    if number_at(scope.cycles, callee) == number_at(scope.cycles, scope.place) {
        Some(TypeKind::RecursiveNode)
    } else {
        None
    }
}

/// The kind of a call in a node, of the node at a place.
fn node_call_kind(
    scope: &Scope,
    position: Position,
    callee: u32,
    args: &[Option<Ty>],
) -> Option<TypeKind>
    ensures { result ≡ check.node_call_kind (recursions scope.now.cycles.now)
        (scope_seen scope.now) position callee args.now }
{
    let first = match signature_at(scope, callee) {
        Some(signature) => signature_kind(position, args, signature),
        None => None,
    };
    match first {
        Some(kind) => Some(kind),
        None => recursion_kind(scope, callee),
    }
}

/// What is wrong with a call over arguments of these types.
pub(crate) fn call_kind(
    scope: &Scope,
    position: Position,
    name: &[u8],
    args: &[Option<Ty>],
) -> Option<TypeKind>
    ensures { result ≡ kind_of (recursions scope.now.cycles.now)
        (thing.Call (scope_seen scope.now) position name.now args.now) }
{
    if in_constant(scope) {
        return Some(TypeKind::Unsupported);
    }
    match meaning_of(scope, name) {
        None => Some(TypeKind::Unknown),
        Some(Meaning::Node(callee)) => node_call_kind(scope, position, callee, args),
        Some(Meaning::Enumeration(_)) => Some(TypeKind::NotANode),
        Some(Meaning::Constant(_)) => Some(TypeKind::NotANode),
        Some(Meaning::Enumerator(_, _)) => Some(TypeKind::NotANode),
    }
}
