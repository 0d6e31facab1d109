ghost use Rattle.std.specs.Prelude.{◌≡◌};
ghost use Rattle.op_network.specs.Operators as spec;

use crate::form::{Binary, Unary};
use crate::value::Ty;

/// Whether two types are one.
fn is_same_type(a: Ty, b: Ty) -> bool
    ensures { result ≡ spec.is_same_type a b }
{
    match (a, b) {
        (Ty::Truth, Ty::Truth) => true,
        (Ty::Word, Ty::Word) => true,
        (Ty::Choice(a), Ty::Choice(b)) => a == b,
        _ => false,
    }
}

/// A type, over two operands of one given type.
fn over(operand: Ty, to: Ty, a: Ty, b: Ty) -> Option<Ty>
    ensures { result ≡ spec.over operand to a b }
{
    if is_same_type(a, operand) && is_same_type(b, operand) {
        Some(to)
    } else {
        None
    }
}

/// A type, over two operands of any one type.
fn alike(to: Ty, a: Ty, b: Ty) -> Option<Ty>
    ensures { result ≡ spec.alike to a b }
{
    if is_same_type(a, b) { Some(to) } else { None }
}

/// The type of an operator over an operand of this type. `None` where it takes no such operand.
pub fn unary_type(op: Unary, a: Ty) -> Option<Ty>
    ensures { result ≡ spec.unary_type op a }
{
    match op {
        Unary::Id => Some(a),
        Unary::Not => over(Ty::Truth, Ty::Truth, a, a),
        Unary::Neg => over(Ty::Word, Ty::Word, a, a),
    }
}

/// The type of an operator over operands of these types. `None` where it takes no such operands.
pub fn binary_type(op: Binary, a: Ty, b: Ty) -> Option<Ty>
    ensures { result ≡ spec.binary_type op a b }
{
    match op {
        Binary::And | Binary::Or | Binary::Xor | Binary::Imp => over(Ty::Truth, Ty::Truth, a, b),
        Binary::Eq | Binary::Ne => alike(Ty::Truth, a, b),
        Binary::Lt | Binary::Le | Binary::Gt | Binary::Ge => over(Ty::Word, Ty::Truth, a, b),
        Binary::Add | Binary::Sub | Binary::Mul => over(Ty::Word, Ty::Word, a, b),
    }
}

/// The type of `if a then b else c` over parts of these types. `None` where there is none.
pub fn if_type(a: Ty, b: Ty, c: Ty) -> Option<Ty>
    ensures { result ≡ spec.if_type a b c }
{
    if is_same_type(a, Ty::Truth) {
        alike(b, b, c)
    } else {
        None
    }
}

/// The type of `a -> b` over parts of these types. `None` where they differ.
pub fn arrow_type(a: Ty, b: Ty) -> Option<Ty>
    ensures { result ≡ spec.arrow_type a b }
{
    alike(a, a, b)
}
