ghost use Rattle.std.specs.Prelude.{◌≡◌};
ghost use Rattle.lus_types.specs.Types as spec;
ghost use Rattle.op_network.specs.Operators.{is_same_type};

use lus_syntax::{BinOp, UnOp};
use op_network::{Binary, Ty, Unary, arrow_type, binary_type, if_type, unary_type};

/// Whether two types are one.
fn same(a: Ty, b: Ty) -> bool
    ensures { result ≡ is_same_type a b }
{
    match (a, b) {
        (Ty::Truth, Ty::Truth) => true,
        (Ty::Word, Ty::Word) => true,
        (Ty::Choice(a), Ty::Choice(b)) => a == b,
        _ => false,
    }
}

/// The operator of networks with one operand, if it is one.
pub(crate) fn ordinary_unary(op: UnOp) -> Option<Unary>
    ensures { result ≡ spec.ordinary_unary op }
{
    match op {
        UnOp::Not => Some(Unary::Not),
        UnOp::Neg => Some(Unary::Neg),
        UnOp::Pre => None,
        UnOp::Current => None,
    }
}

/// The operator of networks with two operands, if it is one.
pub(crate) fn ordinary_binary(op: BinOp) -> Option<Binary>
    ensures { result ≡ spec.ordinary_binary op }
{
    match op {
        BinOp::And => Some(Binary::And),
        BinOp::Or => Some(Binary::Or),
        BinOp::Xor => Some(Binary::Xor),
        BinOp::Imp => Some(Binary::Imp),
        BinOp::Eq => Some(Binary::Eq),
        BinOp::Ne => Some(Binary::Ne),
        BinOp::Lt => Some(Binary::Lt),
        BinOp::Le => Some(Binary::Le),
        BinOp::Gt => Some(Binary::Gt),
        BinOp::Ge => Some(Binary::Ge),
        BinOp::Add => Some(Binary::Add),
        BinOp::Sub => Some(Binary::Sub),
        BinOp::Mul => Some(Binary::Mul),
        BinOp::Div | BinOp::Mod | BinOp::Arrow | BinOp::Fby | BinOp::When => None,
    }
}

/// Whether an operator is `pre`.
fn is_pre(op: UnOp) -> bool
    ensures { result ≡ spec.is_pre op }
{
    match op {
        UnOp::Pre => true,
        UnOp::Not => false,
        UnOp::Neg => false,
        UnOp::Current => false,
    }
}

/// Whether an operator is `->`.
fn is_arrow(op: BinOp) -> bool
    ensures { result ≡ spec.is_arrow op }
{
    match op {
        BinOp::Arrow => true,
        BinOp::And | BinOp::Or | BinOp::Xor | BinOp::Imp | BinOp::Eq | BinOp::Ne => false,
        BinOp::Lt | BinOp::Le | BinOp::Gt | BinOp::Ge | BinOp::Add | BinOp::Sub => false,
        BinOp::Mul | BinOp::Div | BinOp::Mod | BinOp::Fby | BinOp::When => false,
    }
}

/// The result of an operator over one operand, if it takes this type.
fn unary(op: UnOp, a: Ty) -> Option<Ty>
    ensures { result ≡ spec.unary op a }
{
    match ordinary_unary(op) {
        Some(ordinary) => unary_type(ordinary, a),
        None => { if is_pre(op) { Some(a) } else { None } }
    }
}

/// The result of an operator over two operands, if it takes these types.
fn binary(op: BinOp, a: Ty, b: Ty) -> Option<Ty>
    ensures { result ≡ spec.binary op a b }
{
    match ordinary_binary(op) {
        Some(ordinary) => binary_type(ordinary, a, b),
        None => { if is_arrow(op) { arrow_type(a, b) } else { None } }
    }
}

/// The type of an operator over an operand, which may have none.
pub(crate) fn unary_of(op: UnOp, a: Option<Ty>) -> Option<Ty>
    ensures { result ≡ spec.unary_of op a }
{
    unary(op, a?)
}

/// The type of an operator over operands, which may have none.
pub(crate) fn binary_of(op: BinOp, a: Option<Ty>, b: Option<Ty>) -> Option<Ty>
    ensures { result ≡ spec.binary_of op a b }
{
    binary(op, a?, b?)
}

/// The type of `if` over parts, which may have none.
pub(crate) fn conditional_of(a: Option<Ty>, b: Option<Ty>, c: Option<Ty>) -> Option<Ty>
    ensures { result ≡ spec.conditional_of a b c }
{
    if_type(a?, b?, c?)
}

/// Whether each has a type.
pub(crate) fn all_typed(tys: &[Option<Ty>]) -> bool
    ensures { result ≡ spec.all_typed tys.now }
{
    for ty in tys {
        if ty.is_none() {
            return false;
        }
    }
    true
}

/// Whether both have a type, and these differ.
pub(crate) fn differ(a: Option<Ty>, b: Option<Ty>) -> bool
    ensures { result ≡ spec.differ a b }
{
    match (a, b) {
        (Some(a), Some(b)) => !same(a, b),
        _ => false,
    }
}

/// Whether some two in the same place differ.
pub(crate) fn any_differ(first: &[Option<Ty>], second: &[Option<Ty>]) -> bool
    ensures { result ≡ spec.any_differ first.now second.now }
{
    let mut i = 0;
    while i < first.len() && i < second.len() {
        if differ(first[i], second[i]) {
            return true;
        }
        i += 1;
    }
    false
}
