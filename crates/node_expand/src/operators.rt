ghost use Rattle.std.specs.Prelude.{◌≡◌};
ghost use Rattle.lus_types.specs.Programs.{or_truth};
ghost use Rattle.lus_types.specs.Types as types;
ghost use Rattle.op_network.specs.Operators as network;
ghost use Rattle.node_expand.specs.Operators as spec;

use lus_syntax::{BinOp, UnOp};
use op_network::{Binary, EdgeId, Op, Ty, Unary, arrow_type, binary_type, if_type, unary_type};

/// The operator of networks with one operand, if it is one.
fn ordinary_unary(op: UnOp) -> Option<Unary>
    ensures { result ≡ types.ordinary_unary op }
{
    match op {
        UnOp::Not => Some(Unary::Not),
        UnOp::Neg => Some(Unary::Neg),
        UnOp::Pre | UnOp::Current => None,
    }
}

/// The operator of networks with two operands, if it is one.
fn ordinary_binary(op: BinOp) -> Option<Binary>
    ensures { result ≡ types.ordinary_binary op }
{
    match op {
        BinOp::And => Some(Binary::And),
        BinOp::Or => Some(Binary::Or),
        BinOp::Xor => Some(Binary::Xor),
        BinOp::Imp => Some(Binary::Imp),
        BinOp::Eq => Some(Binary::Eq),
        BinOp::Ne => Some(Binary::Ne),
        BinOp::Lt => Some(Binary::Lt),
        BinOp::Le => Some(Binary::Le),
        BinOp::Gt => Some(Binary::Gt),
        BinOp::Ge => Some(Binary::Ge),
        BinOp::Add => Some(Binary::Add),
        BinOp::Sub => Some(Binary::Sub),
        BinOp::Mul => Some(Binary::Mul),
        BinOp::Div | BinOp::Mod | BinOp::Arrow | BinOp::Fby | BinOp::When => None,
    }
}

/// An ordinary operator over an edge.
fn unary_op(op: Unary, a: EdgeId) -> Op
    ensures { result ≡ spec.unary_op op a }
{
    match op {
        Unary::Id => Op::Id(a),
        Unary::Not => Op::Not(a),
        Unary::Neg => Op::Neg(a),
    }
}

/// An ordinary operator over two edges.
fn binary_op(op: Binary, a: EdgeId, b: EdgeId) -> Op
    ensures { result ≡ spec.binary_op op a b }
{
    match op {
        Binary::And => Op::And(a, b),
        Binary::Or => Op::Or(a, b),
        Binary::Xor => Op::Xor(a, b),
        Binary::Imp => Op::Imp(a, b),
        Binary::Eq => Op::Eq(a, b),
        Binary::Ne => Op::Ne(a, b),
        Binary::Lt => Op::Lt(a, b),
        Binary::Le => Op::Le(a, b),
        Binary::Gt => Op::Gt(a, b),
        Binary::Ge => Op::Ge(a, b),
        Binary::Add => Op::Add(a, b),
        Binary::Sub => Op::Sub(a, b),
        Binary::Mul => Op::Mul(a, b),
    }
}

/// The operator of an edge that reads one: of those that typing takes, only `pre` isn't ordinary.
pub(crate) fn op_of_one(op: UnOp, a: EdgeId) -> Op
    ensures { result ≡ spec.op_of_one (types.ordinary_unary op) a }
{
    match ordinary_unary(op) {
        Some(op) => unary_op(op, a),
        None => Op::Pre(a),
    }
}

/// The operator of an edge that reads two: of those that typing takes, only `->` isn't ordinary.
pub(crate) fn op_of_two(op: BinOp, a: EdgeId, b: EdgeId) -> Op
    ensures { result ≡ spec.op_of_two (types.ordinary_binary op) a b }
{
    match ordinary_binary(op) {
        Some(op) => binary_op(op, a, b),
        None => Op::Arrow(a, b),
    }
}

/// A type that typing has found.
fn or_truth(ty: Option<Ty>) -> Ty
    ensures { result ≡ or_truth ty }
{
    match ty {
        Some(ty) => ty,
        None => Ty::Truth,
    }
}

fn is_pre(op: UnOp) -> bool
    ensures { result ≡ types.is_pre op }
{
    match op {
        UnOp::Pre => true,
        UnOp::Not | UnOp::Neg | UnOp::Current => false,
    }
}

fn is_arrow(op: BinOp) -> bool
    ensures { result ≡ types.is_arrow op }
{
    match op {
        BinOp::Arrow => true,
        BinOp::And
        | BinOp::Or
        | BinOp::Xor
        | BinOp::Imp
        | BinOp::Eq
        | BinOp::Ne
        | BinOp::Lt
        | BinOp::Le
        | BinOp::Gt
        | BinOp::Ge
        | BinOp::Add
        | BinOp::Sub
        | BinOp::Mul
        | BinOp::Div
        | BinOp::Mod
        | BinOp::Fby
        | BinOp::When => false,
    }
}

/// The type of an operator over an operand of this type.
pub(crate) fn type_of_one(op: UnOp, a: Ty) -> Ty
    ensures { result ≡ or_truth (types.unary op a) }
{
    match ordinary_unary(op) {
        Some(op) => or_truth(unary_type(op, a)),
        None => { if is_pre(op) { a } else { Ty::Truth } }
    }
}

/// The type of an operator over operands of these types.
pub(crate) fn type_of_two(op: BinOp, a: Ty, b: Ty) -> Ty
    ensures { result ≡ or_truth (types.binary op a b) }
{
    match ordinary_binary(op) {
        Some(op) => or_truth(binary_type(op, a, b)),
        None => {
            if is_arrow(op) {
                or_truth(arrow_type(a, b))
            } else {
                Ty::Truth
            }
        }
    }
}

/// The type of `if` over parts of these types.
pub(crate) fn type_of_if(a: Ty, b: Ty, c: Ty) -> Ty
    ensures { result ≡ or_truth (network.if_type a b c) }
{
    or_truth(if_type(a, b, c))
}
