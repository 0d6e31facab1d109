use crate::edge::EdgeId;
use crate::value::Value;

/// An ordinary operator with one operand.
#[derive(Clone, Copy, Debug, PartialEq, Eq)]
pub enum Unary {
    Id,
    Not,
    Neg,
}

/// An ordinary operator with two operands.
#[derive(Clone, Copy, Debug, PartialEq, Eq)]
pub enum Binary {
    And,
    Or,
    Xor,
    Imp,
    Eq,
    Ne,
    Lt,
    Le,
    Gt,
    Ge,
    Add,
    Sub,
    Mul,
}

/// An operator of an edge by how many operands it has. Rules that go by the form have a row for
/// each of these, and not for each operator.
#[derive(Clone, Copy, Debug, PartialEq, Eq)]
pub enum Form {
    Input(u32),
    Const(Value),
    One(Unary, EdgeId),
    Two(Binary, EdgeId, EdgeId),
    Ite(EdgeId, EdgeId, EdgeId),
    Arrow(EdgeId, EdgeId),
    Pre(EdgeId),
}
