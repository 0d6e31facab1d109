use crate::form::{Binary, Form, Unary};
use crate::value::{Ty, Value};
use cov_base::{List, Text};

/// An edge, by its place among the network's edges, from 0.
#[derive(Clone, Copy, Debug, PartialEq, Eq)]
pub struct EdgeId(pub u32);

/// The operator of an edge, with the edges that it reads in the order of its ports. Truths are
/// combined by `Not`, `And`, `Or`, `Xor` and `Imp`, words by `Neg`, `Add`, `Sub` and `Mul`, whose
/// results are wrapped to the width, and compared as signed numbers by `Lt`, `Le`, `Gt` and `Ge`;
/// `Eq` and `Ne` compare two values of one type.
#[derive(Clone, Copy, Debug, PartialEq, Eq)]
pub enum Op {
    /// The input of that place, from 0.
    Input(u32),
    Const(Value),
    Id(EdgeId),
    Not(EdgeId),
    Neg(EdgeId),
    And(EdgeId, EdgeId),
    Or(EdgeId, EdgeId),
    /// The operands differ.
    Xor(EdgeId, EdgeId),
    /// The first operand is false or the second is true.
    Imp(EdgeId, EdgeId),
    Eq(EdgeId, EdgeId),
    Ne(EdgeId, EdgeId),
    Lt(EdgeId, EdgeId),
    Le(EdgeId, EdgeId),
    Gt(EdgeId, EdgeId),
    Ge(EdgeId, EdgeId),
    Add(EdgeId, EdgeId),
    Sub(EdgeId, EdgeId),
    Mul(EdgeId, EdgeId),
    /// The second operand where the first is true, and else the third.
    Ite(EdgeId, EdgeId, EdgeId),
    /// The first operand at instant 0, and the second later.
    Arrow(EdgeId, EdgeId),
    /// The operand at the instant before; at instant 0 the default of its type.
    Pre(EdgeId),
}

impl Op {
    ghost use Rattle.std.specs.Prelude.{◌≡◌};
    ghost use Rattle.op_network.specs.Operators.{form_of};

    /// The operator by how many operands it has. In constant time.
    pub fn form(self) -> Form
        ensures { result ≡ form_of self }
    {
        match self {
            Op::Input(input) => Form::Input(input),
            Op::Const(value) => Form::Const(value),
            Op::Id(a) => Form::One(Unary::Id, a),
            Op::Not(a) => Form::One(Unary::Not, a),
            Op::Neg(a) => Form::One(Unary::Neg, a),
            Op::And(a, b) => Form::Two(Binary::And, a, b),
            Op::Or(a, b) => Form::Two(Binary::Or, a, b),
            Op::Xor(a, b) => Form::Two(Binary::Xor, a, b),
            Op::Imp(a, b) => Form::Two(Binary::Imp, a, b),
            Op::Eq(a, b) => Form::Two(Binary::Eq, a, b),
            Op::Ne(a, b) => Form::Two(Binary::Ne, a, b),
            Op::Lt(a, b) => Form::Two(Binary::Lt, a, b),
            Op::Le(a, b) => Form::Two(Binary::Le, a, b),
            Op::Gt(a, b) => Form::Two(Binary::Gt, a, b),
            Op::Ge(a, b) => Form::Two(Binary::Ge, a, b),
            Op::Add(a, b) => Form::Two(Binary::Add, a, b),
            Op::Sub(a, b) => Form::Two(Binary::Sub, a, b),
            Op::Mul(a, b) => Form::Two(Binary::Mul, a, b),
            Op::Ite(a, b, c) => Form::Ite(a, b, c),
            Op::Arrow(a, b) => Form::Arrow(a, b),
            Op::Pre(a) => Form::Pre(a),
        }
    }
}

/// An edge: its operator, its type and its name. `named` is true for inputs and for the edges of
/// variables and of assertions, `asserted` for the edges that stem from an assertion.
#[derive(Debug, Drop)]
pub struct Edge {
    pub op: Op,
    pub ty: Ty,
    pub name: Text,
    pub named: bool,
    pub asserted: bool,
}

/// An enumerated type: its name and the names of its enumerators, in order.
#[derive(Debug, Drop)]
pub struct Choice {
    pub name: Text,
    pub names: List<Text>,
}

/// What a network is made of. The width is that of words, in bits.
#[derive(Debug, Drop)]
pub struct Parts {
    pub width: u32,
    pub choices: List<Choice>,
    pub edges: List<Edge>,
    pub inputs: List<EdgeId>,
    pub outputs: List<EdgeId>,
    pub asserts: List<EdgeId>,
}
