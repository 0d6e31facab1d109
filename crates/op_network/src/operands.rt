ghost use Rattle.std.specs.Prelude.{◌≡◌, ◌<◌, [], ◌∷◌, length, slice_get};
ghost use Rattle.op_network.specs.Operators.{operands, operands_of};

use crate::edge::{Edge, EdgeId, Op};
use crate::form::Form;

/// How many operands an operator has.
fn arity(op: Op) -> u8
    ensures { result ≡ length (operands op) }
{
    match op.form() {
        Form::Input(_) | Form::Const(_) => 0,
        Form::One(_, _) | Form::Pre(_) => 1,
        Form::Two(_, _, _) | Form::Arrow(_, _) => 2,
        Form::Ite(_, _, _) => 3,
    }
}

fn only(a: EdgeId, port: u8) -> Option<EdgeId>
    ensures { result ≡ slice_get (a ∷ []) port }
{
    if port == 0 { Some(a) } else { None }
}

/// The first operand or the second.
fn one_of_two(a: EdgeId, b: EdgeId, port: u8) -> Option<EdgeId>
    ensures { result ≡ slice_get (a ∷ b ∷ []) port }
{
    match port {
        0 => Some(a),
        1 => Some(b),
        _ => None,
    }
}

/// The first operand, the second or the third.
fn one_of_three(a: EdgeId, b: EdgeId, c: EdgeId, port: u8) -> Option<EdgeId>
    ensures { result ≡ slice_get (a ∷ b ∷ c ∷ []) port }
{
    match port {
        0 => Some(a),
        1 => Some(b),
        2 => Some(c),
        _ => None,
    }
}

/// The operand of an operator at a port.
fn operand_at(op: Op, port: u8) -> Option<EdgeId>
    ensures { result ≡ slice_get (operands op) port }
{
    match op.form() {
        Form::Input(_) | Form::Const(_) => None,
        Form::One(_, a) | Form::Pre(a) => only(a, port),
        Form::Two(_, a, b) | Form::Arrow(a, b) => one_of_two(a, b, port),
        Form::Ite(a, b, c) => one_of_three(a, b, c, port),
    }
}

/// How many operands an edge has.
pub(crate) fn ports(edges: &[Edge], e: EdgeId) -> u8
    requires { e.0 < length edges.now }
    ensures { result ≡ length (operands_of edges.now e) }
{
    arity(edges[e.0 as usize].op)
}

/// The operand at a port of an edge, if it has that port.
pub(crate) fn operand(edges: &[Edge], e: EdgeId, port: u8) -> Option<EdgeId>
    requires { e.0 < length edges.now }
    ensures { result ≡ slice_get (operands_of edges.now e) port }
{
    operand_at(edges[e.0 as usize].op, port)
}

/// The operand at a port that the edge has.
pub(crate) fn operand_within(edges: &[Edge], e: EdgeId, port: u8) -> EdgeId
    requires edge { e.0 < length edges.now }
    requires port { port < length (operands_of edges.now e) }
    ensures { slice_get (operands_of edges.now e) port ≡ Some result }
{
    match operand(edges, e, port) {
        Some(operand) => operand,
        None => unreachable!(),
    }
}
