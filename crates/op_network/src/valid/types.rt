ghost use Rattle.std.specs.Prelude.{◌≡◌, ◌<◌, ◌≤◌, ◌-◌, ◌^◌, ◌↔◌, ◌+ℤ◌, ◌≤ℤ◌, ◌<ℤ◌, pos, length, slice_get, IsTrue};
ghost use Rattle.op_network.specs.declared.edge.Choice.{Choice as ChoiceValue};
ghost use Rattle.op_network.specs.Valid as spec;
ghost use Rattle.op_network.specs.Values.{IsWord};

use crate::edge::{Choice, Edge, EdgeId, Op, Parts};
use crate::form::{Binary, Form, Unary};
use crate::limits::{LEAST_WIDTH, MOST_WIDTH};
use crate::types::{arrow_type, binary_type, if_type, unary_type};
use crate::value::{Ty, Value};

/// The type of an edge.
pub(crate) fn type_of(edges: &[Edge], e: EdgeId) -> Option<Ty>
    ensures { result ≡ spec.type_of edges.now e }
{
    edges.get(e.0 as usize).map(|edge| edge.ty)
}

/// Whether a choice is one of the network's.
fn is_type(parts: &Parts, ty: Ty) -> bool
    ensures { IsTrue result ↔ spec.IsTypeOf parts.now ty }
{
    match ty {
        Ty::Truth => true,
        Ty::Word => true,
        Ty::Choice(choice) => (choice as usize) < parts.choices.len(),
    }
}

/// Whether a word is in the range of a width.
fn is_word(width: u32, word: i32) -> bool
    requires narrowest { LEAST_WIDTH ≤ width }
    requires widest { width ≤ MOST_WIDTH }
    ensures { IsTrue result ↔ IsWord width word }
{
    let half = 1i64 << (width - 1);
    let word = word as i64;
    -half <= word && word < half
}

fn is_enumerator(choices: &[Choice], choice: u32, value: u8) -> bool
    ensures { IsTrue result ↔ spec.IsEnumerator choices.now choice value }
{
    match choices.get(choice as usize) {
        Some(choice) => (value as usize) < choice.names.len(),
        None => false,
    }
}

/// Whether a value is of a type.
pub(crate) fn has_type(parts: &Parts, value: Value, ty: Ty) -> bool
    requires narrowest { LEAST_WIDTH ≤ parts.now.width }
    requires widest { parts.now.width ≤ MOST_WIDTH }
    ensures { IsTrue result ↔ spec.HasType parts.now value ty }
{
    match value {
        Value::Truth(_) => matches!(ty, Ty::Truth),
        Value::Word(word) => matches!(ty, Ty::Word) && is_word(parts.width, word),
        Value::Choice(value) => match ty {
            Ty::Truth => false,
            Ty::Word => false,
            Ty::Choice(choice) => is_enumerator(parts.choices.as_slice(), choice, value),
        },
    }
}

/// The type of an operator with one operand. What has no type gives none.
fn unary_type_of(op: Unary, a: Option<Ty>) -> Option<Ty>
    ensures { result ≡ spec.unary_type_of op a }
{
    unary_type(op, a?)
}

fn binary_type_of(op: Binary, a: Option<Ty>, b: Option<Ty>) -> Option<Ty>
    ensures { result ≡ spec.binary_type_of op a b }
{
    binary_type(op, a?, b?)
}

fn if_type_of(a: Option<Ty>, b: Option<Ty>, c: Option<Ty>) -> Option<Ty>
    ensures { result ≡ spec.if_type_of a b c }
{
    if_type(a?, b?, c?)
}

fn arrow_type_of(a: Option<Ty>, b: Option<Ty>) -> Option<Ty>
    ensures { result ≡ spec.arrow_type_of a b }
{
    arrow_type(a?, b?)
}

/// Whether an operator and its operands have the types that it asks for.
fn is_well_typed(parts: &Parts, op: Op, ty: Ty) -> bool
    requires narrowest { LEAST_WIDTH ≤ parts.now.width }
    requires widest { parts.now.width ≤ MOST_WIDTH }
    ensures { IsTrue result ↔ spec.IsWellTyped parts.now op ty }
{
    let edges = parts.edges.as_slice();
    match op.form() {
        Form::Input(_) => is_type(parts, ty),
        Form::Const(value) => has_type(parts, value, ty),
        Form::One(op, a) => unary_type_of(op, type_of(edges, a)) == Some(ty),
        Form::Two(op, a, b) => {
            binary_type_of(op, type_of(edges, a), type_of(edges, b)) == Some(ty)
        }
        Form::Ite(a, b, c) => {
            if_type_of(type_of(edges, a), type_of(edges, b), type_of(edges, c)) == Some(ty)
        }
        Form::Arrow(a, b) => arrow_type_of(type_of(edges, a), type_of(edges, b)) == Some(ty),
        Form::Pre(a) => type_of(edges, a) == Some(ty),
    }
}

/// Whether the edges have types of the network.
pub(super) fn have_types(parts: &Parts) -> bool
    ensures { IsTrue result ↔ spec.HaveTypes parts.now }
{
    parts
        .edges
        .as_slice()
        .iter()
        .all(|edge| is_type(parts, edge.ty))
}

/// Whether the edges are well typed.
pub(super) fn are_well_typed(parts: &Parts) -> bool
    requires narrowest { LEAST_WIDTH ≤ parts.now.width }
    requires widest { parts.now.width ≤ MOST_WIDTH }
    ensures { IsTrue result ↔ spec.AreWellTyped parts.now }
{
    parts
        .edges
        .as_slice()
        .iter()
        .all(|edge| is_well_typed(parts, edge.op, edge.ty))
}
