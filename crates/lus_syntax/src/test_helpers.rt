//! What tests of several modules use: trees as bytes without their places, nested texts, and a
//! program of five declarations.

use crate::ast::{Ast, BinOp, Decl, Expr, ExprKind, Group, Item, Spot, UnOp};
use cov_base::{List, Memory};
use itoa::Buffer;
use std::alloc::Global;

/// The alarm controller: a type, a constant and three nodes that call each other.
pub(crate) const ALARM: &[u8] = b"type mode = enum { Idle, Armed, Ring };
const LIMIT = 2;
node rise(x: bool) returns (y: bool);
let y = false -> x and not pre x; tel
node count(up, reset: bool) returns (n: int);
var p: int;
let p = 0 -> pre n;
  n = if reset then 0 else if up and p < LIMIT then p + 1 else p; tel
node alarm(arm, sensor, clear: bool) returns (siren: bool; m: mode);
var n: int; last: mode; hit: bool;
let assert not (arm and clear);
  hit = rise(sensor);
  last = Idle -> pre m;
  n = count(hit and last = Armed, clear);
  m = if clear then Idle else if last = Idle and arm then Armed
      else if last = Armed and n >= LIMIT then Ring else last;
  siren = m = Ring; tel
";

fn before(op: UnOp) -> &'static [u8] {
    match op {
        UnOp::Not => b"not ",
        UnOp::Neg => b"neg ",
        UnOp::Pre => b"pre ",
        UnOp::Current => b"current ",
    }
}

fn between(op: BinOp) -> &'static [u8] {
    match op {
        BinOp::And => b"and ",
        BinOp::Or => b"or ",
        BinOp::Xor => b"xor ",
        BinOp::Imp => b"=> ",
        BinOp::Eq => b"= ",
        BinOp::Ne => b"<> ",
        BinOp::Lt => b"< ",
        BinOp::Le => b"<= ",
        BinOp::Gt => b"> ",
        BinOp::Ge => b">= ",
        BinOp::Add => b"+ ",
        BinOp::Sub => b"- ",
        BinOp::Mul => b"* ",
        BinOp::Div => b"div ",
        BinOp::Mod => b"mod ",
        BinOp::Arrow => b"-> ",
        BinOp::Fby => b"fby ",
        BinOp::When => b"when ",
    }
}

/// Writes each operator before its operands, and a call with a mark for each argument before them.
#[cycle(outline)]
pub(crate) fn outline_expr(expr: &Expr, into: &mut List<u8>) -> Result<(), Memory> {
    match &expr.kind {
        ExprKind::Name(name) => outline_word(name.bytes(), into),
        ExprKind::Number(number) => {
            let mut buffer = Buffer::new();
            outline_word(buffer.format(*number).as_bytes(), into)
        }
        ExprKind::Truth(true) => into.extend_from_slice(b"true "),
        ExprKind::Truth(false) => into.extend_from_slice(b"false "),
        ExprKind::One(op, a) => {
            into.extend_from_slice(before(*op))?;
            outline_expr(a.get(), into)
        }
        ExprKind::Two(op, a, b) => {
            into.extend_from_slice(between(*op))?;
            outline_expr(a.get(), into)?;
            outline_expr(b.get(), into)
        }
        ExprKind::Cond(a, b, c) => {
            into.extend_from_slice(b"if ")?;
            outline_expr(a.get(), into)?;
            outline_expr(b.get(), into)?;
            outline_expr(c.get(), into)
        }
        ExprKind::Call(name, arguments) => {
            into.extend_from_slice(name.bytes())?;
            into.extend_from_slice(b"(")?;
            for _ in arguments.as_slice() {
                into.extend_from_slice(b"_")?;
            }
            into.extend_from_slice(b") ")?;
            outline_exprs(arguments.as_slice(), into)
        }
    }
}

#[cycle(outline)]
fn outline_exprs(exprs: &[Expr], into: &mut List<u8>) -> Result<(), Memory> {
    for expr in exprs {
        outline_expr(expr, into)?;
    }
    Ok(())
}

fn outline_word(word: &[u8], into: &mut List<u8>) -> Result<(), Memory> {
    into.extend_from_slice(word)?;
    into.extend_from_slice(b" ")
}

fn outline_spots(spots: &[Spot], into: &mut List<u8>) -> Result<(), Memory> {
    for spot in spots {
        outline_word(spot.text.bytes(), into)?;
    }
    into.extend_from_slice(b"; ")
}

fn outline_groups(groups: &[Group], into: &mut List<u8>) -> Result<(), Memory> {
    for group in groups {
        outline_spots(group.names.as_slice(), into)?;
        outline_word(group.ty.text.bytes(), into)?;
        if let Some(clock) = &group.clock {
            outline_word(clock.text.bytes(), into)?;
        }
        into.extend_from_slice(b"; ")?;
    }
    into.extend_from_slice(b"; ")
}

fn outline_item(item: &Item, into: &mut List<u8>) -> Result<(), Memory> {
    match item {
        Item::Assert { expr, .. } => {
            into.extend_from_slice(b"assert ")?;
            outline_expr(expr, into)
        }
        Item::Equation { left, expr, .. } => {
            into.extend_from_slice(b"equation ")?;
            outline_spots(left.as_slice(), into)?;
            outline_expr(expr, into)
        }
    }
}

fn outline_items(items: &[Item], into: &mut List<u8>) -> Result<(), Memory> {
    for item in items {
        outline_item(item, into)?;
    }
    into.extend_from_slice(b"; ")
}

fn outline_decl(decl: &Decl, into: &mut List<u8>) -> Result<(), Memory> {
    match decl {
        Decl::TypeDecl { name, choices, .. } => {
            into.extend_from_slice(b"type ")?;
            outline_word(name.text.bytes(), into)?;
            outline_spots(choices.as_slice(), into)
        }
        Decl::ConstDecl {
            name,
            ty,
            value,
            ..
        } => {
            into.extend_from_slice(b"const ")?;
            outline_word(name.text.bytes(), into)?;
            if let Some(ty) = ty {
                into.extend_from_slice(b": ")?;
                outline_word(ty.text.bytes(), into)?;
            }
            if let Some(value) = value {
                into.extend_from_slice(b"is ")?;
                outline_expr(value, into)?;
            }
            into.extend_from_slice(b"; ")
        }
        Decl::NodeDecl {
            name,
            inputs,
            outputs,
            locals,
            items,
            ..
        } => {
            into.extend_from_slice(b"node ")?;
            outline_word(name.text.bytes(), into)?;
            outline_groups(inputs.as_slice(), into)?;
            outline_groups(outputs.as_slice(), into)?;
            outline_groups(locals.as_slice(), into)?;
            outline_items(items.as_slice(), into)
        }
    }
}

/// A tree as bytes: two trees have the same ones where they are the same but for places.
pub(crate) fn outline(alloc: Global, ast: &Ast) -> Result<List<u8>, Memory> {
    let mut into = List::new(alloc);
    for decl in ast.decls.as_slice() {
        outline_decl(decl, &mut into)?;
    }
    Ok(into)
}

/// Appends the first text so many times, the second one, and the third one as many times.
pub(crate) fn nest(
    into: &mut List<u8>,
    count: u32,
    first: &[u8],
    middle: &[u8],
    last: &[u8],
) -> Result<(), Memory> {
    for _ in 0..count {
        into.extend_from_slice(first)?;
    }
    into.extend_from_slice(middle)?;
    for _ in 0..count {
        into.extend_from_slice(last)?;
    }
    Ok(())
}
