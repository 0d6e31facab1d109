use super::*;
use crate::ast::{BinOp, Expr, ExprKind, UnOp};
use crate::grammar::builders::{leaf, one_of, two_of};
use crate::grammar::parser::parse;
use crate::limits::MOST_BYTES;
use crate::printing::expressions::put_expr;
use crate::test_helpers::{ALARM, nest, outline};
use crate::tokens::crowding::crowded;
use crate::tokens::lexer::lex;
use cov_base::Text;
use sqlite_items::{Boxed, Items};
use std::alloc::Global;
use std::test::Fail;

fn pop(stack: &mut Items<Expr>) -> Result<Expr, Memory> {
    match stack.pop() {
        Some(expr) => Ok(expr),
        None => Err(Memory),
    }
}

fn one(alloc: Global, op: UnOp, stack: &mut Items<Expr>) -> Result<Expr, Memory> {
    let a = pop(stack)?;
    one_of(alloc, 0, op, a)
}

fn two(alloc: Global, op: BinOp, stack: &mut Items<Expr>) -> Result<Expr, Memory> {
    let b = pop(stack)?;
    let a = pop(stack)?;
    two_of(alloc, 0, op, a, b)
}

fn cond(alloc: Global, stack: &mut Items<Expr>) -> Result<Expr, Memory> {
    let c = pop(stack)?;
    let b = pop(stack)?;
    let a = pop(stack)?;
    let a = Boxed::new(alloc, a)?;
    let b = Boxed::new(alloc, b)?;
    let c = Boxed::new(alloc, c)?;
    Ok(leaf(0, ExprKind::Cond(a, b, c)))
}

/// A call of `f` with two arguments.
fn call(alloc: Global, stack: &mut Items<Expr>) -> Result<Expr, Memory> {
    let b = pop(stack)?;
    let a = pop(stack)?;
    let mut args = Items::new(alloc);
    args.push(a)?;
    args.push(b)?;
    let name = Text::from_bytes(alloc, b"f")?;
    Ok(leaf(0, ExprKind::Call(name, args)))
}

fn name(alloc: Global, byte: u8) -> Result<Expr, Memory> {
    let name = Text::from_bytes(alloc, &[byte])?;
    Ok(leaf(0, ExprKind::Name(name)))
}

/// The operator that a byte stands for behind its operands, or a name.
fn operator(alloc: Global, byte: u8, stack: &mut Items<Expr>) -> Result<Expr, Memory> {
    match byte {
        b'!' => one(alloc, UnOp::Not, stack),
        b'~' => one(alloc, UnOp::Neg, stack),
        b'P' => one(alloc, UnOp::Pre, stack),
        b'C' => one(alloc, UnOp::Current, stack),
        b'>' => two(alloc, BinOp::Arrow, stack),
        b'-' => two(alloc, BinOp::Sub, stack),
        b'+' => two(alloc, BinOp::Add, stack),
        b'*' => two(alloc, BinOp::Mul, stack),
        b'=' => two(alloc, BinOp::Eq, stack),
        b'&' => two(alloc, BinOp::And, stack),
        b'W' => two(alloc, BinOp::When, stack),
        b'?' => cond(alloc, stack),
        b'F' => call(alloc, stack),
        b'9' => Ok(leaf(0, ExprKind::Number(u128::MAX))),
        b'1' => Ok(leaf(0, ExprKind::Truth(true))),
        b'0' => Ok(leaf(0, ExprKind::Truth(false))),
        _ => name(alloc, byte),
    }
}

/// The expression that is written with each operator behind its operands.
fn expr(alloc: Global, postfix: &[u8]) -> Result<Expr, Memory> {
    let mut stack = Items::new(alloc);
    for byte in postfix {
        let expr = operator(alloc, *byte, &mut stack)?;
        stack.push(expr)?;
    }
    pop(&mut stack)
}

#[test]
fn operands_have_parentheses_where_they_need_them(rt: HostRuntime) -> Result<(), Fail> {
    for (postfix, want) in [
        (
            b"0xxP!&>".as_slice(),
            b"false -> x and not pre x".as_slice(),
        ),
        (b"ab>c>", b"(a -> b) -> c"),
        (b"abc>>", b"a -> b -> c"),
        (b"abc--", b"a - (b - c)"),
        (b"ab-c-", b"a - b - c"),
        (b"ab+c*", b"(a + b) * c"),
        (b"ab=c=", b"(a = b) = c"),
        (b"ab=!c=", b"not (a = b) = c"),
        (b"x!P", b"pre not x"),
        (b"x!!P", b"pre not not x"),
        (b"ab+!P", b"pre (not a + b)"),
        (b"ab&!P", b"pre not (a and b)"),
        (b"x!C", b"current (not x)"),
        (b"x~~", b"- - x"),
        (b"abc?d+", b"(if a then b else c) + d"),
        (b"dabc?+", b"d + if a then b else c"),
        (b"dabc?+e>", b"(d + if a then b else c) -> e"),
        (b"abc?de?", b"if if a then b else c then d else e"),
        (
            b"abW1FP9*",
            b"pre f(a when b, true) * 340282366920938463463374607431768211455",
        ),
    ] {
        let tree = expr(rt.alloc(), postfix)?;
        let mut out = List::new(rt.alloc());
        put_expr(&tree, &mut out)?;
        assert_eq!(rt; out.as_slice(), want);
    }
    Ok(())
}

#[test]
fn equations_have_lines_of_their_own(rt: HostRuntime) -> Result<(), Fail> {
    let (out, _) = printed(
        rt.alloc(),
        b"node main(a,b:bool)returns(c:bool);var d:bool;let d=pre(a)and((b));c=true->(d->a)->b;tel",
    )?;
    assert_eq!(rt; out.as_slice(), MAIN);
    Ok(())
}

const MAIN: &[u8] = b"node main(a, b: bool) returns (c: bool);
var
  d: bool;
let
  d = pre a and b;
  c = true -> (d -> a) -> b;
tel
";

#[test]
fn a_program_without_declarations_is_a_line(rt: HostRuntime) -> Result<(), Fail> {
    let decls = List::new(rt.alloc());
    let ast = Ast { decls, length: 0 };
    let mut out = List::new(rt.alloc());
    print(&ast, &mut out)?;
    assert_eq!(rt; out.as_slice(), b"\n".as_slice());
    Ok(())
}

/// What is printed of the tree of a text, and the tree's outline. Nothing where there is no tree.
fn printed(alloc: Global, text: &[u8]) -> Result<(List<u8>, List<u8>), Fail> {
    let mut out = List::new(alloc);
    if text.len() > MOST_BYTES {
        return Ok((out, List::new(alloc)));
    }
    let list = lex(alloc, text)?;
    let tokens = list.as_slice();
    match crowded(tokens) {
        Some(_) => Ok((out, List::new(alloc))),
        None => {
            let ast = parse(alloc, text, tokens)?;
            print(&ast, &mut out)?;
            Ok((out, outline(alloc, &ast)?))
        }
    }
}

const EDGE: &[u8] = b"node edge(x: bool) returns (y: bool); let y = false -> x and not pre x; tel";

const EDGE_PRINTED: &[u8] = b"node edge(x: bool) returns (y: bool);
let
  y = false -> x and not pre x;
tel
";

const ALARM_PRINTED: &[u8] = b"type mode = enum { Idle, Armed, Ring };
const LIMIT = 2;
node rise(x: bool) returns (y: bool);
let
  y = false -> x and not pre x;
tel
node count(up, reset: bool) returns (n: int);
var
  p: int;
let
  p = 0 -> pre n;
  n = if reset then 0 else if up and p < LIMIT then p + 1 else p;
tel
node alarm(arm, sensor, clear: bool) returns (siren: bool; m: mode);
var
  n: int;
  last: mode;
  hit: bool;
let
  assert not (arm and clear);
  hit = rise(sensor);
  last = Idle -> pre m;
  n = count(hit and last = Armed, clear);
  m = if clear then Idle else if last = Idle and arm then Armed else if last = Armed and n >= LIMIT then Ring else last;
  siren = m = Ring;
tel
";

/// Every production that the others lack, laid out at will.
const OTHERS: &[u8] = b"const K:real;const L:int=-1;node f()returns(a:int when b;b:bool;)
let(a,b)=g(1,current(a when b)fby 2*(3 div 4 mod 5),b xor a<>1 or b=>(a<=2 and not(a>=K)),a>K,pre not b);tel.";

const OTHERS_PRINTED: &[u8] = b"const K: real;
const L: int = - 1;
node f() returns (a: int when b; b: bool);
let
  a, b = g(1, current (a when b) fby 2 * (3 div 4 mod 5), b xor a <> 1 or b => a <= 2 and not (a >= K), a > K, pre not b);
tel
";

#[test]
fn what_is_printed_is_read_again(rt: HostRuntime) -> Result<(), Fail> {
    for (source, want) in [
        (EDGE, EDGE_PRINTED),
        (ALARM, ALARM_PRINTED),
        (OTHERS, OTHERS_PRINTED),
    ] {
        let (first, tree) = printed(rt.alloc(), source)?;
        assert_eq!(rt; first.as_slice(), want);
        let (second, again) = printed(rt.alloc(), first.as_slice())?;
        assert_eq!(rt; second.as_slice(), want);
        assert!(rt; !tree.as_slice().is_empty());
        assert_eq!(rt; again.as_slice(), tree.as_slice());
    }
    Ok(())
}

/// A program of one equation, whose right side is nested so many times.
fn nested(alloc: Global, count: u32, first: &[u8], last: &[u8]) -> Result<List<u8>, Memory> {
    let mut text = List::new(alloc);
    text.extend_from_slice(b"node f(x: int) returns (y: int);\nlet\n  y = ")?;
    nest(&mut text, count, first, b"x", last)?;
    text.extend_from_slice(b";\ntel\n")?;
    Ok(text)
}

// The equation's `=` is counted too, so that 499 others are the most.
#[test]
fn depths(rt: HostRuntime) -> Result<(), Fail> {
    for (count, first, last) in [
        (499u32, b"not ".as_slice(), b"".as_slice()),
        (499, b"pre ", b""),
        (249, b"pre not ", b""),
        (499, b"x -> ", b""),
        (166, b"x - (x - ", b")"),
        (499, b"f(", b")"),
        (499, b"if x then x else ", b""),
    ] {
        let text = nested(rt.alloc(), count, first, last)?;
        let (printed, _) = printed(rt.alloc(), text.as_slice())?;
        assert_eq!(rt; printed.as_slice(), text.as_slice());
    }
    Ok(())
}

#[test]
fn parentheses_leave_no_trace(rt: HostRuntime) -> Result<(), Fail> {
    let text = nested(rt.alloc(), 499, b"(", b")")?;
    let plain = nested(rt.alloc(), 0, b"(", b")")?;
    let (most, _) = printed(rt.alloc(), text.as_slice())?;
    assert_eq!(rt; most.as_slice(), plain.as_slice());
    let text = nested(rt.alloc(), 500, b"(", b")")?;
    let (more, _) = printed(rt.alloc(), text.as_slice())?;
    assert!(rt; more.as_slice().is_empty());
    Ok(())
}
