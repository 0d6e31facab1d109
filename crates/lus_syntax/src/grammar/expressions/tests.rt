use super::*;
use crate::limits::MOST_BYTES;
use crate::test_helpers::{nest, outline_expr};
use crate::tokens::lexer::lex;
use cov_base::List;
use std::test::Fail;

/// The outline of the expression that a text is. None where tokens are left.
fn read(alloc: Global, text: &[u8]) -> Result<Option<List<u8>>, PartFault> {
    if text.len() > MOST_BYTES {
        return Ok(None);
    }
    let Ok(tokens) = lex(alloc, text) else {
        return Ok(None);
    };
    let (expr, rest) = expression(alloc, text, tokens.as_slice())?;
    if !rest.is_empty() {
        return Ok(None);
    }
    let mut into = List::new(alloc);
    outline_expr(&expr, &mut into)?;
    Ok(Some(into))
}

/// The outline of the expression that a text is, and nothing where it is none.
fn outlined(alloc: Global, text: &[u8]) -> List<u8> {
    match read(alloc, text) {
        Ok(Some(outline)) => outline,
        Ok(None) | Err(_) => List::new(alloc),
    }
}

#[test]
fn operators(rt: HostRuntime) {
    for (text, want) in [
        (b"a - b - c".as_slice(), b"- - a b c ".as_slice()),
        (b"a -> b -> c", b"-> a -> b c "),
        (b"a fby b -> c", b"fby a -> b c "),
        (b"a => b => c", b"=> a => b c "),
        (b"x when y when z", b"when when x y z "),
        (b"a and b or c xor d", b"xor or and a b c d "),
        (b"a * b + c div d - 1 mod e", b"- + * a b div c d mod 1 e "),
        (b"a < b and c <> d", b"and < a b <> c d "),
        (b"a > b or c <= d", b"or > a b <= c d "),
        (b"a >= b", b">= a b "),
        (b"not a = b", b"= not a b "),
        (b"not a and b", b"and not a b "),
        (b"a - - b", b"- a neg b "),
        (b"- a when b * true", b"* when neg a b true "),
        (b"pre not x", b"pre not x "),
        (b"pre not not pre x", b"pre not not pre x "),
        (b"pre pre a fby current b", b"fby pre pre a current b "),
    ] {
        assert_eq!(rt; outlined(rt.alloc(), text).as_slice(), want);
    }
}

#[test]
fn ifs_calls_and_parentheses(rt: HostRuntime) {
    for (text, want) in [
        (
            b"if a then b else c + d".as_slice(),
            b"if a b + c d ".as_slice(),
        ),
        (b"- if a then b else c", b"neg if a b c "),
        (b"pre not if a then b else c", b"pre not if a b c "),
        (b"a + if b then c else d -> e", b"+ a if b c -> d e "),
        (b"a when if b then c else d", b"when a if b c d "),
        (b"(if a then b else c) + d", b"+ if a b c d "),
        (b"if if a then b else c then d else e", b"if if a b c d e "),
        (b"if a then if b then c else d else e", b"if a if b c d e "),
        (b"f()", b"f() "),
        (b"f(a, g(b), not c -> d)", b"f(___) a g(_) b -> not c d "),
        (b"(f)", b"f "),
        (b"((a + false) * (b))", b"* + a false b "),
    ] {
        assert_eq!(rt; outlined(rt.alloc(), text).as_slice(), want);
    }
}

#[test]
fn faults(rt: HostRuntime) {
    for (text, left) in [
        (b"".as_slice(), 0),
        (b"a +", 0),
        (b"+ a", 2),
        (b"a = b = c", 2),
        (b"a < b >= c", 2),
        (b"- not x", 2),
        (b"current not x", 2),
        (b"a + not b", 2),
        (b"pre not", 0),
        (b"(a", 0),
        (b"(a b)", 2),
        (b"if a then b", 0),
        (b"if a else b", 2),
        (b"if a then b then", 1),
        (b"if a then b else", 0),
        (b"if a then b else c = d = e", 2),
        (b"f(a,)", 1),
        (b"f(,a)", 3),
        (b"f(a", 0),
        (b"f(a b)", 2),
        (b"1(a)", 3),
        (b"(f)(a)", 3),
        (b"f()(a)", 3),
        (b"f(a)(b)", 3),
    ] {
        let read = read(rt.alloc(), text);
        assert_eq!(rt; read.err(), Some(PartFault::Stuck(left)));
    }
}

// Behind an operator an `if` takes all that follows.
#[test]
fn an_if_behind_operators(rt: HostRuntime) {
    for (text, want) in [
        (
            b"not if a then b else c".as_slice(),
            b"not if a b c ".as_slice(),
        ),
        (b"pre if a then b else c", b"pre if a b c "),
        (b"current if a then b else c", b"current if a b c "),
        (b"- if a then b else c", b"neg if a b c "),
        (b"d when if a then b else c", b"when d if a b c "),
        (b"d * if a then b else c", b"* d if a b c "),
        (b"d + if a then b else c", b"+ d if a b c "),
        (b"d = if a then b else c", b"= d if a b c "),
        (b"d and if a then b else c", b"and d if a b c "),
        (b"d or if a then b else c", b"or d if a b c "),
        (b"d => if a then b else c", b"=> d if a b c "),
        (b"d -> if a then b else c", b"-> d if a b c "),
        (
            b"f(if a then b else c, if c then b else a)",
            b"f(__) if a b c if c b a ",
        ),
    ] {
        assert_eq!(rt; outlined(rt.alloc(), text).as_slice(), want);
    }
}

// Before an operator an `if` ends only at its `)`.
#[test]
fn an_if_before_operators(rt: HostRuntime) {
    for (text, want) in [
        (
            b"if a then b else c when d".as_slice(),
            b"if a b when c d ".as_slice(),
        ),
        (b"if a then b else c * d", b"if a b * c d "),
        (b"if a then b else c + d", b"if a b + c d "),
        (b"if a then b else c = d", b"if a b = c d "),
        (b"if a then b else c and d", b"if a b and c d "),
        (b"if a then b else c or d", b"if a b or c d "),
        (b"if a then b else c => d", b"if a b => c d "),
        (b"if a then b else c -> d", b"if a b -> c d "),
        (b"(if a then b else c) when d", b"when if a b c d "),
        (b"(if a then b else c) * d", b"* if a b c d "),
        (b"(if a then b else c) = d", b"= if a b c d "),
        (b"(if a then b else c) and d", b"and if a b c d "),
        (b"(if a then b else c) or d", b"or if a b c d "),
        (b"(if a then b else c) => d", b"=> if a b c d "),
        (b"(if a then b else c) -> d", b"-> if a b c d "),
    ] {
        assert_eq!(rt; outlined(rt.alloc(), text).as_slice(), want);
    }
}

#[test]
fn depths(rt: HostRuntime) -> Result<(), Fail> {
    for (first, middle, last) in [
        (b"(".as_slice(), b"a".as_slice(), b")".as_slice()),
        (b"not ", b"a", b""),
        (b"pre ", b"a", b""),
        (b"pre not ", b"a", b""),
        (b"a -> ", b"a", b""),
        (b"a - ", b"a", b""),
        (b"a - (", b"a", b")"),
        (b"f(", b"a", b")"),
        (b"if ", b"a", b" then a else a"),
        (b"if a then ", b"a", b" else a"),
        (b"if a then a else ", b"a", b""),
    ] {
        let mut text = List::new(rt.alloc());
        nest(&mut text, 499, first, middle, last)?;
        let read = read(rt.alloc(), text.as_slice());
        assert!(rt; matches!(read, Ok(Some(_))));
    }
    Ok(())
}
