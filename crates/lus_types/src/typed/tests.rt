mod accepted;
mod kinds;
mod walk;

ghost use Rattle.std.specs.Prelude.{IfSome};
ghost use Rattle.lus_syntax.specs.Grammar.{IsTreeOfGrammar};

use super::*;
use lus_syntax::{crowded, lex, parse};
use std::process::Abort;
use std::test::Fail;

/// The most bytes that a text may have, and the most tokens.
const MOST_BYTES: usize = 1_048_576;

/// The tree of a text, if it has one.
fn tree_of(alloc: Global, text: &[u8]) -> Option<Ast>
    ensures { IfSome result (λ ast. IsTreeOfGrammar ast) }
{
    if text.len() > MOST_BYTES {
        return None;
    }
    let list = lex(alloc, text).ok()?;
    let tokens = list.as_slice();
    if tokens.len() > MOST_BYTES {
        return None;
    }
    match crowded(tokens) {
        Some(_) => None,
        None => {
            let ast = parse(alloc, text, tokens).ok()?;
            Some(ast)
        }
    }
}

/// What a check of a text of the grammar answers. None where it is no such text.
fn check(
    alloc: Global,
    text: &[u8],
    width: u32,
    main: Option<&str>,
) -> Option<Result<Typed, TypeFault>> {
    let ast = tree_of(alloc, text)?;
    if ast.decls.len() > MOST_DECLS || width < LEAST_WIDTH || MOST_WIDTH < width {
        return None;
    }
    Some(type_check(alloc, ast, width, main))
}

/// The fault of a text, if a check answers one.
fn fault_of(alloc: Global, text: &[u8], width: u32, main: Option<&str>) -> Option<TypeFault> {
    match check(alloc, text, width, main) {
        Some(Err(fault)) => Some(fault),
        Some(Ok(_)) => None,
        None => None,
    }
}

/// The place of the main node, the width and the number of declarations of a text, if it is typed.
fn typed_of(
    alloc: Global,
    text: &[u8],
    width: u32,
    main: Option<&str>,
) -> Option<(u32, u32, usize)> {
    match check(alloc, text, width, main) {
        Some(Ok(typed)) => Some((typed.main(), typed.width(), typed.ast().decls.len())),
        Some(Err(_)) => None,
        None => None,
    }
}

/// The type and the node that a name means in a text, if the text is typed.
fn meaning_of(alloc: Global, text: &[u8], name: &[u8]) -> Option<(Option<Ty>, Option<u32>)> {
    match check(alloc, text, 32, None) {
        Some(Ok(typed)) => Some((typed.type_named(name), typed.node_named(name))),
        Some(Err(_)) => None,
        None => None,
    }
}

/// What the name `c` means behind these declarations, over words of 4 bits.
fn constant_of(alloc: Global, declarations: &str) -> Result<Option<Constant>, Fail> {
    let node = "node n(a: bool) returns (y: bool) let y = a; tel";
    let text = format!(in alloc; "{declarations} {node}")?;
    match check(alloc, text.as_bytes(), 4, None) {
        Some(Ok(typed)) => Ok(typed.constant_named(b"c")),
        Some(Err(_)) => Ok(None),
        None => Ok(None),
    }
}

/// A type of the enumerators `e0`, `e1` and so on, so many, and then of the last, and a node.
fn type_of(alloc: Global, count: u32, last: &str) -> Result<String, Fail> {
    let mut text = String::from_str(alloc, "type t = enum {")?;
    for i in 0..count {
        text.push_str(format!(in alloc; "e{i}, ")?.as_str())?;
    }
    text.push_str(last)?;
    text.push_str("}; node n(a: bool) returns (y: bool) let y = a; tel")?;
    Ok(text)
}

/// Asks that a text is accepted over words of a width, with so many declarations, and that the main
/// node is the one at a place.
fn accepts(
    rt: &impl Abort,
    alloc: Global,
    text: &str,
    width: u32,
    main: Option<&str>,
    place: u32,
    decls: usize,
) {
    let found = typed_of(alloc, text.as_bytes(), width, main);
    assert_eq!(rt; found, Some((place, width, decls)), "{text}");
}

/// Asks that the first fault of a text over words of a width is of a kind and at a byte.
fn refuses(rt: &impl Abort, alloc: Global, text: &str, width: u32, kind: TypeKind, at: u32) {
    let fault = fault_of(alloc, text.as_bytes(), width, None);
    assert_eq!(rt; fault, Some(TypeFault::Bad { kind, at }), "{text}");
}

#[test]
fn names_of_types_and_of_nodes(rt: HostRuntime) {
    let text = "type t = enum {p}; const c = 1; type u = enum {q}; \
        node n(a: u) returns (y: u) let y = a; tel";
    for (name, ty, node) in [
        ("bool", Some(Ty::Truth), None),
        ("int", Some(Ty::Word), None),
        ("real", None, None),
        ("t", Some(Ty::Choice(0)), None),
        ("u", Some(Ty::Choice(1)), None),
        ("c", None, None),
        ("p", None, None),
        ("n", None, Some(3)),
        ("a", None, None),
    ] {
        let found = meaning_of(rt.alloc(), text.as_bytes(), name.as_bytes());
        assert_eq!(rt; found, Some((ty, node)), "{name}");
    }
}

#[test]
fn too_many_enumerators(rt: HostRuntime) -> Result<(), Fail> {
    let most = type_of(rt.alloc(), 255, "e255")?;
    let found = typed_of(rt.alloc(), most.as_bytes(), 32, None);
    assert_eq!(rt; found, Some((1, 32, 2)));
    for (count, last, kind, at) in [
        (255, "e0", TypeKind::Duplicate, 1435),
        (256, "e256", TypeKind::Unsupported, 1441),
        (256, "e0", TypeKind::Unsupported, 1441),
    ] {
        let text = type_of(rt.alloc(), count, last)?;
        let fault = fault_of(rt.alloc(), text.as_bytes(), 32, None);
        assert_eq!(rt; fault, Some(TypeFault::Bad { kind, at }));
    }
    Ok(())
}

#[test]
fn constants_have_values(rt: HostRuntime) -> Result<(), Fail> {
    for (declarations, ty, value) in [
        ("const c = 7 + 1;", Ty::Word, Value::Word(-8)),
        ("const c = -8;", Ty::Word, Value::Word(-8)),
        ("const c = 5 * 3;", Ty::Word, Value::Word(-1)),
        ("const c = 3 - -8;", Ty::Word, Value::Word(-5)),
        ("const c = -(-8);", Ty::Word, Value::Word(-8)),
        (
            "const c = if 3 < 5 then 1 else 2;",
            Ty::Word,
            Value::Word(1),
        ),
        ("const c = true xor true;", Ty::Truth, Value::Truth(false)),
        ("const c = true => false;", Ty::Truth, Value::Truth(false)),
        ("const b = 3; const c = b + b;", Ty::Word, Value::Word(6)),
        ("const c = -7 < 7;", Ty::Truth, Value::Truth(true)),
        (
            "type s = enum {a}; type t = enum {p, q}; const c: t = q;",
            Ty::Choice(1),
            Value::Choice(1),
        ),
        ("type t = enum {p, c};", Ty::Choice(0), Value::Choice(1)),
    ] {
        let constant = constant_of(rt.alloc(), declarations)?;
        assert_eq!(rt; constant, Some(Constant { ty, value }), "{declarations}");
    }
    Ok(())
}
