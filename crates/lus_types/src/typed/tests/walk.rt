use super::refuses;
use crate::fault::TypeKind;

#[test]
fn declarations_go_in_the_order_of_the_text(rt: HostRuntime) {
    let alloc = rt.alloc();
    for (text, at) in [
        (
            "const c = d; node n(a: bool) returns (y: bool) let y = b; tel",
            10,
        ),
        (
            "node n(a: bool) returns (y: bool) let y = b; tel const c = d;",
            42,
        ),
        ("const c = d;", 10),
    ] {
        refuses(&rt, alloc, text, 32, TypeKind::Unknown, at);
    }
}

#[test]
fn a_header_stands_before_the_items(rt: HostRuntime) {
    let alloc = rt.alloc();
    for (text, kind, at) in [
        (
            "node n(a: bool) returns (y: t) let tel",
            TypeKind::Undefined,
            25,
        ),
        (
            "node n(a, a: t) returns (y: bool) let y = b; tel",
            TypeKind::Duplicate,
            10,
        ),
        (
            "node n(a: bool; b: real when a) returns (y: bool) let y = b; tel",
            TypeKind::Unsupported,
            19,
        ),
        (
            "node n(a: bool) returns (y: bool) var z: t; let y = b; z = a; tel",
            TypeKind::Unknown,
            41,
        ),
    ] {
        refuses(&rt, alloc, text, 32, kind, at);
    }
}

#[test]
fn items_go_in_the_order_of_the_text(rt: HostRuntime) {
    let alloc = rt.alloc();
    for (text, kind, at) in [
        (
            "node n(a: int) returns (y: int; z: bool) let y = 9; z = not a; tel",
            TypeKind::LiteralRange,
            49,
        ),
        (
            "node n(a: int) returns (y: int; z: bool) let z = not a; y = 9; tel",
            TypeKind::Mismatch,
            49,
        ),
    ] {
        refuses(&rt, alloc, text, 4, kind, at);
    }
}

#[test]
fn an_item_is_its_names_its_expression_and_itself(rt: HostRuntime) {
    let alloc = rt.alloc();
    for (text, kind, at) in [
        (
            "node n(a: int) returns (y: int) let z = b; y = a; tel",
            TypeKind::Unknown,
            36,
        ),
        (
            "node n(a: int) returns (y: bool) let y = 9; tel",
            TypeKind::LiteralRange,
            41,
        ),
        (
            "node n(a: int) returns (y: int) let y = a; assert 9; tel",
            TypeKind::LiteralRange,
            50,
        ),
    ] {
        refuses(&rt, alloc, text, 4, kind, at);
    }
}

#[test]
fn operands_stand_before_their_operator(rt: HostRuntime) {
    let alloc = rt.alloc();
    for (text, kind, at) in [
        (
            "node n(a: int) returns (y: int) let y = 9 + true; tel",
            TypeKind::LiteralRange,
            40,
        ),
        (
            "node n(a: int) returns (y: int) let y = (a + true) + 9; tel",
            TypeKind::Mismatch,
            43,
        ),
        (
            "node n(a: int) returns (y: int) let y = 9 + (a + true); tel",
            TypeKind::LiteralRange,
            40,
        ),
    ] {
        refuses(&rt, alloc, text, 4, kind, at);
    }
}

#[test]
fn a_call_fails_in_its_first_kind(rt: HostRuntime) {
    let alloc = rt.alloc();
    for (text, kind, at) in [
        (
            "node f(x: bool) returns (z: bool) let z = x; tel \
             node n(a: int) returns (y: bool) let y = f(a, a); tel",
            TypeKind::Arity,
            90,
        ),
        (
            "node n(a: bool) returns (y: bool) let y = n(a, a); tel",
            TypeKind::Arity,
            42,
        ),
        (
            "node n(a: int) returns (y: bool) let y = n(true); tel",
            TypeKind::Mismatch,
            41,
        ),
    ] {
        refuses(&rt, alloc, text, 32, kind, at);
    }
}

#[test]
fn a_node_is_used_before_its_fault_and_behind_it(rt: HostRuntime) {
    let alloc = rt.alloc();
    for (text, kind, at) in [
        (
            "node n(a: bool) returns (y: bool) let y = m(a); tel \
             node m(x: t) returns (y: bool) let y = true; tel",
            TypeKind::Unknown,
            62,
        ),
        (
            "node m(x: t) returns (y: bool) let y = true; tel \
             node n(a: bool) returns (y: bool) let y = m(a); tel",
            TypeKind::Unknown,
            10,
        ),
        (
            "node n(a: bool) returns (y: bool) let y = m(a) + 1; tel \
             node m(x: bool) returns (z: bool) let tel",
            TypeKind::Undefined,
            81,
        ),
        (
            "node m(x: bool) returns (z: bool) let z = x; tel \
             node n(a: bool) returns (y: bool) let y = m(a) + 1; tel",
            TypeKind::Mismatch,
            96,
        ),
    ] {
        refuses(&rt, alloc, text, 32, kind, at);
    }
}

#[test]
fn a_constant_is_used_before_its_fault_and_behind_it(rt: HostRuntime) {
    let alloc = rt.alloc();
    for (text, at) in [
        (
            "const c: int = true; node n(a: bool) returns (y: bool) let y = c; tel",
            0,
        ),
        (
            "node n(a: bool) returns (y: bool) let y = c; tel const c: int = true;",
            49,
        ),
    ] {
        refuses(&rt, alloc, text, 32, TypeKind::Mismatch, at);
    }
}

#[test]
fn a_call_without_types_fails_in_other_ways(rt: HostRuntime) {
    let alloc = rt.alloc();
    for (text, kind, at) in [
        (
            "node n(a: bool) returns (y: bool) let y = m(a, a); tel \
             node m(x: t) returns (z: bool) let z = true; tel",
            TypeKind::Arity,
            42,
        ),
        (
            "node n(a: bool) returns (y: bool) let y = d(c); tel const c: int = true; \
             const d = 1;",
            TypeKind::NotANode,
            42,
        ),
        (
            "node n(a: bool) returns (y: bool) let y = n(c); tel const c: int = true;",
            TypeKind::RecursiveNode,
            42,
        ),
    ] {
        refuses(&rt, alloc, text, 32, kind, at);
    }
}
