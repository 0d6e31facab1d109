use super::{fault_of, refuses};
use crate::fault::{TypeFault, TypeKind};

#[test]
fn when_and_current_are_clocked(rt: HostRuntime) {
    let alloc = rt.alloc();
    for (text, at) in [
        (
            "node w(x: bool) returns (y: bool); let y = x when x; tel",
            45,
        ),
        (
            "node n(a: bool; b: int when a) returns (y: int) let y = b; tel",
            23,
        ),
        (
            "node n(a: bool; b: int) returns (y: int) let y = b when a; tel",
            51,
        ),
        (
            "node n(a: bool) returns (y: bool) let y = current a; tel",
            42,
        ),
        (
            "const c = 1 when true; node n(a: bool) returns (y: bool) let y = a; tel",
            12,
        ),
        ("node n(a: int) returns (y: int) let y = a when a; tel", 42),
    ] {
        refuses(&rt, alloc, text, 32, TypeKind::Clocked, at);
    }
}

#[test]
fn some_types_and_operators_are_unsupported(rt: HostRuntime) {
    let alloc = rt.alloc();
    for (text, at) in [
        ("node n(a: real) returns (y: bool) let y = true; tel", 10),
        ("node n(a: int) returns (y: int) let y = a div 2; tel", 42),
        ("node n(a: int) returns (y: int) let y = a mod 2; tel", 42),
        ("node n(a: int) returns (y: int) let y = 0 fby a; tel", 42),
    ] {
        refuses(&rt, alloc, text, 32, TypeKind::Unsupported, at);
    }
}

#[test]
fn some_constants_are_unsupported(rt: HostRuntime) {
    let alloc = rt.alloc();
    for (text, at) in [
        (
            "const c: real; node n(a: bool) returns (y: bool) let y = a; tel",
            9,
        ),
        (
            "const c: int; node n(a: bool) returns (y: bool) let y = a; tel",
            0,
        ),
        (
            "const c = true -> false; node n(a: bool) returns (y: bool) let y = a; tel",
            15,
        ),
        (
            "const c = pre true; node n(a: bool) returns (y: bool) let y = a; tel",
            10,
        ),
        (
            "const c = n(true); node n(a: bool) returns (y: bool) let y = a; tel",
            10,
        ),
        (
            "const c = f(1); node n(a: bool) returns (y: bool) let y = a; tel",
            10,
        ),
    ] {
        refuses(&rt, alloc, text, 32, TypeKind::Unsupported, at);
    }
}

#[test]
fn a_second_global_name_is_a_duplicate(rt: HostRuntime) {
    let alloc = rt.alloc();
    for (text, at) in [
        (
            "const c = 1; const c = 2; node n(a: bool) returns (y: bool) let y = a; tel",
            19,
        ),
        (
            "type t = enum {p, p}; node n(a: bool) returns (y: bool) let y = a; tel",
            18,
        ),
        (
            "type t = enum {t}; node n(a: bool) returns (y: bool) let y = a; tel",
            15,
        ),
        (
            "type t = enum {p}; const p = 1; node n(a: bool) returns (y: bool) let y = a; tel",
            25,
        ),
        (
            "type t = enum {p, u}; type u = enum {q}; \
             node n(a: bool) returns (y: bool) let y = a; tel",
            27,
        ),
        (
            "node n(a: bool) returns (y: bool) let y = a; tel \
             node n(a: bool) returns (y: bool) let y = a; tel",
            54,
        ),
        (
            "node n(a: int) returns (y: int) let y = c; tel const c = 1; const c = true;",
            66,
        ),
    ] {
        refuses(&rt, alloc, text, 32, TypeKind::Duplicate, at);
    }
}

#[test]
fn a_second_variable_is_a_duplicate(rt: HostRuntime) {
    let alloc = rt.alloc();
    for (text, at) in [
        ("node n(a, a: bool) returns (y: bool) let y = a; tel", 10),
        ("node n(a: bool) returns (a: bool) let a = true; tel", 25),
        (
            "node n(a: bool) returns (y: bool) var y: bool; let y = a; tel",
            38,
        ),
        ("node n(a: bool) returns (a: bool) let tel", 25),
    ] {
        refuses(&rt, alloc, text, 32, TypeKind::Duplicate, at);
    }
}

#[test]
fn a_name_that_means_nothing_here_is_unknown(rt: HostRuntime) {
    let alloc = rt.alloc();
    for (text, at) in [
        ("node n(a: t) returns (y: bool) let y = true; tel", 10),
        ("node n(a: bool) returns (y: bool) let y = b; tel", 42),
        ("node n(a: bool) returns (y: bool) let y = f(a); tel", 42),
        (
            "node n(a: bool) returns (y: bool) let z = a; y = a; tel",
            38,
        ),
        (
            "type t = enum {p}; node n(a: bool) returns (y: bool) let y = t; tel",
            61,
        ),
        (
            "const c = 1; node n(a: c) returns (y: bool) let y = true; tel",
            23,
        ),
    ] {
        refuses(&rt, alloc, text, 32, TypeKind::Unknown, at);
    }
}

#[test]
fn a_constant_uses_earlier_ones_alone(rt: HostRuntime) {
    let alloc = rt.alloc();
    for (text, at) in [
        (
            "const c = d; const d = 1; node n(a: bool) returns (y: bool) let y = a; tel",
            10,
        ),
        (
            "const c = c + 1; node n(a: bool) returns (y: bool) let y = a; tel",
            10,
        ),
    ] {
        refuses(&rt, alloc, text, 32, TypeKind::Unknown, at);
    }
}

#[test]
fn a_called_name_may_be_no_node(rt: HostRuntime) {
    let alloc = rt.alloc();
    for (text, at) in [
        (
            "const c = true; node n(a: bool) returns (y: bool) let y = c(a); tel",
            58,
        ),
        (
            "type t = enum {p}; node n(a: bool) returns (y: bool) let y = p(); tel",
            61,
        ),
    ] {
        refuses(&rt, alloc, text, 32, TypeKind::NotANode, at);
    }
}

#[test]
fn numbers_of_arguments_and_of_results(rt: HostRuntime) {
    let alloc = rt.alloc();
    for (text, at) in [
        (
            "node f(x: bool) returns (z: bool) let z = x; tel \
             node n(a: bool) returns (y: bool) let y = f(a, a); tel",
            91,
        ),
        (
            "node f(x: bool) returns (z, w: bool) let z = x; w = x; tel \
             node n(a: bool) returns (y: bool) let y = not f(a); tel",
            105,
        ),
        (
            "node f(x: bool) returns (z, w: bool) let z = x; w = x; tel \
             node n(a: bool) returns (y: bool) let y = f(a); tel",
            99,
        ),
        (
            "node n(a: bool) returns (y, z: bool) let (y, z) = a; tel",
            48,
        ),
    ] {
        refuses(&rt, alloc, text, 32, TypeKind::Arity, at);
    }
}

#[test]
fn an_operator_asks_for_types(rt: HostRuntime) {
    let alloc = rt.alloc();
    for (text, at) in [
        ("node n(a: int) returns (y: bool) let y = not a; tel", 41),
        ("node n(a: int) returns (y: int) let y = a + true; tel", 42),
        (
            "node n(a: int) returns (y: int) let y = if a then 1 else 2; tel",
            40,
        ),
        (
            "type t = enum {p}; type u = enum {q}; \
             node n(a: t) returns (y: bool) let y = a = q; tel",
            79,
        ),
    ] {
        refuses(&rt, alloc, text, 32, TypeKind::Mismatch, at);
    }
}

#[test]
fn calls_equations_assertions_and_constants_ask_for_types(rt: HostRuntime) {
    let alloc = rt.alloc();
    for (text, at) in [
        ("node n(a: int) returns (y: bool) let y = a; tel", 39),
        (
            "node n(a: int) returns (y: bool) let y = true; assert a; tel",
            47,
        ),
        (
            "const c: bool = 1; node n(a: bool) returns (y: bool) let y = a; tel",
            0,
        ),
        (
            "node f(x: bool) returns (z: bool) let z = x; tel \
             node n(a: int) returns (y: bool) let y = f(a); tel",
            90,
        ),
    ] {
        refuses(&rt, alloc, text, 32, TypeKind::Mismatch, at);
    }
}

#[test]
fn literals_past_both_ends(rt: HostRuntime) {
    let alloc = rt.alloc();
    for (text, width, at) in [
        (
            "node n(a: int) returns (y: int) let y = a + 2147483648; tel",
            32,
            44,
        ),
        (
            "node n(a: int) returns (y: int) let y = a + -2147483649; tel",
            32,
            45,
        ),
        ("node m(i: int) returns (o: int); let o = i + 8; tel", 4, 45),
        ("node n(a: int) returns (y: int) let y = a + 8; tel", 4, 44),
        ("node n(a: int) returns (y: int) let y = a + -9; tel", 4, 45),
        (
            "node n(a: int) returns (y: int) let y = -(8 + a); tel",
            4,
            42,
        ),
        ("node n(a: int) returns (y: int) let y = 2; tel", 2, 40),
        ("node n(a: int) returns (y: int) let y = a + -3; tel", 2, 45),
    ] {
        refuses(&rt, alloc, text, width, TypeKind::LiteralRange, at);
    }
}

/// An output and a local have one equation each, and an input has none.
#[test]
fn outputs_and_locals_have_one_equation(rt: HostRuntime) {
    let alloc = rt.alloc();
    for (text, kind, at) in [
        (
            "node n(a: bool) returns (y: bool) let tel",
            TypeKind::Undefined,
            25,
        ),
        (
            "node n(a: bool) returns (y: bool) var z: bool; let y = a; tel",
            TypeKind::Undefined,
            38,
        ),
        (
            "node n(a: bool) returns (y: bool) let y = a; y = a; tel",
            TypeKind::DefinedTwice,
            45,
        ),
        (
            "node n(a: bool) returns (y: bool) let y = a; a = y; tel",
            TypeKind::DefinesInput,
            45,
        ),
    ] {
        refuses(&rt, alloc, text, 32, kind, at);
    }
}

#[test]
fn calls_that_lead_back(rt: HostRuntime) {
    let alloc = rt.alloc();
    for (text, at) in [
        ("node n(a: bool) returns (y: bool) let y = n(a); tel", 42),
        (
            "node f(a: bool) returns (y: bool) let y = g(a); tel \
             node g(a: bool) returns (y: bool) let y = h(a); tel \
             node h(a: bool) returns (y: bool) let y = f(a); tel",
            42,
        ),
        (
            "node f(a: bool) returns (y: bool) let y = g(a); tel \
             node g(a: bool) returns (y: bool) let y = a; assert g(a); tel",
            104,
        ),
    ] {
        refuses(&rt, alloc, text, 32, TypeKind::RecursiveNode, at);
    }
}

#[test]
fn a_program_may_lack_its_main_node(rt: HostRuntime) {
    for (text, main, at) in [
        ("", None, 0),
        ("const c = 1; ", None, 13),
        (
            "node n(a: bool) returns (y: bool) let y = a; tel",
            Some("m"),
            48,
        ),
        (
            "const c = 1; node n(a: bool) returns (y: bool) let y = a; tel",
            Some("c"),
            61,
        ),
    ] {
        let fault = fault_of(rt.alloc(), text.as_bytes(), 32, main);
        let kind = TypeKind::NoMain;
        assert_eq!(rt; fault, Some(TypeFault::Bad { kind, at }), "{text}");
    }
}
