use super::accepts;

#[test]
fn the_last_node_is_main(rt: HostRuntime) {
    let alloc = rt.alloc();
    for (text, place, decls) in [
        ("node n(a: bool) returns (b: bool) let b = a; tel", 0, 1),
        (
            "type t = enum {p, q}; const c: t = q; \
             node n(a: t) returns (b: bool) let b = a = c; tel",
            2,
            3,
        ),
        (
            "node n(a: bool) returns (b: bool) let b = m(a); tel \
             node m(x: bool) returns (y: bool) let y = not x; tel",
            1,
            2,
        ),
        (
            "const a = 1; const b = a + 2; node n(x: int) returns (y: int) let y = x + b; tel",
            2,
            3,
        ),
        (
            "node two(a: int) returns (x, y: int) let x = a; y = a; tel \
             node n(a: int) returns (p, q: int) let (p, q) = two(a); tel",
            1,
            2,
        ),
        (
            "node n(a: bool) returns (y: bool) let y = a; tel const c = 1;",
            0,
            2,
        ),
    ] {
        accepts(&rt, alloc, text, 32, None, place, decls);
    }
}

#[test]
fn a_named_node_is_main(rt: HostRuntime) {
    let text = "node m(x: bool) returns (y: bool) let y = x; tel \
        node n(a: bool) returns (b: bool) let b = m(a); tel";
    accepts(&rt, rt.alloc(), text, 32, Some("m"), 0, 2);
}

#[test]
fn variables_hide_global_names(rt: HostRuntime) {
    let alloc = rt.alloc();
    for (text, place, decls) in [
        (
            "const a = true; node n(a: int) returns (b: int) let b = a + 1; tel",
            1,
            2,
        ),
        (
            "const n = 3; node m(n: bool) returns (y: bool) let y = n; tel",
            1,
            2,
        ),
        (
            "node f(x: bool) returns (z: bool) let z = x; tel \
             node n(f: bool) returns (y: bool) let y = f(f); tel",
            1,
            2,
        ),
    ] {
        accepts(&rt, alloc, text, 32, None, place, decls);
    }
}

#[test]
fn literals_at_both_ends(rt: HostRuntime) {
    let alloc = rt.alloc();
    for (text, width) in [
        (
            "node n(a: int) returns (y: int) let y = a + -2147483648; tel",
            32,
        ),
        (
            "node n(a: int) returns (y: int) let y = a + 2147483647; tel",
            32,
        ),
        ("node m(i: int) returns (o: int); let o = i + -8; tel", 4),
        ("node n(a: int) returns (y: int) let y = a + -8; tel", 4),
        ("node n(a: int) returns (y: int) let y = a + 7; tel", 4),
        (
            "node n(a: int) returns (y: int) let y = if a = 1 then -2 else a; tel",
            2,
        ),
    ] {
        accepts(&rt, alloc, text, width, None, 0, 1);
    }
}
