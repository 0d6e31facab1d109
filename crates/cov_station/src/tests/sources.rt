//! Sources that are refused, each with its line.

use super::{EDGE, refused};
use crate::Status;
use std::process::Abort;
use std::test::Fail;

/// The source is refused with this line, and the suite isn't looked for.
fn source_is<R: Abort + AllocGlobal>(rt: &R, source: &[u8], line: &[u8]) -> Result<(), Fail> {
    refused(rt, source, &[], Status::Source, line)
}

#[test]
fn bytes_that_cannot_be_cut(rt: HostRuntime) -> Result<(), Fail> {
    source_is(&rt, b"\0", b"lustrocov: bad byte at byte 0\n")?;
    source_is(&rt, b"node n@", b"lustrocov: bad byte at byte 6\n")?;
    source_is(&rt, b"(* x", b"lustrocov: open comment at byte 0\n")?;
    source_is(&rt, b"(*)", b"lustrocov: open comment at byte 0\n")?;
    source_is(
        &rt,
        b"const k = 340282366920938463463374607431768211456;",
        b"lustrocov: wide literal at byte 10\n",
    )
}

#[test]
fn texts_outside_the_grammar(rt: HostRuntime) -> Result<(), Fail> {
    source_is(&rt, b"node", b"lustrocov: syntax at byte 4\n")?;
    source_is(
        &rt,
        b"const k = 1 = 1 = 1;",
        b"lustrocov: syntax at byte 16\n",
    )?;
    source_is(
        &rt,
        b"node n(x: bool) returns (y: bool); let y = ; tel",
        b"lustrocov: syntax at byte 43\n",
    )?;
    source_is(
        &rt,
        b"node n(x: bool) returns (y: bool); let y = x; tel; tel",
        b"lustrocov: syntax at byte 51\n",
    )
}

#[test]
fn types_of_declarations(rt: HostRuntime) -> Result<(), Fail> {
    source_is(
        &rt,
        b"const k: real;",
        b"lustrocov: unsupported at byte 9\n",
    )?;
    source_is(&rt, b"const k: int;", b"lustrocov: unsupported at byte 0\n")?;
    source_is(
        &rt,
        b"type t = enum { a, a };",
        b"lustrocov: duplicate at byte 19\n",
    )?;
    source_is(
        &rt,
        b"node n(x, x: bool) returns (y: bool); let y = x; tel",
        b"lustrocov: duplicate at byte 10\n",
    )?;
    source_is(
        &rt,
        b"node n(x: t) returns (y: bool); let y = true; tel",
        b"lustrocov: unknown at byte 10\n",
    )?;
    source_is(
        &rt,
        b"node n(x: bool) returns (y: bool); let tel",
        b"lustrocov: undefined at byte 25\n",
    )?;
    source_is(
        &rt,
        b"node n(x: bool) returns (y: bool); var z: bool; let y = x; tel",
        b"lustrocov: undefined at byte 39\n",
    )?;
    source_is(&rt, b"", b"lustrocov: no main at byte 0\n")?;
    source_is(&rt, b"const k = 1;", b"lustrocov: no main at byte 12\n")
}

#[test]
fn types_of_equations(rt: HostRuntime) -> Result<(), Fail> {
    source_is(
        &rt,
        b"node n(x: bool) returns (y: bool); let y = z; tel",
        b"lustrocov: unknown at byte 43\n",
    )?;
    source_is(
        &rt,
        b"node n(x: bool) returns (y: bool); let y = x; z = x; tel",
        b"lustrocov: unknown at byte 46\n",
    )?;
    source_is(
        &rt,
        b"node n(x: bool) returns (y: int); let y = x + 1; tel",
        b"lustrocov: mismatch at byte 44\n",
    )?;
    source_is(
        &rt,
        b"node n(x: bool) returns (y: int); let y = x; tel",
        b"lustrocov: mismatch at byte 40\n",
    )?;
    source_is(
        &rt,
        b"node n(x: int) returns (y: bool); let y = true; assert x; tel",
        b"lustrocov: mismatch at byte 48\n",
    )?;
    source_is(
        &rt,
        b"node n(x: int) returns (y: int); let y = x + 2147483648; tel",
        b"lustrocov: literal out of range at byte 45\n",
    )
}

#[test]
fn equations_that_are_refused(rt: HostRuntime) -> Result<(), Fail> {
    source_is(
        &rt,
        b"node n(x: bool) returns (y: bool); let y = x; y = x; tel",
        b"lustrocov: defined twice at byte 46\n",
    )?;
    source_is(
        &rt,
        b"node n(x: bool) returns (y: bool); let y = x; x = y; tel",
        b"lustrocov: defines an input at byte 46\n",
    )?;
    source_is(
        &rt,
        b"node w(x: bool) returns (y: bool); let y = x when x; tel",
        b"lustrocov: clocked at byte 45\n",
    )?;
    source_is(
        &rt,
        b"node n(x: int) returns (y: int); let y = x div 2; tel",
        b"lustrocov: unsupported at byte 43\n",
    )
}

#[test]
fn types_of_calls(rt: HostRuntime) -> Result<(), Fail> {
    source_is(
        &rt,
        b"const k = 1; node n(x: int) returns (y: int); let y = k(x); tel",
        b"lustrocov: not a node at byte 54\n",
    )?;
    source_is(
        &rt,
        b"node m(a, b: bool) returns (c: bool); let c = a; tel node n(x: bool) returns (y: bool); let y = m(x); tel",
        b"lustrocov: arity at byte 96\n",
    )?;
    source_is(
        &rt,
        b"node m(a: int) returns (c: bool); let c = true; tel node n(x: bool) returns (y: bool); let y = m(x); tel",
        b"lustrocov: mismatch at byte 95\n",
    )?;
    source_is(
        &rt,
        b"node n(x: bool) returns (y: bool); let y = n(x); tel",
        b"lustrocov: recursive node at byte 43\n",
    )
}

#[test]
fn literals_and_main_by_the_options(rt: HostRuntime) -> Result<(), Fail> {
    refused(
        &rt,
        b"node m(i: int) returns (o: int); let o = i + 8; tel",
        &["--width", "4"],
        Status::Source,
        b"lustrocov: literal out of range at byte 45\n",
    )?;
    refused(
        &rt,
        EDGE,
        &["--main", "edges"],
        Status::Source,
        b"lustrocov: no main at byte 76\n",
    )
}

#[test]
fn cycles_are_named_by_their_least_edge(rt: HostRuntime) -> Result<(), Fail> {
    source_is(
        &rt,
        b"node n() returns (a, b: bool); let a = b; b = a; tel",
        b"lustrocov: cycle at a\n",
    )?;
    // Also where a branch that is never taken closes it.
    source_is(
        &rt,
        b"node n(x: int) returns (y: int); let y = if true then x else x + y; tel",
        b"lustrocov: cycle at y\n",
    )?;
    // Within a called node.
    source_is(
        &rt,
        b"node m(a: bool) returns (b: bool); let b = a and b; tel
node n(x: bool) returns (y: bool); let y = not m(x); tel",
        b"lustrocov: cycle at y/m#1.b\n",
    )
}

#[test]
fn the_first_step_decides(rt: HostRuntime) -> Result<(), Fail> {
    // A text that can't be cut behind its fault of grammar.
    source_is(&rt, b"node node @", b"lustrocov: bad byte at byte 10\n")?;
    // A fault of grammar behind a fault of types.
    source_is(
        &rt,
        b"const k: real; node",
        b"lustrocov: syntax at byte 19\n",
    )?;
    // A fault of types behind a cycle.
    source_is(
        &rt,
        b"node n(x: bool) returns (y, z: bool); let y = y; z = 1; tel",
        b"lustrocov: mismatch at byte 51\n",
    )
}
