//! Limits, those of sources and of paths on both sides.

use super::{EDGE, command, expect, refused, repeated, run, score};
use crate::Status;
use std::alloc::Global;
use std::process::Abort;
use std::test::Fail;

const HEADER: &[u8] = b"test,x\n";

#[test]
fn bytes_of_a_source(rt: HostRuntime) -> Result<(), Fail> {
    let alloc = rt.alloc();
    let most = repeated(alloc, EDGE, b" ", 1_048_576 - 76, b"")?;
    run(&rt, most.as_slice(), HEADER, &[], b"")?;
    let more = repeated(alloc, EDGE, b" ", 1_048_577 - 76, b"")?;
    let line = b"lustrocov: limit: bytes 1048577 > 1048576\n";
    refused(&rt, more.as_slice(), &[], Status::Limit, line)
}

#[test]
fn counted_tokens_between_semicolons(rt: HostRuntime) -> Result<(), Fail> {
    let alloc = rt.alloc();
    // The sign `=` and 499 operators are 500 counted tokens, and one more is too many.
    let front = b"node n(x: bool) returns (y: bool); let y = x";
    let most = repeated(alloc, front, b" and x", 499, b"; tel")?;
    run(&rt, most.as_slice(), HEADER, &[], b"")?;
    let more = repeated(alloc, front, b" and x", 500, b"; tel")?;
    let line = b"lustrocov: limit: operators 501 > 500\n";
    refused(&rt, more.as_slice(), &[], Status::Limit, line)?;
    // Crowding is tested before the grammar.
    let open = repeated(alloc, front, b" and x", 500, b"")?;
    refused(&rt, open.as_slice(), &[], Status::Limit, line)
}

/// A chain of so many nodes, each but the first calling the one before.
fn chain(alloc: Global, nodes: u32) -> Result<Vec<u8>, Fail> {
    let mut text = String::from_str(
        alloc,
        "node n1(x: bool) returns (y: bool); let y = not x; tel\n",
    )?;
    for k in 2..nodes.saturating_add(1) {
        let callee = k.saturating_sub(1);
        text.push_str(format!(in alloc;
            "node n{k}(x: bool) returns (y: bool); let y = n{callee}(x); tel\n"
        )?.as_str())?;
    }
    Ok(text.into_bytes())
}

#[test]
fn calls_are_nested_at_most_100_deep(rt: HostRuntime) -> Result<(), Fail> {
    let alloc = rt.alloc();
    let most = chain(alloc, 100)?;
    run(
        &rt,
        most.as_slice(),
        b"test,x\nt,1\n",
        &[],
        b"test t\nx 1\ny 0\n",
    )?;
    let more = chain(alloc, 101)?;
    let line = b"lustrocov: limit: calls 101 > 100\n";
    refused(&rt, more.as_slice(), &[], Status::Limit, line)
}

/// A node with 17 locals of 480 edges each, and an output with so many conjunctions.
fn edges_source(alloc: Global, last: usize) -> Result<Vec<u8>, Fail> {
    let mut text = Vec::new(alloc);
    text.extend_from_slice(
        b"node n(x: bool) returns (y: bool);
var a, b, c, d, e, f, g, h, i, j, k, l, m, n, o, p, q: bool; let ",
    )?;
    for name in b"abcdefghijklmnopq" {
        text.push(*name)?;
        text.extend_from_slice(repeated(alloc, b" = x", b" and x", 480, b"; ")?.as_slice())?;
    }
    text.extend_from_slice(repeated(alloc, b"y = x", b" and x", last, b"; tel")?.as_slice())?;
    Ok(text)
}

#[test]
fn edges_of_a_network(rt: HostRuntime) -> Result<(), Fail> {
    let alloc = rt.alloc();
    // The input, 17 times 480, and the edges of the output.
    let most = edges_source(alloc, 31)?;
    run(&rt, most.as_slice(), HEADER, &[], b"")?;
    let more = edges_source(alloc, 32)?;
    let line = b"lustrocov: limit: edges 8193 > 8192\n";
    refused(&rt, more.as_slice(), &[], Status::Limit, line)
}

/// `v1 = x and x`, `v2 = v1 and v1`, and so on; the last conjunction, `y`, is the output.
fn doublings(alloc: Global, count: u32) -> Result<Vec<u8>, Fail> {
    let mut text = String::from_str(alloc, "node d(x: bool) returns (y: bool); var v1")?;
    for k in 2..count {
        text.push_str(format!(in alloc; ", v{k}")?.as_str())?;
    }
    text.push_str(": bool; let v1 = x and x; ")?;
    for k in 2..count {
        let before = k.saturating_sub(1);
        text.push_str(format!(in alloc; "v{k} = v{before} and v{before}; ")?.as_str())?;
    }
    let last = count.saturating_sub(1);
    text.push_str(format!(in alloc; "y = v{last} and v{last}; tel")?.as_str())?;
    Ok(text.into_bytes())
}

/// Adds the lines of both ports of a conjunction, of which false is missing.
fn push_ports(alloc: Global, text: &mut String, node: &str, number: u32) -> Result<(), Fail> {
    let (first, second) = (
        number.saturating_mul(4).saturating_sub(2),
        number.saturating_mul(4),
    );
    text.push_str(format!(in alloc; "missing {first} OMCDC {node}:0 false\n")?.as_str())?;
    text.push_str(format!(in alloc; "missing {second} OMCDC {node}:1 false\n")?.as_str())?;
    Ok(())
}

/// The score of so many doublings where there is no path and all are true: each port of each
/// conjunction is observed as true.
fn observed_alone(alloc: Global, count: u32) -> Result<Vec<u8>, Fail> {
    let (covered, total) = (count.saturating_mul(2), count.saturating_mul(4));
    let mut text = String::from_str(alloc, "test t 1 1\nBC 0/0 -\nECC 0/0 -\nMCC 0/0 -\n")?;
    text.push_str(format!(in alloc; "OMCDC {covered}/{total} 50.0%\n")?.as_str())?;
    for number in 1..count {
        let node = format!(in alloc; "v{number}")?;
        push_ports(alloc, &mut text, node.as_str(), number)?;
    }
    push_ports(alloc, &mut text, "y", count)?;
    Ok(text.into_bytes())
}

#[test]
fn what_is_too_long_is_no_path(rt: HostRuntime) -> Result<(), Fail> {
    let alloc = rt.alloc();
    let suite = b"test,x\nt,1\n";
    let fifteen = doublings(alloc, 15)?;
    let text = observed_alone(alloc, 15)?;
    let length = &["--length", "15"];
    score(&rt, fifteen.as_slice(), suite, length, text.as_slice())?;
    let sixty = doublings(alloc, 60)?;
    let text = observed_alone(alloc, 60)?;
    score(
        &rt,
        sixty.as_slice(),
        suite,
        &["--length", "60"],
        text.as_slice(),
    )
}

/// The score of a source ends so where there is no suite.
fn unscored<R: Abort + AllocGlobal>(
    rt: &R,
    source: &[u8],
    length: &str,
    status: Status,
    line: &[u8],
) -> Result<(), Fail> {
    let words = command(rt.alloc(), "score", &["--length", length])?;
    expect(rt, words.as_slice(), (Some(source), None), status, line)
}

/// Five doublings and four times five make 20,000 paths of words to `i`.
fn many_paths(alloc: Global, output: &[u8]) -> Result<Vec<u8>, Fail> {
    let front = b"node m(x: int) returns (y: int); var a, b, c, d, e, f, g, h, i: int; let
a = x + x; b = a + a; c = b + b; d = c + c; e = d + d;
f = e + e + e + e + e; g = f + f + f + f + f;
h = g + g + g + g + g; i = h + h + h + h + h; y = -";
    repeated(alloc, front, output, 1, b"; tel")
}

#[test]
fn paths_of_a_network(rt: HostRuntime) -> Result<(), Fail> {
    let alloc = rt.alloc();
    // 20,000 paths are planned, and then the suite is looked for.
    let most = many_paths(alloc, b"i")?;
    let planned = b"lustrocov: no file a.csv\n";
    unscored(&rt, most.as_slice(), "64", Status::Missing, planned)?;
    let more = many_paths(alloc, b"(i + x)")?;
    let line = b"lustrocov: limit: paths 20001 > 20000\n";
    unscored(&rt, more.as_slice(), "64", Status::Limit, line)?;
    let fifteen = doublings(alloc, 15)?;
    unscored(&rt, fifteen.as_slice(), "16", Status::Limit, line)
}

#[test]
fn obligations_of_a_plan(rt: HostRuntime) -> Result<(), Fail> {
    let fourteen = doublings(rt.alloc(), 14)?;
    let line = b"lustrocov: limit: obligations 200001 > 200000\n";
    unscored(&rt, fourteen.as_slice(), "15", Status::Limit, line)
}

/// So many tests of one instant each.
fn tests_of(alloc: Global, count: u32) -> Result<Vec<u8>, Fail> {
    let mut suite = String::from_str(alloc, "test,x\n")?;
    for k in 0..count {
        suite.push_str(format!(in alloc; "t{k},1\n")?.as_str())?;
    }
    Ok(suite.into_bytes())
}

#[test]
fn tests_of_a_suite(rt: HostRuntime) -> Result<(), Fail> {
    let alloc = rt.alloc();
    let words = command(alloc, "run", &[])?;
    let tests = tests_of(alloc, 210_001)?;
    let line = b"lustrocov: limit: tests 210001 > 210000\n";
    let files = (Some(EDGE), Some(tests.as_slice()));
    expect(&rt, words.as_slice(), files, Status::Limit, line)
}
