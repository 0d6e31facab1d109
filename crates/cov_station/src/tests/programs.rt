//! What `run` prints of whole programs.

use super::{ALARM, DAY, EDGE, SUITE, TEXT, run};
use std::test::Fail;

#[test]
fn the_example(rt: HostRuntime) -> Result<(), Fail> {
    run(&rt, EDGE, SUITE, &[], TEXT)?;
    run(&rt, EDGE, b"test,x\n", &[], b"")?;
    // Two tests, each from its own first instant.
    run(
        &rt,
        EDGE,
        b"test,x\na,1\na,1\nb,0\nb,1\n",
        &[],
        b"test a\nx 1 1\ny 0 0\ntest b\nx 0 1\ny 0 1\n",
    )
}

#[test]
fn the_alarm_controller(rt: HostRuntime) -> Result<(), Fail> {
    run(
        &rt,
        ALARM,
        DAY,
        &[],
        b"test day
arm 1 0 0 0 0 0
sensor 0 1 0 1 0 0
clear 0 0 0 0 0 1
siren 0 0 0 1 1 0
m Armed Armed Armed Ring Ring Idle
",
    )
}

#[test]
fn calls_have_state_of_their_own(rt: HostRuntime) -> Result<(), Fail> {
    let source = b"node count(b: bool) returns (n: int);
let n = if b then (0 -> pre n) + 1 else (0 -> pre n); tel
node two(p, q: bool) returns (s: int);
let s = count(p) - count(q); tel
";
    run(
        &rt,
        source,
        b"test,p,q\nt,1,0\nt,1,1\nt,0,1\n",
        &[],
        b"test t\np 1 1 0\nq 0 1 1\ns 1 1 0\n",
    )
}

#[test]
fn words_wrap(rt: HostRuntime) -> Result<(), Fail> {
    let source = b"node m(i: int) returns (o: int; c: bool); let o = i + 1; c = o < i; tel";
    let suite = b"test,i\nt,7\n";
    run(
        &rt,
        source,
        suite,
        &["--width", "4"],
        b"test t\ni 7\no -8\nc 1\n",
    )?;
    run(
        &rt,
        source,
        suite,
        &["--width=5"],
        b"test t\ni 7\no 8\nc 0\n",
    )?;
    run(&rt, source, suite, &[], b"test t\ni 7\no 8\nc 0\n")?;
    run(
        &rt,
        source,
        b"test,i\nt,2147483647\n",
        &[],
        b"test t\ni 2147483647\no -2147483648\nc 1\n",
    )?;
    // The least word is the negative of a literal that would be too large alone.
    run(
        &rt,
        b"node m(i: int) returns (o: int); let o = i + -8; tel",
        b"test,i\nt,-1\n",
        &["--width", "4"],
        b"test t\ni -1\no 7\n",
    )
}

#[test]
fn main_is_the_last_node_or_the_named_one(rt: HostRuntime) -> Result<(), Fail> {
    let source = b"node a(x: bool) returns (y: bool); let y = not x; tel
node b(x: bool) returns (y: bool); let y = x; tel
";
    let suite = b"test,x\nt,1\n";
    run(&rt, source, suite, &[], b"test t\nx 1\ny 1\n")?;
    run(&rt, source, suite, &["--main", "b"], b"test t\nx 1\ny 1\n")?;
    run(&rt, source, suite, &["--main", "a"], b"test t\nx 1\ny 0\n")
}

#[test]
fn a_failed_assertion_is_named_once(rt: HostRuntime) -> Result<(), Fail> {
    // All instants are printed; the first failure is told, and later tests begin anew.
    run(
        &rt,
        b"node g(x: bool) returns (y: bool); let assert x; y = not x; tel",
        b"test,x\nt,1\nt,0\nt,1\nt,0\nu,1\n",
        &[],
        b"test t\nx 1 0 1 0\ny 0 1 0 1\nassertion fails at 1\ntest u\nx 1\ny 0\n",
    )?;
    // The assertion of a node that is called twice.
    run(
        &rt,
        b"node k(i: int) returns (o: int); let assert i < 3; o = -i; tel
node n(i, j: int) returns (o: int); let o = k(i) * k(j); tel",
        b"test,i,j\nt,2,2\nt,1,3\nt,5,0\n",
        &[],
        b"test t\ni 2 1 5\nj 2 3 0\no 4 3 0\nassertion fails at 1\n",
    )
}

#[test]
fn loops_through_a_delay(rt: HostRuntime) -> Result<(), Fail> {
    run(
        &rt,
        b"node n() returns (a, b: bool); let a = false -> pre b; b = a; tel",
        b"test\nt\nt\n",
        &[],
        b"test t\na 0 0\nb 0 0\n",
    )?;
    // At instant 0 `pre` is the first enumerator, 0 or false.
    run(
        &rt,
        b"type c = enum { red, blue };
node n(x: c; i: int; b: bool) returns (y: c; j: int; d: bool);
let y = pre x; j = pre i; d = pre b; tel",
        b"test,x,i,b\nt,blue,-7,true\nt,red,1,false\n",
        &[],
        b"test t\nx blue red\ni -7 1\nb 1 0\ny red blue\nj 0 -7\nd 0 1\n",
    )
}

#[test]
fn a_node_with_several_results(rt: HostRuntime) -> Result<(), Fail> {
    run(
        &rt,
        b"node order(a, b: int) returns (least, most: int);
let (least, most) = both(a, b, a <= b); tel
node both(a, b: int; c: bool) returns (least, most: int);
let least = if c then a else b; most = if c then b else a; tel",
        b"test,a,b\nt,3,-2\nt,3,4\n",
        &["--main", "order"],
        b"test t\na 3 3\nb -2 4\nleast -2 3\nmost 3 4\n",
    )
}
