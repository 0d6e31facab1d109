//! Suites in their spellings, and those that are refused.

use super::{EDGE, TEXT, command, expect, repeated, run};
use crate::Status;
use std::process::Abort;
use std::test::Fail;

const MIXED: &[u8] = b"type c = enum { red, blue };
type d = enum { north };
node n(b: bool; i: int; x: c) returns (y: c); let y = if b then x else red; tel";

#[test]
fn spellings_of_the_example(rt: HostRuntime) -> Result<(), Fail> {
    run(&rt, EDGE, b"test,x\na,0\na,1\na,1", &[], TEXT)?;
    run(&rt, EDGE, b"\xef\xbb\xbftest,x\na,0\na,1\na,1\n", &[], TEXT)?;
    run(&rt, EDGE, b"test,x\r\na,0\r\na,1\r\na,1\r\n", &[], TEXT)?;
    run(
        &rt,
        EDGE,
        b"\"test\",\"x\"\n\"a\",\"0\"\na,\"1\"\na,1\n",
        &[],
        TEXT,
    )?;
    run(&rt, EDGE, b" test ,\tx\n a,0 \na , 1\na,\t1\n", &[], TEXT)?;
    run(&rt, EDGE, b"test,x\na,false\na,true\na,true\n", &[], TEXT)
}

#[test]
fn columns_go_by_name(rt: HostRuntime) -> Result<(), Fail> {
    let text = b"test t\nb 1 0\ni -8 7\nx blue red\ny blue red\n";
    let width = ["--width", "4"];
    run(
        &rt,
        MIXED,
        b"test,b,i,x\nt,1,-8,blue\nt,0,007,red\n",
        width.as_slice(),
        text,
    )?;
    run(
        &rt,
        MIXED,
        b"test,x,b,i\nt,blue,true,-8\nt,red,false,7\n",
        width.as_slice(),
        text,
    )
}

/// A suite of the source is refused with this line.
fn refused<R: Abort + AllocGlobal>(
    rt: &R,
    source: &[u8],
    suite: &[u8],
    line: &[u8],
) -> Result<(), Fail> {
    let words = command(rt.alloc(), "run", ["--width", "4"].as_slice())?;
    let files = (Some(source), Some(suite));
    expect(rt, words.as_slice(), files, Status::Unreadable, line)
}

#[test]
fn headers_are_refused(rt: HostRuntime) -> Result<(), Fail> {
    refused(&rt, EDGE, b"", b"lustrocov: suite record 0: no header\n")?;
    refused(
        &rt,
        EDGE,
        b"x,test\n",
        b"lustrocov: suite record 0: no test column\n",
    )?;
    refused(
        &rt,
        EDGE,
        b"test,z\n",
        b"lustrocov: suite record 0: unknown column\n",
    )?;
    refused(
        &rt,
        EDGE,
        b"test,x,x\n",
        b"lustrocov: suite record 0: repeated column\n",
    )?;
    refused(
        &rt,
        EDGE,
        b"test\n",
        b"lustrocov: suite record 0: missing column\n",
    )?;
    // The first column that fails decides.
    refused(
        &rt,
        EDGE,
        b"test,x,x,z\n",
        b"lustrocov: suite record 0: repeated column\n",
    )?;
    refused(
        &rt,
        EDGE,
        b"test,z,x,x\n",
        b"lustrocov: suite record 0: unknown column\n",
    )
}

#[test]
fn records_are_refused(rt: HostRuntime) -> Result<(), Fail> {
    refused(
        &rt,
        EDGE,
        b"test,x\na\n",
        b"lustrocov: suite record 1: width\n",
    )?;
    refused(
        &rt,
        EDGE,
        b"test,x\na,1,1\n",
        b"lustrocov: suite record 1: width\n",
    )?;
    refused(
        &rt,
        EDGE,
        b"test,x\n,1\n",
        b"lustrocov: suite record 1: bad name\n",
    )?;
    refused(
        &rt,
        EDGE,
        b"test,x\na b,1\n",
        b"lustrocov: suite record 1: bad name\n",
    )?;
    refused(
        &rt,
        EDGE,
        b"test,x\na,1\nb,0\na,1\n",
        b"lustrocov: suite record 3: split test\n",
    )?;
    refused(
        &rt,
        EDGE,
        b"test,x\na,2\n",
        b"lustrocov: suite record 1: bad value\n",
    )?;
    // The first record at fault decides, whatever its kind.
    refused(
        &rt,
        EDGE,
        b"test,x\na,1\na,2\na\n",
        b"lustrocov: suite record 2: bad value\n",
    )
}

#[test]
fn values_are_refused(rt: HostRuntime) -> Result<(), Fail> {
    let line = b"lustrocov: suite record 1: bad value\n";
    refused(&rt, MIXED, b"test,b,i,x\nt,1,+1,red\n", line)?;
    refused(&rt, MIXED, b"test,b,i,x\nt,1,8,red\n", line)?;
    refused(&rt, MIXED, b"test,b,i,x\nt,1,-9,red\n", line)?;
    refused(&rt, MIXED, b"test,b,i,x\nt,1,-,red\n", line)?;
    refused(&rt, MIXED, b"test,b,i,x\nt,1,,red\n", line)?;
    refused(&rt, MIXED, b"test,b,i,x\nt,1,1,north\n", line)?;
    refused(&rt, MIXED, b"test,b,i,x\nt,1,1,0\n", line)?;
    refused(&rt, MIXED, b"test,b,i,x\nt,True,1,red\n", line)?;
    refused(&rt, MIXED, b"test,b,i,x\nt,-1,1,red\n", line)
}

#[test]
fn names_have_at_most_64_bytes(rt: HostRuntime) -> Result<(), Fail> {
    let alloc = rt.alloc();
    let longest = repeated(alloc, b"test,x\n", b"n", 64, b",1\n")?;
    let text = repeated(alloc, b"test ", b"n", 64, b"\nx 1\ny 0\n")?;
    run(&rt, EDGE, longest.as_slice(), &[], text.as_slice())?;
    let longer = repeated(alloc, b"test,x\n", b"n", 65, b",1\n")?;
    refused(
        &rt,
        EDGE,
        longer.as_slice(),
        b"lustrocov: suite record 1: bad name\n",
    )
}
