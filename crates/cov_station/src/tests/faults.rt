//! Files that are missing, reads that fail and puts that fail.

use super::{EDGE, Files, SUITE, TEXT, command, store_of};
use crate::{Status, station};
use cov_base::{List, MemSink};
use std::process::Abort;
use std::test::Fail;

/// Runs over these files with these calls of the store and these puts of at most 16 bytes failing.
fn run_failing<R: Abort + AllocGlobal>(
    rt: &R,
    files: Files,
    calls: &[u32],
    puts: &[u32],
    status: Status,
    text: &[u8],
) -> Result<(), Fail> {
    let alloc = rt.alloc();
    let words = command(alloc, "run", &[])?;
    let mut store = store_of(alloc, files, calls.to_vec(alloc)?)?;
    let mut sink = MemSink::new(alloc, 16, List::from_vec(puts.to_vec(alloc)?))?;
    assert_eq!(rt;
        station(alloc, words.as_slice(), &mut store, &mut sink),
        status
    );
    assert_eq!(rt; sink.written(), text);
    Ok(())
}

const BOTH: Files = (Some(EDGE), Some(SUITE));

#[test]
fn the_first_missing_file_is_named(rt: HostRuntime) -> Result<(), Fail> {
    let no_suite = b"lustrocov: no file a.csv\n";
    run_failing(&rt, (Some(EDGE), None), &[], &[], Status::Missing, no_suite)?;
    let no_source = b"lustrocov: no file e.lus\n";
    run_failing(&rt, (None, None), &[], &[], Status::Missing, no_source)?;
    // A source that is refused, before the suite is looked for.
    let line = b"lustrocov: syntax at byte 4\n";
    run_failing(&rt, (Some(b"node"), None), &[], &[], Status::Source, line)
}

#[test]
fn each_read_fails_in_turn(rt: HostRuntime) -> Result<(), Fail> {
    let source = b"lustrocov: cannot read e.lus\n";
    run_failing(&rt, BOTH, &[0], &[], Status::ReadFault, source)?;
    let suite = b"lustrocov: cannot read a.csv\n";
    run_failing(&rt, BOTH, &[1], &[], Status::ReadFault, suite)?;
    run_failing(&rt, BOTH, &[2], &[], Status::Done, TEXT)
}

#[test]
fn each_put_fails_in_turn(rt: HostRuntime) -> Result<(), Fail> {
    // The text of 23 bytes takes two puts.
    run_failing(&rt, BOTH, &[], &[0], Status::WriteFault, b"")?;
    let front = b"test a\nx 0 1 1\ny";
    run_failing(&rt, BOTH, &[], &[1], Status::WriteFault, front)?;
    run_failing(&rt, BOTH, &[], &[2], Status::Done, TEXT)?;
    // A put of the line of a refusal.
    let line = b"lustrocov: no fi";
    run_failing(&rt, (Some(EDGE), None), &[], &[1], Status::WriteFault, line)
}
