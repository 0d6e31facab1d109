mod faults;
mod limits;
mod programs;
mod scores;
mod sources;
mod suites;
mod verify;
mod words;

use crate::{Status, station};
use cov_base::{List, MemSink, MemStore, Text};
use std::alloc::Global;
use std::collections::BTreeMap;
use std::process::Abort;
use std::test::Fail;

const EDGE: &[u8] =
    b"node edge(x: bool) returns (y: bool); let y = false -> x and not pre x; tel\n";

const SUITE: &[u8] = b"test,x\na,0\na,1\na,1\n";

const TEXT: &[u8] = b"test a\nx 0 1 1\ny 0 1 0\n";

const ALARM: &[u8] = b"type mode = enum { Idle, Armed, Ring };
const LIMIT = 2;
node rise(x: bool) returns (y: bool);
let y = false -> x and not pre x; tel
node count(up, reset: bool) returns (n: int);
var p: int;
let p = 0 -> pre n;
  n = if reset then 0 else if up and p < LIMIT then p + 1 else p; tel
node alarm(arm, sensor, clear: bool) returns (siren: bool; m: mode);
var n: int; last: mode; hit: bool;
let assert not (arm and clear);
  hit = rise(sensor);
  last = Idle -> pre m;
  n = count(hit and last = Armed, clear);
  m = if clear then Idle else if last = Idle and arm then Armed
      else if last = Armed and n >= LIMIT then Ring else last;
  siren = m = Ring; tel
";

const DAY: &[u8] = b"test,arm,sensor,clear
day,1,0,0
day,0,1,0
day,0,0,0
day,0,1,0
day,0,0,0
day,0,0,1
";

/// The bytes of `e.lus` and `a.csv`, where they are there.
type Files<'a> = (Option<&'a [u8]>, Option<&'a [u8]>);

/// Words of a command line.
fn words_of(alloc: Global, words: &[&str]) -> Result<Vec<String>, Fail> {
    let mut list = Vec::new(alloc);
    for word in words {
        list.push(String::from_str(alloc, word)?)?;
    }
    Ok(list)
}

/// A command over both files, with these options.
fn command(alloc: Global, verb: &str, options: &[&str]) -> Result<Vec<String>, Fail> {
    let mut words = words_of(alloc, [verb, "e.lus", "a.csv"].as_slice())?;
    for word in options {
        words.push(String::from_str(alloc, word)?)?;
    }
    Ok(words)
}

/// Two files in memory, where they are there. The calls of these numbers fail.
fn store_with(
    alloc: Global,
    first: (&str, Option<&[u8]>),
    second: (&str, Option<&[u8]>),
    failing: Vec<u32>,
) -> Result<MemStore, Fail> {
    let mut files = BTreeMap::new(alloc);
    if let Some(bytes) = first.1 {
        let text = Text::from_bytes(alloc, bytes)?;
        let _ = files.insert(String::from_str(alloc, first.0)?, text)?;
    }
    if let Some(bytes) = second.1 {
        let text = Text::from_bytes(alloc, bytes)?;
        let _ = files.insert(String::from_str(alloc, second.0)?, text)?;
    }
    Ok(MemStore::new(alloc, files, List::from_vec(failing)))
}

/// A source and a suite in memory. The calls of these numbers fail.
fn store_of(alloc: Global, given: Files, failing: Vec<u32>) -> Result<MemStore, Fail> {
    let (source, suite) = given;
    store_with(alloc, ("e.lus", source), ("a.csv", suite), failing)
}

/// Does what the words ask for, and compares how it ends and what it wrote.
fn expect<R: Abort + AllocGlobal>(
    rt: &R,
    words: &[String],
    files: Files,
    status: Status,
    text: &[u8],
) -> Result<(), Fail> {
    let alloc = rt.alloc();
    let mut store = store_of(alloc, files, Vec::new(alloc))?;
    let mut sink = MemSink::new(alloc, 4096, List::new(alloc))?;
    assert_eq!(rt; station(alloc, words, &mut store, &mut sink), status);
    assert_eq!(rt; sink.written(), text);
    Ok(())
}

/// `run` of a source over a suite prints this.
fn run<R: Abort + AllocGlobal>(
    rt: &R,
    source: &[u8],
    suite: &[u8],
    options: &[&str],
    text: &[u8],
) -> Result<(), Fail> {
    let words = command(rt.alloc(), "run", options)?;
    expect(
        rt,
        words.as_slice(),
        (Some(source), Some(suite)),
        Status::Done,
        text,
    )
}

/// `score` of a source over a suite prints this.
fn score<R: Abort + AllocGlobal>(
    rt: &R,
    source: &[u8],
    suite: &[u8],
    options: &[&str],
    text: &[u8],
) -> Result<(), Fail> {
    let words = command(rt.alloc(), "score", options)?;
    expect(
        rt,
        words.as_slice(),
        (Some(source), Some(suite)),
        Status::Done,
        text,
    )
}

/// `run` of a source is refused so, before the suite is looked for.
fn refused<R: Abort + AllocGlobal>(
    rt: &R,
    source: &[u8],
    options: &[&str],
    status: Status,
    line: &[u8],
) -> Result<(), Fail> {
    let words = command(rt.alloc(), "run", options)?;
    expect(rt, words.as_slice(), (Some(source), None), status, line)
}

/// So many copies of a piece between a front and an end.
fn repeated(
    alloc: Global,
    front: &[u8],
    piece: &[u8],
    count: usize,
    end: &[u8],
) -> Result<Vec<u8>, Fail> {
    let mut text = Vec::new(alloc);
    text.extend_from_slice(front)?;
    for _ in 0..count {
        text.extend_from_slice(piece)?;
    }
    text.extend_from_slice(end)?;
    Ok(text)
}
