//! Words that ask for a command, and words that don't.

use super::scores::EXAMPLE;
use super::{EDGE, SUITE, expect, score, words_of};
use crate::Status;
use std::process::Abort;
use std::test::Fail;

/// The words are no command.
fn no_command<R: Abort + AllocGlobal>(rt: &R, words: &[&str]) -> Result<(), Fail> {
    let words = words_of(rt.alloc(), words)?;
    let files = (Some(EDGE), Some(SUITE));
    expect(
        rt,
        words.as_slice(),
        files,
        Status::Usage,
        b"lustrocov: usage\n",
    )
}

#[test]
fn words_without_a_command(rt: HostRuntime) -> Result<(), Fail> {
    no_command(&rt, &[])?;
    no_command(&rt, &[""])?;
    no_command(&rt, &["runs", "e.lus", "a.csv"])?;
    no_command(&rt, &["Run", "e.lus", "a.csv"])?;
    no_command(&rt, &["--width", "4", "run", "e.lus", "a.csv"])?;
    no_command(&rt, &["--help"])?;
    no_command(&rt, &["run", "--help"])
}

#[test]
fn words_that_do_not_fit(rt: HostRuntime) -> Result<(), Fail> {
    no_command(&rt, &["run"])?;
    no_command(&rt, &["run", "e.lus"])?;
    no_command(&rt, &["run", "e.lus", "a.csv", "b"])?;
    no_command(&rt, &["run", "e.lus", "a.csv", ""])?;
    no_command(&rt, &["run", "e.lus", "--other"])?;
    no_command(&rt, &["run", "e.lus", "a.csv", "--length", "5"])?;
    no_command(&rt, &["run", "e.lus", "a.csv", "--main"])?;
    no_command(
        &rt,
        &["run", "e.lus", "a.csv", "--main", "edge", "--main", "edge"],
    )?;
    no_command(&rt, &["run", "e.lus", "a.csv", "--width", "1"])?;
    no_command(&rt, &["run", "e.lus", "a.csv", "--width", "33"])?;
    no_command(&rt, &["run", "--", "e.lus", "a.csv", "--width"])?;
    no_command(&rt, &["verify", "q.cnf"])?;
    no_command(&rt, &["verify", "q.cnf", "q.lrat", "--width", "4"])?;
    no_command(&rt, &["score", "e.lus", "a.csv", "--length"])?;
    no_command(&rt, &["score", "e.lus", "a.csv", "--length", "0"])?;
    no_command(&rt, &["score", "e.lus", "a.csv", "--length", "65"])?;
    no_command(&rt, &["score", "e.lus", "a.csv", "--length", "x"])?;
    no_command(&rt, &["score", "e.lus", "a.csv", "--length", ""])?;
    no_command(
        &rt,
        &["score", "e.lus", "a.csv", "--length", "5", "--length", "5"],
    )
}

#[test]
fn commands_to_come(rt: HostRuntime) -> Result<(), Fail> {
    no_command(&rt, &["session", "e.lus", "a.csv", "s.txt"])?;
    no_command(&rt, &["generate", "e.lus", "a.csv"])?;
    no_command(&rt, &["certify", "e.lus", "1", "1", "a.csv"])?;
    no_command(&rt, &["make", "1"])
}

#[test]
fn options_in_any_place_and_spelling(rt: HostRuntime) -> Result<(), Fail> {
    let text = EXAMPLE;
    score(&rt, EDGE, SUITE, &[], text)?;
    score(&rt, EDGE, SUITE, &["--length", "5"], text)?;
    score(&rt, EDGE, SUITE, &["--length=5"], text)?;
    score(&rt, EDGE, SUITE, &["--length", "05"], text)?;
    score(&rt, EDGE, SUITE, &["--length", "+5"], text)?;
    score(
        &rt,
        EDGE,
        SUITE,
        &["--width", "2", "--length", "64", "--main", "edge"],
        text,
    )?;
    let files = (Some(EDGE), Some(SUITE));
    let before = words_of(rt.alloc(), &["score", "--length", "5", "e.lus", "a.csv"])?;
    expect(&rt, before.as_slice(), files, Status::Done, text)?;
    let behind = words_of(
        rt.alloc(),
        &["score", "--length", "5", "--", "e.lus", "a.csv"],
    )?;
    expect(&rt, behind.as_slice(), files, Status::Done, text)
}
