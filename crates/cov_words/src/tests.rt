use super::*;
use std::alloc::Global;
use std::process::Abort;
use std::test::Fail;

/// The words of a line, between single blanks: two blanks in a row have an empty word between them.
fn args_of(alloc: Global, line: &str) -> Result<Vec<String>, Fail> {
    let mut args = Vec::new(alloc);
    for arg in line.split(' ') {
        args.push(String::from_str(alloc, arg)?)?;
    }
    Ok(args)
}

/// Asks that a line names a job, or that it is refused.
fn expect(
    rt: &impl Abort,
    alloc: Global,
    line: &str,
    want: Result<Job<'_>, WordsFault>,
) -> Result<(), Fail> {
    let args = args_of(alloc, line)?;
    assert_eq!(rt; read_words(alloc, args.as_slice()), want, "{line}");
    Ok(())
}

/// The job of a command on two files without options.
fn plain<'a>(verb: Verb, first: &'a str, second: &'a str) -> Job<'a> {
    Job {
        verb,
        first,
        second,
        third: "",
        fourth: "",
        number: 0,
        main: None,
        width: 32,
        length: 10,
        k: 8,
        budget: 20_000,
        out: None,
        json: false,
    }
}

#[test]
fn reads_each_command_without_options(rt: HostRuntime) -> Result<(), Fail> {
    let session = Job {
        third: "s.txt",
        ..plain(Verb::Session, "e.lus", "a.csv")
    };
    let certify = Job {
        number: 29,
        k: 1,
        ..plain(Verb::Certify, "e.lus", "1.lrat")
    };
    let make = Job {
        number: 1,
        ..plain(Verb::Make, "", "")
    };
    for (line, want) in [
        ("run e.lus a.csv", plain(Verb::Run, "e.lus", "a.csv")),
        ("score e.lus a.csv", plain(Verb::Score, "e.lus", "a.csv")),
        ("session e.lus a.csv s.txt", session),
        (
            "generate e.lus a.csv",
            plain(Verb::Generate, "e.lus", "a.csv"),
        ),
        (
            "verify q.cnf q.lrat",
            plain(Verb::Verify, "q.cnf", "q.lrat"),
        ),
        ("certify e.lus 29 1 1.lrat", certify),
        ("make 1", make),
    ] {
        expect(&rt, rt.alloc(), line, Ok(want))?;
    }
    Ok(())
}

#[test]
fn reads_commands_over_suites_with_all_options(rt: HostRuntime) -> Result<(), Fail> {
    let run = Job {
        main: Some("m"),
        width: 2,
        ..plain(Verb::Run, "e.lus", "a.csv")
    };
    let score = Job {
        main: Some("m"),
        length: 1,
        json: true,
        ..plain(Verb::Score, "e.lus", "a.csv")
    };
    let session = Job {
        third: "s.txt",
        main: Some("m"),
        width: 31,
        length: 64,
        ..plain(Verb::Session, "e.lus", "a.csv")
    };
    for (line, want) in [
        ("run e.lus a.csv --main m --width 2", run),
        (
            "score --json --length 1 e.lus --main m a.csv --width 32",
            score,
        ),
        (
            "session e.lus a.csv s.txt --main m --width 31 --length 64",
            session,
        ),
    ] {
        expect(&rt, rt.alloc(), line, Ok(want))?;
    }
    Ok(())
}

#[test]
fn reads_commands_with_bounds_with_all_options(rt: HostRuntime) -> Result<(), Fail> {
    let generate = Job {
        main: Some("m"),
        width: 16,
        length: 63,
        k: 32,
        budget: 100_000,
        out: Some("d"),
        ..plain(Verb::Generate, "e.lus", "a.csv")
    };
    let certify = Job {
        number: u32::MAX,
        main: Some("m"),
        width: 8,
        length: 9,
        k: 32,
        ..plain(Verb::Certify, "e.lus", "1.lrat")
    };
    let make = Job {
        number: 1000,
        length: 2,
        k: 1,
        budget: 0,
        ..plain(Verb::Make, "", "")
    };
    for (line, want) in [
        (
            "generate e.lus a.csv --main m --width 16 --length 63 --k 32 --budget 100000 --out d",
            generate,
        ),
        (
            "certify e.lus 4294967295 32 1.lrat --main m --width 8 --length 9",
            certify,
        ),
        ("make 1000 --length 2 --k 1 --budget 0", make),
    ] {
        expect(&rt, rt.alloc(), line, Ok(want))?;
    }
    Ok(())
}

#[test]
fn reads_each_spelling(rt: HostRuntime) -> Result<(), Fail> {
    let score = plain(Verb::Score, "a", "b");
    for (line, want) in [
        ("score a b --length=5", Job { length: 5, ..score }),
        ("score a b --length 05", Job { length: 5, ..score }),
        ("score a b --length +5", Job { length: 5, ..score }),
        ("score a b --length 007", Job { length: 7, ..score }),
        (
            "score a b --length 064",
            Job {
                length: 64,
                ..score
            },
        ),
        ("score -- -a --b", plain(Verb::Score, "-a", "--b")),
        ("score a -- --b", plain(Verb::Score, "a", "--b")),
        ("score a b --", score),
        ("score  b", plain(Verb::Score, "", "b")),
        (
            "score a b --main ",
            Job {
                main: Some(""),
                ..score
            },
        ),
    ] {
        expect(&rt, rt.alloc(), line, Ok(want))?;
    }
    Ok(())
}

#[test]
fn refuses_other_command_lines(rt: HostRuntime) -> Result<(), Fail> {
    assert_eq!(rt; read_words(rt.alloc(), &[]), Err(WordsFault::Usage));
    for line in [
        "",
        "Run a b",
        "walk a b",
        "help",
        "run",
        "run a",
        "run a b c",
        "run a b --help",
        "run a b --length 5",
        "run a b --wid 8",
        "run a b --frames",
        "run a b --frames=1",
        "run a b -x",
        "run a b ",
        "run a b -- c",
        "run a b -- --width 8",
        " a b",
        "-- run a b",
        "run a b --main",
        "run a b --main m --main m",
        "score a b --json --json",
        "run a b --width 8 --width 8",
    ] {
        expect(&rt, rt.alloc(), line, Err(WordsFault::Usage))?;
    }
    Ok(())
}

#[test]
fn refuses_other_numbers_and_names(rt: HostRuntime) -> Result<(), Fail> {
    for line in [
        "run a b --width=1",
        "run a b --width 1",
        "run a b --width 33",
        "score a b --length 0",
        "score a b --length 65",
        "score a b --length -5",
        "score a b --length ",
        "score a b --length 5x",
        "generate a b --k 0",
        "generate a b --k 33",
        "generate a b --budget 100001",
        "generate a b --budget -1",
        "generate a b --out ",
        "certify a 0 1 b",
        "certify a 4294967296 1 b",
        "certify a 1 0 b",
        "certify a 1 33 b",
        "make 0",
        "make 1001",
        "make 1 --width 8",
    ] {
        expect(&rt, rt.alloc(), line, Err(WordsFault::Usage))?;
    }
    Ok(())
}
