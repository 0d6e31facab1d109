use crate::{LratFault, LratKind, Proof, StepKind, VerifyFault, read_lrat, verify, write_lrat};
use cnf_form::{Formula, read_dimacs};
use cov_base::List;
use std::alloc::Global;
use std::process::Abort;
use std::test::Fail;

/// The proof of a short text, or its fault.
fn read(rt: &impl Abort, alloc: Global, text: &str) -> Result<Proof, LratFault> {
    assert!(rt; text.len() < 1000);
    read_lrat(alloc, text.as_bytes())
}

/// The formula of a short text.
fn formula(rt: &impl Abort, alloc: Global, text: &str) -> Result<Formula, Fail> {
    assert!(rt; text.len() < 1000);
    Ok(read_dimacs(alloc, text.as_bytes())?)
}

#[test]
fn proofs_are_read_and_written(rt: HostRuntime) -> Result<(), Fail> {
    for (text, want) in [
        ("", ""),
        (
            "c\n\n1 2 -3 0 4 -5 0\n7 d 1 2 0\n",
            "1 2 -3 0 4 -5 0\n1 d 1 2 0\n",
        ),
        ("1 2 2 -2 2 0 0", "1 2 -2 0 0\n"),
        ("4294967295 0 0", "4294967295 0 0\n"),
        ("1 d 0", "1 d 0\n"),
        ("\t007\td\t008 0", "1 d 8 0\n"),
        (
            "1 2000000 0 -4294967295 -0\r",
            "1 2000000 0 -4294967295 0\n",
        ),
        ("1 -0 00", "1 0 0\n"),
        (
            "9 1 0 2 0\n5 -1 0 3 0\n5 0 9 5 0",
            "9 1 0 2 0\n5 -1 0 3 0\n5 0 9 5 0\n",
        ),
        ("3 1 0 1 0\n1 d 3 0\n2 0 0", "3 1 0 1 0\n1 d 3 0\n2 0 0\n"),
    ] {
        let proof = read(&rt, rt.alloc(), text)?;
        let mut out = List::new(rt.alloc());
        write_lrat(&proof, &mut out)?;
        assert!(rt; out.as_slice() == want.as_bytes(), "{text:?}");
    }
    Ok(())
}

#[test]
fn faults_are_named_with_their_lines(rt: HostRuntime) -> Result<(), Fail> {
    for (text, line, kind) in [
        ("0 d 1 0", 1, LratKind::BadWord),
        ("-1 0 0", 1, LratKind::BadWord),
        ("+1 0 0", 1, LratKind::BadWord),
        ("4294967296 0 0", 1, LratKind::BadWord),
        ("d 1 0", 1, LratKind::BadWord),
        ("1 x", 1, LratKind::BadWord),
        ("1 2000001 0 0", 1, LratKind::BadWord),
        ("1 1 0 4294967296 0", 1, LratKind::BadWord),
        ("1 1 0 d 0", 1, LratKind::BadWord),
        ("1 d -1 0", 1, LratKind::BadWord),
        ("1 d d 0", 1, LratKind::BadWord),
        ("c\n1 0 0\n\nx 0 0\n", 4, LratKind::BadWord),
        ("1", 1, LratKind::NoZero),
        ("1 d", 1, LratKind::NoZero),
        ("5 1 0 1 2 0\n6 0 5 3", 2, LratKind::NoZero),
        ("1 0 0 0", 1, LratKind::Extra),
        ("1 1 0 0 x", 1, LratKind::Extra),
        ("1 d 1 0 x", 1, LratKind::Extra),
    ] {
        let fault = read(&rt, rt.alloc(), text).err();
        assert_eq!(rt; fault, Some(LratFault::Bad { line, kind }), "{text:?}");
    }
    Ok(())
}

#[test]
fn a_proof_may_be_cut_between_its_lines_alone(rt: HostRuntime) -> Result<(), Fail> {
    let text = b"5 1 0 1 2 0\n6 0 5 3 4 0\n".as_slice();
    for len in 0..text.len() + 1 {
        let (front, _) = text.split_at(len);
        let want = match len {
            0 | 11 | 12 | 23 | 24 => None,
            1..11 => Some(LratFault::Bad {
                line: 1,
                kind: LratKind::NoZero,
            }),
            _ => Some(LratFault::Bad {
                line: 2,
                kind: LratKind::NoZero,
            }),
        };
        assert!(rt; front.len() < 1000);
        assert_eq!(rt; read_lrat(rt.alloc(), front).err(), want, "{len}");
    }
    Ok(())
}

/// All four clauses of two variables.
const SQUARE: &str = "p cnf 2 4\n1 2 0\n1 -2 0\n-1 2 0\n-1 -2 0\n";

#[test]
fn proofs_are_accepted(rt: HostRuntime) -> Result<(), Fail> {
    for (cnf, lrat) in [
        (SQUARE, "5 1 0 1 2 0\n6 0 5 3 4 0\n"),
        (SQUARE, "5 1 0 1 2 0\n1 d 1 2 0\n4294967295 0 5 3 4 0\n"),
        (SQUARE, "5 1 0 1 2 0\n6 0 5 3 4 0\n1 d 99 0\n"),
        ("p cnf 0 1\n0\n", "2 0 1 0\n"),
    ] {
        let formula = formula(&rt, rt.alloc(), cnf)?;
        let proof = read(&rt, rt.alloc(), lrat)?;
        assert!(rt; proof.len() < 1000);
        assert_eq!(rt; verify(rt.alloc(), &formula, &proof), Ok(()), "{lrat:?}");
    }
    Ok(())
}

#[test]
fn the_first_refused_step_is_named(rt: HostRuntime) -> Result<(), Fail> {
    for (cnf, lrat, step, kind) in [
        (SQUARE, "5 1 0 1 2 0\n", 2, StepKind::NoEmpty),
        (SQUARE, "", 1, StepKind::NoEmpty),
        (SQUARE, "5 1 9 0 1 2 0\n", 2, StepKind::NoEmpty),
        ("p cnf 0 1\n0\n", "", 1, StepKind::NoEmpty),
        ("p cnf 0 0\n", "", 1, StepKind::NoEmpty),
        ("p cnf 0 0\n", "1 0 0\n", 1, StepKind::NotClosed),
        (SQUARE, "5 1 0 1 2 0\n6 0 3 5 4 0\n", 2, StepKind::NotUnit),
        (SQUARE, "5 1 0 1 2 9 0\n", 1, StepKind::NotUnit),
        (SQUARE, "5 1 0 1 1 2 0\n", 1, StepKind::Satisfied),
        (SQUARE, "5 1 0 1 0\n", 1, StepKind::NotClosed),
        (SQUARE, "5 1 0 0\n", 1, StepKind::NotClosed),
        (SQUARE, "4 1 0 1 2 0\n", 1, StepKind::OldId),
        (SQUARE, "5 1 0 1 2 0\n5 0 5 3 4 0\n", 2, StepKind::OldId),
        (SQUARE, "7 1 0 1 2 0\n6 0 7 3 4 0\n", 2, StepKind::OldId),
        (
            SQUARE,
            "5 1 0 1 2 0\n1 d 5 0\n5 1 0 1 2 0\n",
            3,
            StepKind::OldId,
        ),
        (SQUARE, "5 1 0 -1 2 0\n", 1, StepKind::RatHint),
        (SQUARE, "5 1 0 1 -9 0\n", 1, StepKind::RatHint),
        (SQUARE, "5 1 0 9 2 0\n", 1, StepKind::UnknownId),
        (SQUARE, "5 1 0 5 2 0\n", 1, StepKind::UnknownId),
        (SQUARE, "1 d 9 0\n", 1, StepKind::UnknownId),
        (SQUARE, "1 d 1 1 0\n", 1, StepKind::UnknownId),
        (SQUARE, "1 d 1 0\n5 1 0 1 2 0\n", 2, StepKind::UnknownId),
    ] {
        let formula = formula(&rt, rt.alloc(), cnf)?;
        let proof = read(&rt, rt.alloc(), lrat)?;
        assert!(rt; proof.len() < 1000);
        let found = verify(rt.alloc(), &formula, &proof);
        assert_eq!(rt; found, Err(VerifyFault::Refused { step, kind }), "{lrat:?}");
    }
    Ok(())
}
