use crate::{
    Clause, ClauseBuilder, DimacsFault, DimacsKind, Formula, Lit, Marks, read_dimacs, write_dimacs,
};
use cov_base::List;
use std::alloc::Global;
use std::process::Abort;
use std::test::Fail;

/// The formula of a short text, or its fault.
fn read(rt: &impl Abort, alloc: Global, text: &str) -> Result<Formula, DimacsFault> {
    assert!(rt; text.len() < 1000);
    read_dimacs(alloc, text.as_bytes())
}

#[test]
fn formulas_are_read_and_written(rt: HostRuntime) -> Result<(), Fail> {
    for (text, want) in [
        ("p cnf 3 2\n1 -2 0 3\n 0\r\n", "p cnf 3 2\n1 -2 0\n3 0\n"),
        ("p cnf 3 1\n1 1 -1 1 0", "p cnf 3 1\n1 -1 0\n"),
        ("c\n p cnf 3 1\n1 0", "p cnf 3 1\n1 0\n"),
        ("p cnf -0 0", "p cnf 0 0\n"),
        ("\t\r\np\tcnf 003 01\r\n-000", "p cnf 3 1\n0\n"),
        ("p cnf 1 2\n1 0\nc -1\n-1 0\n", "p cnf 1 2\n1 0\n-1 0\n"),
        ("p cnf 2 1\n1\nc 0\n2 0\n", "p cnf 2 1\n1 2 0\n"),
        (
            "p cnf 2000000 1\n-2000000 0\n\r",
            "p cnf 2000000 1\n-2000000 0\n",
        ),
    ] {
        let formula = read(&rt, rt.alloc(), text)?;
        let mut out = List::new(rt.alloc());
        write_dimacs(&formula, &mut out)?;
        assert!(rt; out.as_slice() == want.as_bytes(), "{text:?}");
    }
    Ok(())
}

#[test]
fn faults_are_named_with_their_lines(rt: HostRuntime) -> Result<(), Fail> {
    for (text, line, kind) in [
        ("", 0, DimacsKind::NoHeader),
        ("c x\n\nc y\n", 3, DimacsKind::NoHeader),
        (" c\np cnf 3 1", 1, DimacsKind::BadHeader),
        ("1 0\np cnf 1 1\n", 1, DimacsKind::BadHeader),
        ("p cnf 3\n", 1, DimacsKind::BadHeader),
        ("p cnf 3 1 1\n", 1, DimacsKind::BadHeader),
        ("p cnf -1 0", 1, DimacsKind::BadHeader),
        ("p cnf 4294967296 0", 1, DimacsKind::BadHeader),
        ("p cnf 0 4294967296", 1, DimacsKind::BadHeader),
        ("p cnf 0 4294967295", 1, DimacsKind::Count),
        ("p cnf 1 1\np cnf 1 1\n1 0\n", 2, DimacsKind::BadWord),
        ("p cnf 3 1\n1 4294967296 0", 2, DimacsKind::BadWord),
        ("p cnf 3 1\n+1 0", 2, DimacsKind::BadWord),
        ("p cnf 3 1\n1- 0", 2, DimacsKind::BadWord),
        ("p cnf 3 1\n- 0", 2, DimacsKind::BadWord),
        ("p cnf 1 1\nx 2\n", 2, DimacsKind::BadWord),
        ("p cnf 1 1\n2 x\n", 2, DimacsKind::Range),
        ("p cnf 3 1\n\n-4 0", 3, DimacsKind::Range),
        ("p cnf 3 1\n4294967295 0", 2, DimacsKind::Range),
        ("p cnf 3 1\n1 2\n\n", 3, DimacsKind::OpenClause),
        ("p cnf 1 3\n1", 2, DimacsKind::OpenClause),
        ("p cnf 3 2\n1 0\n", 2, DimacsKind::Count),
        ("p cnf 3 0\n-0", 2, DimacsKind::Count),
    ] {
        let fault = read(&rt, rt.alloc(), text).err();
        assert_eq!(rt; fault, Some(DimacsFault::Bad { line, kind }), "{text:?}");
    }
    Ok(())
}

#[test]
fn two_million_variables_are_the_most(rt: HostRuntime) -> Result<(), Fail> {
    for text in ["p cnf 2000001 0", "c\np cnf 4294967295 1\nx\n"] {
        let fault = read(&rt, rt.alloc(), text).err();
        assert_eq!(rt; fault, Some(DimacsFault::Vars), "{text:?}");
    }
    Ok(())
}
