use crate::{Verdict, solve, solve_plain, solve_with};
use cnf_form::{Formula, Lit, read_dimacs};
use cov_base::{List, Memory};
use proof_check::verify;
use sat_choose::Chooser;
use std::alloc::Global;
use std::process::Abort;
use std::test::Fail;

/// The formula of a short text.
fn formula(rt: &impl Abort, alloc: Global, text: &[u8]) -> Result<Formula, Fail> {
    assert!(rt; text.len() < 10_000);
    Ok(read_dimacs(alloc, text)?)
}

/// How a search ended.
#[derive(Clone, Copy, Debug, PartialEq, Eq)]
enum Kind {
    Found,
    Refuted,
    Spent,
}

/// The kind of a verdict, and how many steps it carries.
fn summary(verdict: &Verdict) -> (Kind, usize) {
    match verdict {
        Verdict::Found(_) => (Kind::Found, 0),
        Verdict::Refuted(proof) => (Kind::Refuted, proof.len()),
        Verdict::Spent(log) => (Kind::Spent, log.len()),
    }
}

/// A chooser that picks one literal each time.
#[derive(Drop)]
struct Always {
    lit: Lit,
    vars: u32,
}

impl Chooser for Always {
    ghost size = { λ always. always.vars };

    fn begin(&mut self, vars: u32) -> Result<(), Memory> {
        self.vars = vars;
        Ok(())
    }

    fn pick(&mut self) -> Option<Lit> {
        if self.lit.var < self.vars {
            Some(self.lit)
        } else {
            None
        }
    }

    fn learnt(&mut self, _lits: &[Lit]) {}
}

/// A chooser that has no memory to begin.
#[derive(Drop)]
struct Never;

impl Chooser for Never {
    ghost size = { λ _. 0 };

    fn begin(&mut self, _vars: u32) -> Result<(), Memory> {
        Err(Memory)
    }

    fn pick(&mut self) -> Option<Lit> {
        None
    }

    fn learnt(&mut self, _lits: &[Lit]) {}
}

/// A chooser that never picks, and counts how often it is called.
#[derive(Drop)]
struct Counting {
    vars: u32,
    begins: u32,
    picks: u32,
    learnts: u32,
}

impl Chooser for Counting {
    ghost size = { λ counting. counting.vars };

    fn begin(&mut self, vars: u32) -> Result<(), Memory> {
        self.vars = vars;
        self.begins = self.begins.saturating_add(1);
        Ok(())
    }

    fn pick(&mut self) -> Option<Lit> {
        self.picks = self.picks.saturating_add(1);
        None
    }

    fn learnt(&mut self, _lits: &[Lit]) {
        self.learnts = self.learnts.saturating_add(1);
    }
}

/// All four clauses of two variables.
const SQUARE: &str = "p cnf 2 4\n1 2 0\n1 -2 0\n-1 2 0\n-1 -2 0\n";

/// The same of the last two of 42 variables.
const FAR_SQUARE: &str = "p cnf 42 4\n41 42 0\n41 -42 0\n-41 42 0\n-41 -42 0\n";

/// Texts with a budget, how the search ends, and with how many steps.
const ROWS: [(&str, u64, Kind, usize); 10] = [
    (SQUARE, 0, Kind::Spent, 0),
    (SQUARE, 1, Kind::Refuted, 2),
    (SQUARE, 1_000_000_000, Kind::Refuted, 2),
    (FAR_SQUARE, 0, Kind::Spent, 0),
    (FAR_SQUARE, 1, Kind::Refuted, 2),
    ("p cnf 1 2\n1 0\n-1 0\n", 0, Kind::Refuted, 1),
    ("p cnf 0 1\n0\n", 0, Kind::Refuted, 1),
    ("p cnf 0 0\n", 0, Kind::Found, 0),
    ("p cnf 2 1\n1 2 0\n", 0, Kind::Found, 0),
    ("p cnf 3 3\n1 0\n-1 2 0\n-2 3 0\n", 0, Kind::Found, 0),
];

#[test]
fn searches_end_as_they_should(rt: HostRuntime) -> Result<(), Fail> {
    for (text, budget, kind, steps) in ROWS {
        let formula = formula(&rt, rt.alloc(), text.as_bytes())?;
        assert!(rt; budget <= 1_000_000_000);
        let verdict = solve_plain(rt.alloc(), &formula, budget)?;
        assert_eq!(rt; summary(&verdict), (kind, steps), "{text:?}");
    }
    Ok(())
}

#[test]
fn a_chooser_changes_no_such_verdict(rt: HostRuntime) -> Result<(), Fail> {
    for (text, budget, kind, steps) in ROWS {
        let formula = formula(&rt, rt.alloc(), text.as_bytes())?;
        for lit in [
            Lit {
                var: 0,
                positive: false,
            },
            Lit {
                var: 1,
                positive: true,
            },
            Lit {
                var: 41,
                positive: true,
            },
        ] {
            let mut chooser: Box<dyn Chooser> = Box::new(rt.alloc(), Always { lit, vars: 0 })?;
            assert!(rt; budget <= 1_000_000_000);
            let verdict = solve(rt.alloc(), &formula, budget, &mut chooser)?;
            assert_eq!(rt; summary(&verdict), (kind, steps), "{text:?} {lit:?}");
        }
    }
    Ok(())
}

/// The first 40 variables and one more are decided before the first conflict, from which a clause
/// is learnt.
#[test]
fn a_chooser_is_called_at_each_turn(rt: HostRuntime) -> Result<(), Fail> {
    let formula = formula(&rt, rt.alloc(), FAR_SQUARE.as_bytes())?;
    let mut counting = Counting {
        vars: 0,
        begins: 0,
        picks: 0,
        learnts: 0,
    };
    let verdict = solve_with(rt.alloc(), &formula, 1, &mut counting)?;
    assert_eq!(rt; summary(&verdict), (Kind::Refuted, 2));
    assert_eq!(rt; (counting.vars, counting.begins), (42, 1));
    assert_eq!(rt; (counting.picks, counting.learnts), (41, 1));
    Ok(())
}

#[test]
fn picks_are_heeded_and_other_variables_set_false(rt: HostRuntime) -> Result<(), Fail> {
    let formula = formula(&rt, rt.alloc(), b"p cnf 3 0\n".as_slice())?;
    for (var, positive, want) in [(0, false, 0), (0, true, 1), (2, true, 1), (7, true, 0)] {
        let lit = Lit { var, positive };
        match solve_with(rt.alloc(), &formula, 0, &mut Always { lit, vars: 0 })? {
            Verdict::Found(bits) => assert_eq!(rt; bits.count(), want, "{lit:?}"),
            _ => assert!(rt; false, "no bits with {lit:?}"),
        }
    }
    Ok(())
}

#[test]
fn a_chooser_that_cannot_begin_ends_the_search(rt: HostRuntime) -> Result<(), Fail> {
    let formula = formula(&rt, rt.alloc(), SQUARE.as_bytes())?;
    let mut chooser: Box<dyn Chooser> = Box::new(rt.alloc(), Never)?;
    assert!(rt; solve(rt.alloc(), &formula, 1, &mut chooser).is_err());
    Ok(())
}

/// Four pigeons and three holes.
const FOUR_INTO_THREE: &str = "p cnf 12 22\n\
    1 2 3 0 4 5 6 0 7 8 9 0 10 11 12 0 -1 -4 0 -1 -7 0 -1 -10 0 -4 -7 0 -4 -10 0 -7 -10 0 -2 -5 0\n\
    -2 -8 0 -2 -11 0 -5 -8 0 -5 -11 0 -8 -11 0 -3 -6 0 -3 -9 0 -3 -12 0 -6 -9 0 -6 -12 0 -9 -12 0\n";

/// Five pigeons and four holes.
const FIVE_INTO_FOUR: &str = "p cnf 20 45\n\
    1 2 3 4 0 5 6 7 8 0 9 10 11 12 0 13 14 15 16 0 17 18 19 20 0 -1 -5 0 -1 -9 0 -1 -13 0 -1 -17 0\n\
    -5 -9 0 -5 -13 0 -5 -17 0 -9 -13 0 -9 -17 0 -13 -17 0 -2 -6 0 -2 -10 0 -2 -14 0 -2 -18 0 -6 -10 0\n\
    -6 -14 0 -6 -18 0 -10 -14 0 -10 -18 0 -14 -18 0 -3 -7 0 -3 -11 0 -3 -15 0 -3 -19 0 -7 -11 0\n\
    -7 -15 0 -7 -19 0 -11 -15 0 -11 -19 0 -15 -19 0 -4 -8 0 -4 -12 0 -4 -16 0 -4 -20 0 -8 -12 0\n\
    -8 -16 0 -8 -20 0 -12 -16 0 -12 -20 0 -16 -20 0\n";

#[test]
fn pigeons_do_not_fit(rt: HostRuntime) -> Result<(), Fail> {
    for text in [FOUR_INTO_THREE, FIVE_INTO_FOUR] {
        let formula = formula(&rt, rt.alloc(), text.as_bytes())?;
        match solve_plain(rt.alloc(), &formula, 10_000)? {
            Verdict::Refuted(proof) => {
                assert!(rt; proof.len() < 10_002);
                assert_eq!(rt; verify(rt.alloc(), &formula, &proof), Ok(()));
            }
            _ => assert!(rt; false, "no proof of {text:?}"),
        }
    }
    Ok(())
}

/// A literal in the clause of a number: 1 for the variable, 2 for its negation, 0 for neither.
fn push_lit(out: &mut List<u8>, digit: u32, lit: &str, negation: &str) -> Result<(), Memory> {
    match digit {
        1 => out.extend_from_slice(lit.as_bytes()),
        2 => out.extend_from_slice(negation.as_bytes()),
        _ => Ok(()),
    }
}

/// The clause of three variables whose literals are the digits of a number in base 3.
fn push_clause(out: &mut List<u8>, code: u32) -> Result<(), Memory> {
    push_lit(out, code % 3, "1 ", "-1 ")?;
    push_lit(out, code / 3 % 3, "2 ", "-2 ")?;
    push_lit(out, code / 9 % 3, "3 ", "-3 ")?;
    out.extend_from_slice(b"0\n".as_slice())
}

fn text_of(alloc: Global, codes: [u32; 4]) -> Result<List<u8>, Memory> {
    let mut out = List::new(alloc);
    out.extend_from_slice(b"p cnf 3 4\n".as_slice())?;
    for code in codes {
        push_clause(&mut out, code)?;
    }
    Ok(out)
}

fn agrees(digit: u32, bit: u32) -> bool {
    digit == 2 - bit % 2
}

/// Whether the clause of a number is true under the bits of another one.
fn is_true(code: u32, bits: u32) -> bool {
    agrees(code % 3, bits) || agrees(code / 3 % 3, bits / 2) || agrees(code / 9 % 3, bits / 4)
}

fn is_satisfiable(codes: [u32; 4]) -> bool {
    for bits in 0..8 {
        if codes.iter().all(|code| is_true(*code, bits)) {
            return true;
        }
    }
    false
}

#[test]
fn all_formulas_of_three_variables_and_four_clauses(rt: HostRuntime) -> Result<(), Fail> {
    for number in 0..27 * 27 * 27 * 27u32 {
        let codes = [
            number % 27,
            number / 27 % 27,
            number / 729 % 27,
            number / 19_683,
        ];
        if codes[0] <= codes[1] && codes[1] <= codes[2] && codes[2] <= codes[3] {
            let text = text_of(rt.alloc(), codes)?;
            let formula = formula(&rt, rt.alloc(), text.as_slice())?;
            let (kind, _) = summary(&solve_plain(rt.alloc(), &formula, 64)?);
            let want = if is_satisfiable(codes) {
                Kind::Found
            } else {
                Kind::Refuted
            };
            assert_eq!(rt; kind, want, "{number}");
        }
    }
    Ok(())
}
