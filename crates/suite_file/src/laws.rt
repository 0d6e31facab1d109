//! What holds of suites' texts.
ghost use Rattle.std.specs.Prelude.{◌≡◌};
ghost use Rattle.suite_file.specs.Meaning.{IsAccepted};
ghost use Rattle.suite_file.specs.Refusals.{IsRefused};
ghost use Rattle.suite_file.specs.Written.{IsReadAgain};
ghost use Rattle.suite_file.specs.declared.limits.TheConstants.{LEAST_PRINTABLE, MOST_INSTANTS};
ghost use Rattle.suite_file.specs.declared.limits.TheConstants.{MOST_NAME, MOST_PRINTABLE, MOST_TESTS};

/// A suite's text is read again as its tests, within the limits. Does nothing: its clause is the
/// law.
#[tactic(auto, using(crate::proofs::ReadBack::read_again))]
pub fn read_again()
    ensures { IsReadAgain }
{}

/// A text whose records hold the tests of a suite is read as these tests: so a text is refused only
/// where there are no such tests. Does nothing: its clause is the law.
#[tactic(auto, using(crate::proofs::Accepting::accepted))]
pub fn accepted()
    ensures { IsAccepted }
{}

/// A text whose records have a first fault is refused for it. Since what `read_suite` refuses has
/// one, it answers a fault, other than `Memory`, exactly where the records have it. Does nothing:
/// its clause is the law.
#[tactic(auto, using(crate::proofs::FirstFault::refused))]
pub fn refused()
    ensures { IsRefused }
{}

/// The bytes of a name and how large a suite may be, as numbers. Does nothing: its clauses are the
/// law.
pub fn numbers_of_suites()
    ensures first_byte { LEAST_PRINTABLE ≡ 33 }
    ensures last_byte { MOST_PRINTABLE ≡ 126 }
    ensures name { MOST_NAME ≡ 64 }
    ensures tests { MOST_TESTS ≡ 210000 }
    ensures instants { MOST_INSTANTS ≡ 7400000 }
{}
