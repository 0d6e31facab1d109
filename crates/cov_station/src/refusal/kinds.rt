//! The words for kinds of faults, and for quantities that have a limit.
ghost use Rattle.std.specs.Prelude.{◌≡◌};
ghost use Rattle.cov_station.specs.Refusals.{dimacs_fault as dimacs_fault_of, lrat_fault as lrat_fault_of, step_fault as step_fault_of, suite_fault as suite_fault_of, type_fault as type_fault_of, word_of};

use super::Quantity;
use cnf_form::DimacsKind;
use lus_types::TypeKind;
use proof_check::{LratKind, StepKind};
use suite_file::SuiteKind;

impl Quantity {
    /// The word for it in a line.
    pub(crate) fn word(&self) -> &'static [u8]
        ensures { result.now ≡ word_of self.now }
    {
        match self {
            Quantity::Bytes => b"bytes",
            Quantity::Operators => b"operators",
            Quantity::Calls => b"calls",
            Quantity::Edges => b"edges",
            Quantity::Paths => b"paths",
            Quantity::Obligations => b"obligations",
            Quantity::Tests => b"tests",
            Quantity::Instants => b"instants",
        }
    }
}

/// The words for a fault of typing.
pub(crate) fn type_fault(kind: TypeKind) -> &'static [u8]
    ensures { result.now ≡ type_fault_of kind }
{
    match kind {
        TypeKind::Clocked => b"clocked",
        TypeKind::Unsupported => b"unsupported",
        TypeKind::Duplicate => b"duplicate",
        TypeKind::Unknown => b"unknown",
        TypeKind::NotANode => b"not a node",
        TypeKind::Arity => b"arity",
        TypeKind::Mismatch => b"mismatch",
        TypeKind::LiteralRange => b"literal out of range",
        TypeKind::Undefined => b"undefined",
        TypeKind::DefinedTwice => b"defined twice",
        TypeKind::DefinesInput => b"defines an input",
        TypeKind::RecursiveNode => b"recursive node",
        TypeKind::NoMain => b"no main",
    }
}

/// The words for a fault of a suite.
pub(crate) fn suite_fault(kind: SuiteKind) -> &'static [u8]
    ensures { result.now ≡ suite_fault_of kind }
{
    match kind {
        SuiteKind::NoHeader => b"no header",
        SuiteKind::NoTestColumn => b"no test column",
        SuiteKind::UnknownColumn => b"unknown column",
        SuiteKind::RepeatedColumn => b"repeated column",
        SuiteKind::MissingColumn => b"missing column",
        SuiteKind::Width => b"width",
        SuiteKind::BadName => b"bad name",
        SuiteKind::SplitTest => b"split test",
        SuiteKind::BadValue => b"bad value",
    }
}

/// The words for a fault of a formula.
pub(crate) fn dimacs_fault(kind: DimacsKind) -> &'static [u8]
    ensures { result.now ≡ dimacs_fault_of kind }
{
    match kind {
        DimacsKind::BadHeader => b"bad header",
        DimacsKind::BadWord => b"bad word",
        DimacsKind::Range => b"range",
        DimacsKind::NoHeader => b"no header",
        DimacsKind::OpenClause => b"open clause",
        DimacsKind::Count => b"count",
    }
}

/// The words for a fault of the text of a proof.
pub(crate) fn lrat_fault(kind: LratKind) -> &'static [u8]
    ensures { result.now ≡ lrat_fault_of kind }
{
    match kind {
        LratKind::BadWord => b"bad word",
        LratKind::NoZero => b"no zero",
        LratKind::Extra => b"extra word",
    }
}

/// The words for a fault of a step.
pub(crate) fn step_fault(kind: StepKind) -> &'static [u8]
    ensures { result.now ≡ step_fault_of kind }
{
    match kind {
        StepKind::OldId => b"old id",
        StepKind::UnknownId => b"unknown id",
        StepKind::RatHint => b"rat hint",
        StepKind::NotUnit => b"not unit",
        StepKind::Satisfied => b"satisfied",
        StepKind::NotClosed => b"not closed",
        StepKind::NoEmpty => b"no empty clause",
    }
}
