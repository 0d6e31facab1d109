ghost use Rattle.std.specs.Prelude.{◌≡◌, ◌≢◌, ◌++◌, ℕ, pos, IfOk, OnOk};
ghost use Rattle.cov_station.specs.Refusals.{at_byte, line_of, message_of, numbered, over_limit, status_of};
ghost use Rattle.cov_station.specs.declared.refusal.Refusal.{Refusal as Why};

mod kinds;

use crate::limits::MOST_VARS;
use crate::status::Status;
use cnf_form::DimacsKind;
use cov_base::{List, Memory, Text, push_decimal};
use kinds::{dimacs_fault, lrat_fault, step_fault, suite_fault, type_fault};
use lus_types::TypeKind;
use proof_check::{LratKind, StepKind};
use std::alloc::Global;
use suite_file::SuiteKind;

/// A quantity that has a limit.
#[derive(Clone, Copy, Debug, PartialEq, Eq)]
pub(crate) enum Quantity {
    Bytes,
    /// Counted tokens between two `;`.
    Operators,
    /// The depth of calls.
    Calls,
    Edges,
    Paths,
    Obligations,
    Tests,
    Instants,
}

/// Why a command refuses. Bytes, and the records of a suite, count from 0; lines, and the steps of
/// a proof, from 1.
#[derive(Debug, Drop)]
pub(crate) enum Refusal {
    Usage,
    NoFile(Text),
    CannotRead(Text),
    BadByte(u32),
    OpenComment(u32),
    WideLiteral(u32),
    Syntax(u32),
    Typing(TypeKind, u32),
    /// The name of an edge that depends on itself within an instant.
    Cycle(Text),
    /// A quantity, and the most that it may be.
    OverLimit(Quantity, u32),
    /// The number of variables that a formula was to have.
    ManyVariables(u32),
    Suite(SuiteKind, u32),
    Formula(DimacsKind, u32),
    Proof(LratKind, u32),
    /// A step of a proof that is refused.
    RefusedStep(StepKind, u32),
    Memory,
}

impl Refusal {
    /// The status with which the refused command ends.
    pub(crate) fn status(&self) -> Status
        ensures { result ≡ status_of self.now }
    {
        match self {
            Refusal::Usage => Status::Usage,
            Refusal::NoFile(_) => Status::Missing,
            Refusal::CannotRead(_) => Status::ReadFault,
            Refusal::BadByte(_) | Refusal::OpenComment(_) | Refusal::WideLiteral(_) => {
                Status::Source
            }
            Refusal::Syntax(_) | Refusal::Typing(_, _) | Refusal::Cycle(_) => Status::Source,
            Refusal::OverLimit(_, _) | Refusal::ManyVariables(_) => Status::Limit,
            Refusal::Suite(_, _) | Refusal::Formula(_, _) | Refusal::Proof(_, _) => {
                Status::Unreadable
            }
            Refusal::RefusedStep(_, _) => Status::Refused,
            Refusal::Memory => Status::Memory,
        }
    }

    /// The line that is put. Want of memory has none.
    pub(crate) fn line(&self, alloc: Global) -> Result<List<u8>, Memory>
        ensures line { IfOk result (λ line. line ≡ line_of self.now) }
        ensures some { OnOk result (self.now ≢ Why.Memory) }
    {
        let mut line = List::new(alloc);
        line.extend_from_slice(b"lustrocov: ")?;
        self.push_message(&mut line)?;
        line.extend_from_slice(b"\n")?;
        Ok(line)
    }

    fn push_message(&self, line: &mut List<u8>) -> Result<(), Memory>
        ensures line { OnOk result (line.new ≡ line.old ++ message_of self.now) }
        ensures some { OnOk result (self.now ≢ Why.Memory) }
    {
        match self {
            Refusal::Usage => line.extend_from_slice(b"usage"),
            Refusal::NoFile(name) => push_name(line, b"no file ", name.bytes()),
            Refusal::CannotRead(name) => push_name(line, b"cannot read ", name.bytes()),
            Refusal::BadByte(at) => push_place(line, b"bad byte", *at),
            Refusal::OpenComment(at) => push_place(line, b"open comment", *at),
            Refusal::WideLiteral(at) => push_place(line, b"wide literal", *at),
            Refusal::Syntax(at) => push_place(line, b"syntax", *at),
            Refusal::Typing(kind, at) => push_place(line, type_fault(*kind), *at),
            Refusal::Cycle(edge) => push_name(line, b"cycle at ", edge.bytes()),
            Refusal::OverLimit(quantity, most) => {
                push_limit(line, quantity.word(), i64::from(*most) + 1, *most)
            }
            Refusal::ManyVariables(count) => {
                push_limit(line, b"variables", i64::from(*count), MOST_VARS)
            }
            Refusal::Suite(kind, at) => push_fault(line, b"suite record ", *at, suite_fault(*kind)),
            Refusal::Formula(kind, at) => push_fault(line, b"cnf line ", *at, dimacs_fault(*kind)),
            Refusal::Proof(kind, at) => push_fault(line, b"proof line ", *at, lrat_fault(*kind)),
            Refusal::RefusedStep(kind, at) => {
                push_fault(line, b"proof refused at step ", *at, step_fault(*kind))
            }
            Refusal::Memory => Err(Memory),
        }
    }
}

fn push_name(line: &mut List<u8>, text: &[u8], name: &[u8]) -> Result<(), Memory>
    ensures { OnOk result (line.new ≡ line.old ++ (text.now ++ name.now)) }
{
    line.extend_from_slice(text)?;
    line.extend_from_slice(name)
}

fn push_place(line: &mut List<u8>, kind: &[u8], at: u32) -> Result<(), Memory>
    ensures { OnOk result (line.new ≡ line.old ++ at_byte kind.now at) }
{
    line.extend_from_slice(kind)?;
    line.extend_from_slice(b" at byte ")?;
    push_decimal(line, i64::from(at))
}

/// Adds that a count is over its limit. `count` isn't below 0.
fn push_limit(line: &mut List<u8>, word: &[u8], count: i64, most: u32) -> Result<(), Memory>
    ensures { (n : ℕ) → count ≡ pos n →
        OnOk result (line.new ≡ line.old ++ over_limit word.now n most) }
{
    line.extend_from_slice(b"limit: ")?;
    line.extend_from_slice(word)?;
    line.extend_from_slice(b" ")?;
    push_decimal(line, count)?;
    line.extend_from_slice(b" > ")?;
    push_decimal(line, i64::from(most))
}

fn push_fault(line: &mut List<u8>, what: &[u8], number: u32, kind: &[u8]) -> Result<(), Memory>
    ensures { OnOk result (line.new ≡ line.old ++ numbered what.now number kind.now) }
{
    line.extend_from_slice(what)?;
    push_decimal(line, i64::from(number))?;
    line.extend_from_slice(b": ")?;
    line.extend_from_slice(kind)
}

impl From<Memory> for Refusal {
    ghost use Rattle.cov_station.specs.declared.refusal.Refusal.{Refusal as Why};

    ghost from_gives = { λ _ why. why ≡ Why.Memory };

    fn from(_memory: Memory) -> Refusal {
        Refusal::Memory
    }
}
