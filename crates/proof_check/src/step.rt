ghost use Rattle.std.specs.Prelude.{◌≡◌};

use cnf_form::Clause;
use cov_base::{List, Memory};

/// The steps of a proof, in order.
pub type Proof = List<ProofStep>;

/// One step of a proof.
#[derive(Debug, Drop)]
pub enum ProofStep {
    /// Adds a clause under an id, which is greater than all before. The hints are ids of clauses
    /// that are present: where all literals of the clause are false, each but the last has one
    /// literal that isn't false yet, which is so true, and the last has none.
    Put {
        id: u32,
        clause: Clause,
        hints: List<i64>,
    },
    /// Takes out the clauses of these ids.
    Delete {
        ids: List<u32>,
    },
}

/// Why a step is refused. The first of these that holds is told, in the order of the hints.
#[derive(Clone, Copy, Debug, PartialEq, Eq)]
pub enum StepKind {
    /// The id of an addition isn't greater than the ids of the formula's clauses and of all clauses
    /// added before.
    OldId,
    /// A hint or a deletion names an id under which no clause is present.
    UnknownId,
    /// A hint is below 0.
    RatHint,
    /// The clause of a hint before the last hasn't exactly one literal that isn't false.
    NotUnit,
    /// The one literal that isn't false is true already.
    Satisfied,
    /// The clause of the last hint has a literal that isn't false, or there is no hint.
    NotClosed,
    /// The steps end without an empty clause.
    NoEmpty,
}

/// Why a proof isn't accepted.
#[derive(Clone, Copy, Debug, PartialEq, Eq)]
pub enum VerifyFault {
    /// The first step that is refused, from 1. Where the steps end without an empty clause it is
    /// the one behind the last.
    Refused { step: u32, kind: StepKind },
    /// There was too little memory.
    Memory,
}

impl From<Memory> for VerifyFault {
    ghost use Rattle.proof_check.specs.declared.step.VerifyFault.TheVariants as fault;

    ghost from_gives = { λ _ e. e ≡ fault.Memory };

    fn from(_memory: Memory) -> VerifyFault {
        VerifyFault::Memory
    }
}
