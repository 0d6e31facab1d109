ghost use Rattle.std.specs.Prelude.{◌≡◌};

use crate::step::{StepKind, VerifyFault};
use cov_base::Memory;

/// Why a step isn't taken.
#[derive(Clone, Copy, Debug, PartialEq, Eq)]
pub(crate) enum StepFault {
    Kind(StepKind),
    Memory,
}

impl StepFault {
    ghost use Rattle.proof_check.specs.Table.{fault_at};

    /// The fault of a proof whose step of this number has this one.
    pub(crate) fn at_step(self, step: u32) -> VerifyFault
        ensures { result ≡ fault_at step self }
    {
        match self {
            StepFault::Kind(kind) => VerifyFault::Refused { step, kind },
            StepFault::Memory => VerifyFault::Memory,
        }
    }
}

impl From<StepKind> for StepFault {
    ghost use Rattle.proof_check.specs.declared.fault.StepFault.TheVariants as fault;

    ghost from_gives = { λ kind e. e ≡ fault.Kind kind };

    fn from(kind: StepKind) -> StepFault {
        StepFault::Kind(kind)
    }
}

impl From<Memory> for StepFault {
    ghost use Rattle.proof_check.specs.declared.fault.StepFault.TheVariants as fault;

    ghost from_gives = { λ _ e. e ≡ fault.Memory };

    fn from(_memory: Memory) -> StepFault {
        StepFault::Memory
    }
}
