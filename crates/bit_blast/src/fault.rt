use cov_base::Memory;

/// Why a call makes no gate or word.
#[derive(Clone, Copy, Debug, PartialEq, Eq)]
pub enum BlastFault {
    /// The variables would pass 2,000,000.
    Full,
    /// Want of memory.
    Memory,
}

impl From<Memory> for BlastFault {
    ghost use Rattle.std.specs.Prelude.{◌≡◌};
    ghost use Rattle.bit_blast.specs.declared.fault.BlastFault.{BlastFault};

    ghost from_gives = { λ _ fault. fault ≡ BlastFault.Memory };

    fn from(_memory: Memory) -> BlastFault {
        BlastFault::Memory
    }
}
