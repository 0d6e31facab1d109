use cov_base::Memory;

/// Why a network is not unrolled.
#[derive(Clone, Copy, Debug, PartialEq, Eq)]
pub enum UnrollFault {
    /// The size, which is over 2,000,000.
    TooLarge(u64),
    /// Want of memory.
    Memory,
}

impl From<Memory> for UnrollFault {
    ghost use Rattle.std.specs.Prelude.{◌≡◌};
    ghost use Rattle.unroll_cnf.specs.declared.fault.UnrollFault.{UnrollFault};

    ghost from_gives = { λ _ fault. fault ≡ UnrollFault.Memory };

    fn from(_memory: Memory) -> UnrollFault {
        UnrollFault::Memory
    }
}
