ghost use Rattle.std.specs.Prelude.{◌≡◌};

use cov_base::Memory;

/// Why a program isn't expanded.
#[derive(Clone, Copy, Debug, PartialEq, Eq)]
pub enum ExpandFault {
    /// Calls are nested more than `MOST_DEPTH` deep, the main node counted as 1.
    Depth,
    /// The network has more than `op_network::MOST_EDGES` edges.
    Edges,
    /// There was too little memory.
    Memory,
}

impl From<Memory> for ExpandFault {
    ghost use Rattle.node_expand.specs.declared.fault.ExpandFault.{ExpandFault};

    ghost from_gives = { λ _ fault. fault ≡ ExpandFault.Memory };

    fn from(_memory: Memory) -> ExpandFault {
        ExpandFault::Memory
    }
}
