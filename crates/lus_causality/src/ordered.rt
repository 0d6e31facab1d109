ghost use Rattle.std.specs.Prelude.{◌≡◌, IfOk, IfErr};
ghost use Rattle.lus_causality.specs.Causality.{IsSequence, HasNoCycle};
ghost use Rattle.lus_causality.specs.Ordered.{IsCause};
ghost use Rattle.lus_causality.specs.Taking.{IsStuck};

use crate::cycle::least_on_cycle;
use crate::marks::first_unmarked;
use crate::sequence::{Taken, take_all};
use cov_base::{List, Memory};
use op_network::{EdgeId, Network};
use std::alloc::Global;
use std::marker::Model;

/// Why there is no order.
#[derive(Clone, Copy, Debug, PartialEq, Eq)]
pub enum OrderCause {
    /// The least edge that lies on a cycle of an instant.
    Cycle(EdgeId),
    /// There was not enough memory to order the edges.
    Memory,
}

impl From<Memory> for OrderCause {
    ghost use Rattle.lus_causality.specs.declared.ordered.OrderCause.{OrderCause};

    ghost from_gives = { λ _ cause. cause ≡ OrderCause.Memory };

    fn from(_memory: Memory) -> OrderCause {
        OrderCause::Memory
    }
}

/// The network, and why there is no order of it.
#[derive(Debug, Drop)]
pub struct OrderFault {
    /// The network, as it was handed in.
    pub network: Network,
    /// Why there is no order of it.
    pub cause: OrderCause,
}

/// A network without a cycle of an instant, with the order in which its edges can be computed.
#[derive(Debug, Drop)]
pub struct Ordered {
    network: Network,
    sequence: List<EdgeId>,
}

impl Model for Ordered {
    ghost use Rattle.lus_causality.specs.Ordered.{Causal};
    ghost use Rattle.lus_causality.specs.Causality.{IsSequence as IsSequenceOf};

    ghost Value = { Causal };

    ghost view = { λ it. record { network = it.network; sequence = it.sequence } };

    ghost invariant = { λ it. IsSequenceOf it.network.edges it.sequence };
}

impl Ordered {
    /// The network.
    pub fn network(&self) -> &Network
        ensures { result.now ≡ self.now.network }
    {
        &self.network
    }

    /// The edges, each behind its operands at the instant: so there is no cycle. In constant time.
    pub fn sequence(&self) -> &[EdgeId]
        ensures same { result.now ≡ self.now.sequence }
        ensures order { IsSequence self.now.network.edges self.now.sequence }
        ensures no_cycle { HasNoCycle self.now.network.edges }
    {
        self.sequence.as_slice()
    }
}

/// The order of all edges, or the least edge on a cycle.
#[tactic(auto, using(crate::proofs::Ending::is_full, crate::proofs::Ending::is_cyclic))]
fn sequence_of(alloc: Global, network: &Network) -> Result<List<EdgeId>, OrderCause>
    ensures ok { IfOk result (IsSequence network.now.edges) }
    ensures err { IfErr result (IsCause network.now.edges) }
{
    let taken = take_all(alloc, network)?;
    let _ = network.parts();
    match first_unmarked(taken.marks.as_slice()) {
        None => {
            let Taken { sequence, marks: _ } = taken;
            Ok(sequence)
        }
        Some(_) => Err(OrderCause::Cycle(least_on_cycle(alloc, network, &taken)?)),
    }
}

/// The network with the order of its edges: each time the least edge whose operands at the instant
/// are taken. Or the network, with the least edge on a cycle. In n log n for n edges.
pub fn order(alloc: Global, network: Network) -> Result<Ordered, OrderFault>
    ensures network { IfOk result (λ ordered. ordered.network ≡ network) }
    ensures sequence { IfOk result (λ ordered. IsSequence network.edges ordered.sequence) }
    ensures no_cycle { IfOk result (λ ordered. HasNoCycle network.edges) }
    ensures returned { IfErr result (λ fault. fault.network ≡ network) }
    ensures cause { IfErr result (λ fault. IsCause network.edges fault.cause) }
{
    match sequence_of(alloc, &network) {
        Ok(sequence) => Ok(Ordered { network, sequence }),
        Err(cause) => Err(OrderFault { network, cause }),
    }
}
