ghost use Rattle.std.specs.Prelude.{◌≡◌, ◌<◌, ◌≤◌, OnOk, length};
ghost use Rattle.lus_causality.specs.Causality.{operands_now};
ghost use Rattle.lus_causality.specs.Search.{IsFurther};
ghost use Rattle.lus_causality.specs.Seen.{AreFollowedBelow, AreListed, IsClosed, IsListed, IsMarkedList};

use crate::operands::{count_now, operand_now};
use crate::sequence::{Taken, take};
use cov_base::Memory;
use op_network::{EdgeId, Network};

/// Adds an edge to those seen, if it isn't among them.
#[tactic(auto, using(crate::proofs::Seeing::listed_already, crate::proofs::Seeing::last_listed, crate::proofs::Searching::same_further, crate::proofs::Searching::one_further))]
fn see(network: &Network, o: EdgeId, seen: &mut Taken) -> Result<(), Memory>
    requires edge { o.0 < length network.now.edges }
    requires before { IsMarkedList network.now.edges seen.old }
    ensures list { OnOk result (IsMarkedList network.now.edges seen.new) }
    ensures further { OnOk result (IsFurther seen.old seen.new) }
    ensures listed { OnOk result (IsListed seen.new o) }
{
    if seen.marks.as_slice()[o.0 as usize] {
        return Ok(());
    }
    take(seen, o)?;
    Ok(())
}

/// Adds the operands of an edge at the instant.
#[tactic(auto, using(crate::proofs::Seeing::none_listed, crate::proofs::Seeing::one_listed, crate::proofs::Seeing::all_listed, crate::proofs::Searching::same_further, crate::proofs::Searching::further))]
fn see_operands(network: &Network, b: EdgeId, seen: &mut Taken) -> Result<(), Memory>
    requires edge { b.0 < length network.now.edges }
    requires before { IsMarkedList network.now.edges seen.old }
    ensures list { OnOk result (IsMarkedList network.now.edges seen.new) }
    ensures further { OnOk result (IsFurther seen.old seen.new) }
    ensures listed { OnOk result (AreListed (operands_now network.now.edges b) seen.new) }
{
    for port in 0..count_now(network, b) {
        see(network, operand_now(network, b, port), seen)?;
    }
    Ok(())
}

/// Adds all that leads to the edges seen, where the operands of the first ones are among them.
/// Linear in what is added.
pub(crate) fn see_all(network: &Network, first: usize, seen: &mut Taken) -> Result<(), Memory>
    requires before { IsMarkedList network.now.edges seen.old }
    requires within { first ≤ length seen.old.sequence }
    requires followed { AreFollowedBelow network.now.edges seen.old first }
    ensures list { OnOk result (IsMarkedList network.now.edges seen.new) }
    ensures closed { OnOk result (IsClosed network.now.edges seen.new) }
{
    let mut next = first;
    while next < seen.sequence.len() {
        let b = seen.sequence.as_slice()[next];
        see_operands(network, b, seen)?;
        next += 1;
    }
    Ok(())
}
