ghost use Rattle.std.specs.Prelude.{◌≡◌, ◌<◌, OnOk, IfOk, false, length, slice_index_or};
ghost use Rattle.lus_causality.specs.Seen.{AreOff, IsClosed, IsMarkedList};

use crate::finishing::finishing_order;
use crate::marks::{are_marked, no_marks, set_mark};
use crate::readers::reads_of;
use crate::seen::see_all;
use crate::sequence::{Taken, take};
use cov_base::{List, Memory};
use op_network::{EdgeId, Network};
use std::alloc::Global;

/// Marks an edge that wasn't seen, if its operands at the instant were: then it lies on no cycle.
fn rule_out(network: &Network, e: EdgeId, seen: &Taken, off: &mut List<bool>)
    requires edge { e.0 < length network.now.edges }
    requires unseen { slice_index_or seen.now.marks e.0 false ≡ false }
    requires list { IsMarkedList network.now.edges seen.now }
    requires closed { IsClosed network.now.edges seen.now }
    requires before { AreOff network.now.edges off.old }
    ensures { AreOff network.now.edges off.new }
{
    if !are_marked(network, seen.marks.as_slice(), e) {
        return;
    }
    set_mark(off, e);
}

/// Sees an edge that wasn't seen, with all that leads to it.
#[tactic(auto, using(crate::proofs::Seeing::still_followed))]
fn see_edge(
    network: &Network,
    e: EdgeId,
    seen: &mut Taken,
    off: &mut List<bool>,
) -> Result<(), Memory>
    requires list { IsMarkedList network.now.edges seen.old }
    requires closed { IsClosed network.now.edges seen.old }
    requires off { AreOff network.now.edges off.old }
    ensures list { OnOk result (IsMarkedList network.now.edges seen.new) }
    ensures closed { OnOk result (IsClosed network.now.edges seen.new) }
    ensures off { OnOk result (AreOff network.now.edges off.new) }
{
    if (e.0 as usize) >= seen.marks.len() {
        return Ok(());
    }
    if seen.marks.as_slice()[e.0 as usize] {
        return Ok(());
    }
    rule_out(network, e, seen, off);
    let first = seen.sequence.len();
    take(seen, e)?;
    see_all(network, first, seen)?;
    Ok(())
}

/// Marks of edges that lie on no cycle: of all that lie on none, which no contract says. By one
/// walk from edges to their readers, and one back to the operands, from the edge that the first
/// finished with last. Linear.
#[tactic(auto, using(crate::proofs::Seeing::none_seen, crate::proofs::Seeing::none_off))]
pub(crate) fn off_cycles(alloc: Global, network: &Network) -> Result<List<bool>, Memory>
    ensures { IfOk result (AreOff network.now.edges) }
{
    let count = network.parts().edges.len();
    let order = finishing_order(alloc, &reads_of(alloc, network)?, count)?;
    let mut off = no_marks(alloc, count)?;
    let mut seen = Taken {
        sequence: List::new(alloc),
        marks: no_marks(alloc, count)?,
    };
    for place in 0..order.len() {
        let e = order.as_slice()[order.len() - 1 - place];
        see_edge(network, e, &mut seen, &mut off)?;
    }
    Ok(off)
}
