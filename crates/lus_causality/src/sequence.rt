ghost use Rattle.std.specs.Prelude.{◌≡◌, ◌<◌, [], ◌∷◌, ◌++◌, true, length, replicate, slice_set, false, OnOk, IfOk};
ghost use Rattle.lus_causality.specs.Reads.{AreReads};
ghost use Rattle.lus_causality.specs.Taking.{IsOffered, IsTaking, IsTakingBut, IsStuck, none_taken};

use crate::marks::{is_free, no_marks, set_mark};
use crate::readers::{Readers, reads_of};
use crate::ready::Ready;
use cov_base::{List, Memory};
use op_network::{EdgeId, Network};
use std::alloc::Global;

/// The edges that are taken, in order and as marks.
#[derive(Drop)]
pub(crate) struct Taken {
    pub(crate) sequence: List<EdgeId>,
    pub(crate) marks: List<bool>,
}

/// Makes an edge ready if it isn't taken and its operands at the instant are.
#[tactic(auto, using(crate::proofs::Growing::offered, crate::proofs::Growing::passed_over))]
fn offer(network: &Network, marks: &[bool], e: EdgeId, ready: &mut Ready) -> Result<(), Memory>
    requires edge { e.0 < length network.now.edges }
    requires size { length marks.now ≡ length network.now.edges }
    ensures { OnOk result (IsOffered network.now.edges marks.now ready.old e ready.new) }
{
    if is_free(network, marks, e) {
        ready.insert(e)?;
    }
    Ok(())
}

/// Makes those edges ready that read none at the instant.
#[tactic(auto, using(crate::proofs::Growing::ready_none, crate::proofs::Growing::ready_one, crate::proofs::Growing::ready_all))]
fn ready_at_first(network: &Network, marks: &[bool], ready: &mut Ready) -> Result<(), Memory>
    requires marks { marks.now ≡ replicate (length network.now.edges) false }
    requires ready { ready.old ≡ [] }
    ensures { OnOk result (IsTaking network.now.edges (none_taken marks.now) ready.new) }
{
    for e in 0..network.parts().edges.len() {
        offer(network, marks, EdgeId(e as u32), ready)?;
    }
    Ok(())
}

/// Makes those readers of a taken edge ready whose operands are taken.
#[tactic(auto, using(crate::proofs::Growing::start_readying, crate::proofs::Growing::next_readying, crate::proofs::Growing::end_readying, crate::proofs::Growing::left_less))]
fn ready_readers(
    network: &Network,
    readers: &Readers,
    taken: &Taken,
    e: EdgeId,
    ready: &mut Ready,
) -> Result<(), Memory>
    requires edge { e.0 < length network.now.edges }
    requires reads { AreReads network.now.edges readers.now }
    requires taken { IsTakingBut network.now.edges taken.now e ready.old }
    ensures { OnOk result (IsTaking network.now.edges taken.now ready.new) }
{
    let mut at = readers.first.as_slice()[e.0 as usize];
    while let Some(place) = at {
        let read = readers.reads.as_slice()[place];
        offer(network, taken.marks.as_slice(), read.reader, ready)?;
        at = read.next;
    }
    Ok(())
}

/// Takes an edge.
pub(crate) fn take(taken: &mut Taken, e: EdgeId) -> Result<(), Memory>
    requires { e.0 < length taken.old.marks }
    ensures sequence { OnOk result (taken.new.sequence ≡ taken.old.sequence ++ e ∷ []) }
    ensures marks { OnOk result (taken.new.marks ≡ slice_set taken.old.marks e.0 true) }
{
    taken.sequence.add(e)?;
    set_mark(&mut taken.marks, e);
    Ok(())
}

/// Takes edges, each time the least whose operands at the instant are taken, until there is none.
/// In n log n for n edges.
#[tactic(auto, using(crate::proofs::Growing::took, crate::proofs::Growing::stuck, crate::proofs::Growing::taken_few))]
pub(crate) fn take_all(alloc: Global, network: &Network) -> Result<Taken, Memory>
    ensures { IfOk result (IsStuck network.now.edges) }
{
    let readers = reads_of(alloc, network)?;
    let marks = no_marks(alloc, network.parts().edges.len())?;
    let mut ready = Ready::new(alloc);
    ready_at_first(network, marks.as_slice(), &mut ready)?;
    let mut taken = Taken {
        sequence: List::new(alloc),
        marks,
    };
    while let Some(e) = ready.take_least() {
        take(&mut taken, e)?;
        ready_readers(network, &readers, &taken, e, &mut ready)?;
    }
    Ok(taken)
}
