ghost use Rattle.std.specs.Prelude.{◌≡◌, ◌<◌, ◌+◌, ◌++◌, ◌∷◌, [], Some, None, length, replicate};
ghost use Rattle.std.specs.Prelude.{slice_set, OnOk, IfOk};
ghost use Rattle.lus_causality.specs.Causality.{operands_now};
ghost use Rattle.lus_causality.specs.Reads.{AreReads, AreReadsBelow, read_by};

use crate::operands::{count_now, operand_now};
use cov_base::{List, Memory};
use op_network::{EdgeId, Network};
use std::alloc::Global;

/// A read of an edge at the instant itself: the edge that reads it, and the place of another read
/// of the same edge.
#[derive(Clone, Copy, Debug)]
pub(crate) struct Read {
    pub(crate) reader: EdgeId,
    pub(crate) next: Option<usize>,
}

/// The reads of a network at the instant itself: for each edge the place of one, and from each the
/// next.
#[derive(Drop)]
pub(crate) struct Readers {
    pub(crate) first: List<Option<usize>>,
    pub(crate) reads: List<Read>,
}

/// Adds a read of an edge.
fn add_read(readers: &mut Readers, o: EdgeId, reader: EdgeId) -> Result<(), Memory>
    requires { o.0 < length readers.old.first }
    ensures reads { let read = read_by readers.old o reader in
        OnOk result (readers.new.reads ≡ readers.old.reads ++ read ∷ []) }
    ensures first { let place = Some (length readers.old.reads) in
        OnOk result (readers.new.first ≡ slice_set readers.old.first o.0 place) }
{
    let next = readers.first.as_slice()[o.0 as usize];
    let place = readers.reads.len();
    readers.reads.add(Read { reader, next })?;
    readers.first.items_mut()[o.0 as usize] = Some(place);
    Ok(())
}

/// Adds the reads of an edge's operands.
#[tactic(auto, using(crate::proofs::Chains::one_read, crate::proofs::Chains::next_edge))]
fn add_reads(network: &Network, reader: EdgeId, readers: &mut Readers) -> Result<(), Memory>
    requires edge { reader.0 < length network.now.edges }
    requires before { AreReadsBelow network.now.edges reader.0 0 readers.old }
    ensures { OnOk result (AreReadsBelow network.now.edges (reader.0 + 1) 0 readers.new) }
{
    for port in 0..count_now(network, reader) {
        add_read(readers, operand_now(network, reader, port), reader)?;
    }
    Ok(())
}

/// No place for each edge.
fn no_places(alloc: Global, count: usize) -> Result<List<Option<usize>>, Memory>
    ensures { IfOk result (λ places. places ≡ replicate count None) }
{
    let mut places = List::new(alloc);
    for _place in 0..count {
        places.add(None)?;
    }
    Ok(places)
}

/// The reads of a network at the instant itself. Linear.
#[tactic(auto, using(crate::proofs::Chains::no_reads, crate::proofs::Chains::all_reads))]
pub(crate) fn reads_of(alloc: Global, network: &Network) -> Result<Readers, Memory>
    ensures { IfOk result (AreReads network.now.edges) }
{
    let count = network.parts().edges.len();
    let mut readers = Readers {
        first: no_places(alloc, count)?,
        reads: List::new(alloc),
    };
    for reader in 0..count {
        add_reads(network, EdgeId(reader as u32), &mut readers)?;
    }
    Ok(readers)
}
