ghost use Rattle.std.specs.Prelude.{◌≡◌, ◌<◌, ◌≤◌, [], ◌∷◌, length, replicate, IfOk, OnOk};
ghost use Rattle.dep_paths.specs.declared.path.Step.{Step as StepValue};
ghost use Rattle.op_network.specs.Operators.{operands_of};
ghost use Rattle.dep_paths.specs.Levels.{steps_into, AddsReaders, AreReaderRows};

use crate::path::Step;
use cov_base::{List, Memory};
use op_network::{EdgeId, MOST_EDGES, Network};
use std::alloc::Global;

/// Adds a step to the row of the edge that it reads, if an output is near from it.
fn add_reader(
    net: &Network,
    near: &[u32],
    room: u32,
    step: Step,
    rows: &mut [List<Step>],
) -> Result<(), Memory>
    requires edge { step.edge.0 < length net.now.edges }
    requires port { step.port < length (operands_of net.now.edges step.edge) }
    requires near { length near.now ≡ length net.now.edges }
    requires rows { length rows.old ≡ length net.now.edges }
    ensures { OnOk result (AddsReaders net.now.edges near.now room (step ∷ []) rows.old rows.new) }
{
    if near[step.edge.0 as usize] > room {
        return Ok(());
    }
    let before = net.operand(step.edge, step.port);
    let row = &mut rows[before.0 as usize];
    match row.push(step) {
        Ok(()) => Ok(()),
        Err(_) => Err(Memory),
    }
}

/// Adds the steps into an edge.
fn add_readers(
    net: &Network,
    near: &[u32],
    room: u32,
    edge: EdgeId,
    rows: &mut [List<Step>],
) -> Result<(), Memory>
    requires edge { edge.0 < length net.now.edges }
    requires near { length near.now ≡ length net.now.edges }
    requires rows { length rows.old ≡ length net.now.edges }
    ensures { OnOk result (AddsReaders net.now.edges near.now room
        (steps_into net.now.edges edge.0) rows.old rows.new) }
{
    for port in 0..net.ports(edge) {
        add_reader(net, near, room, Step { edge, port }, rows)?;
    }
    Ok(())
}

/// Adds the steps into all edges.
fn add_all_readers(
    net: &Network,
    near: &[u32],
    room: u32,
    rows: &mut [List<Step>],
) -> Result<(), Memory>
    requires few { length net.now.edges ≤ MOST_EDGES }
    requires near { length near.now ≡ length net.now.edges }
    requires rows { rows.old ≡ replicate (length net.now.edges) [] }
    ensures { OnOk result (AreReaderRows net.now.edges near.now room rows.new) }
{
    for edge in 0..net.parts().edges.len() {
        add_readers(net, near, room, EdgeId(edge as u32), rows)?;
    }
    Ok(())
}

fn empty_rows(alloc: Global, len: usize) -> Result<List<List<Step>>, Memory>
    ensures { IfOk result (λ rows. rows ≡ replicate len []) }
{
    let mut rows = List::new(alloc);
    for _row in 0..len {
        match rows.push(List::new(alloc)) {
            Ok(()) => {}
            Err(_) => return Err(Memory),
        }
    }
    Ok(rows)
}

/// For each edge the steps that read it and from which an output is at most so many steps away.
/// Linear in the number of edges.
pub(crate) fn readers(
    alloc: Global,
    net: &Network,
    near: &[u32],
    room: u32,
) -> Result<List<List<Step>>, Memory>
    requires few { length net.now.edges ≤ MOST_EDGES }
    requires near { length near.now ≡ length net.now.edges }
    ensures { IfOk result (λ rows. AreReaderRows net.now.edges near.now room rows) }
{
    let mut rows = empty_rows(alloc, net.parts().edges.len())?;
    add_all_readers(net, near, room, rows.items_mut())?;
    Ok(rows)
}
