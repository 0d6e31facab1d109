ghost use Rattle.std.specs.Prelude.{◌≡◌, ◌<◌, ◌≤◌, ◌+◌, length, IfOk, OnOk};
ghost use Rattle.op_network.specs.Operators.{operands_of};
ghost use Rattle.op_network.specs.Readers.{IsReaderList, IsReaderListBelow};

use crate::edge::{Edge, EdgeId};
use crate::limits::MOST_EDGES;
use crate::operands::{operand, ports};
use cov_base::{List, Memory};
use std::alloc::Global;

/// Adds a port if it reads the edge.
fn add_port(
    edges: &[Edge],
    e: EdgeId,
    reader: EdgeId,
    port: u8,
    found: &mut List<(EdgeId, u8)>,
) -> Result<(), Memory>
    requires edge { reader.0 < length edges.now }
    requires before { IsReaderListBelow edges.now e reader.0 port found.old }
    ensures { OnOk result (IsReaderListBelow edges.now e reader.0 (port + 1) found.new) }
{
    if operand(edges, reader, port) == Some(e) {
        found.add((reader, port))
    } else {
        Ok(())
    }
}

/// Adds the ports of an edge that read the edge.
fn add_ports(
    edges: &[Edge],
    e: EdgeId,
    reader: EdgeId,
    found: &mut List<(EdgeId, u8)>,
) -> Result<(), Memory>
    requires edge { reader.0 < length edges.now }
    requires before { IsReaderListBelow edges.now e reader.0 0 found.old }
    ensures { OnOk result (IsReaderListBelow edges.now e (reader.0 + 1) 0 found.new) }
{
    for port in 0..ports(edges, reader) {
        add_port(edges, e, reader, port, found)?;
    }
    Ok(())
}

/// The ports whose operand is the edge, by edge and port.
#[tactic(auto, using(crate::proofs::Found::below_nothing, crate::proofs::Found::below_all))]
pub(crate) fn readers(
    alloc: Global,
    edges: &[Edge],
    e: EdgeId,
) -> Result<List<(EdgeId, u8)>, Memory>
    requires { length edges.now ≤ MOST_EDGES }
    ensures { IfOk result (IsReaderList edges.now e) }
{
    let mut found = List::new(alloc);
    for reader in 0..edges.len() {
        add_ports(edges, e, EdgeId(reader as u32), &mut found)?;
    }
    Ok(found)
}
