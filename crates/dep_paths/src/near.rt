ghost use Rattle.std.specs.Prelude.{◌≡◌, ◌<◌, ◌≤◌, ◌+◌, Some, length, replicate, IfOk};
ghost use Rattle.op_network.specs.declared.edge.EdgeId.{EdgeId as Id};
ghost use Rattle.op_network.specs.Operators.{operands_of};
ghost use Rattle.dep_paths.specs.Near.{near_at, IsClosed, IsSound, Knows, AllNear, NoneRose, CountsPorts, CountsEdges, IsTable};
ghost use Rattle.dep_paths.specs.Paths.{operand_of};

use crate::limits::FAR;
use crate::path::Step;
use cov_base::{List, Memory};
use op_network::{EdgeId, MOST_EDGES, Network};
use std::alloc::Global;

/// Takes the way through one step into account.
#[tactic(auto, using(crate::proofs::Table::sound_step))]
fn relax_step(net: &Network, step: Step, near: &mut [u32])
    requires edge { step.edge.0 < length net.now.edges }
    requires port { step.port < length (operands_of net.now.edges step.edge) }
    requires long { length near.old ≡ length net.now.edges }
    requires all { AllNear near.old }
    requires sound { IsSound net.now near.old }
    ensures all { AllNear near.new }
    ensures sound { IsSound net.now near.new }
    ensures lower { NoneRose near.old near.new }
    ensures done { (e : Id) → operand_of net.now.edges step ≡ Some e →
        near_at near.new e ≤ near_at near.old step.edge + 1 }
{
    let before = net.operand(step.edge, step.port);
    let way = near[step.edge.0 as usize];
    if way < FAR && way + 1 < near[before.0 as usize] {
        near[before.0 as usize] = way + 1;
    }
}

/// Takes the ways through the ports of an edge into account.
fn relax_edge(net: &Network, edge: EdgeId, near: &mut [u32])
    requires edge { edge.0 < length net.now.edges }
    requires long { length near.old ≡ length net.now.edges }
    requires all { AllNear near.old }
    requires sound { IsSound net.now near.old }
    ensures all { AllNear near.new }
    ensures sound { IsSound net.now near.new }
    ensures lower { NoneRose near.old near.new }
    ensures done { CountsPorts net.now.edges edge
        (length (operands_of net.now.edges edge)) near.old near.new }
{
    for port in 0..net.ports(edge) {
        relax_step(net, Step { edge, port }, near);
    }
}

/// Takes one step more into account.
fn relax_all(net: &Network, near: &mut [u32])
    requires few { length net.now.edges ≤ MOST_EDGES }
    requires long { length near.old ≡ length net.now.edges }
    requires all { AllNear near.old }
    requires sound { IsSound net.now near.old }
    ensures all { AllNear near.new }
    ensures sound { IsSound net.now near.new }
    ensures done { CountsEdges net.now.edges (length net.now.edges) near.old near.new }
    ensures lower { NoneRose near.old near.new }
{
    for edge in 0..net.parts().edges.len() {
        relax_edge(net, EdgeId(edge as u32), near);
    }
}

/// Marks the outputs.
fn mark(net: &Network, near: &mut [u32])
    requires closed { IsClosed net.now }
    requires fresh { near.old ≡ replicate (length net.now.edges) FAR }
    ensures all { AllNear near.new }
    ensures sound { IsSound net.now near.new }
    ensures knows { Knows 0 net.now near.new }
{
    for output in net.parts().outputs.as_slice() {
        near[output.0 as usize] = 0;
    }
}

/// Fills the table, for distances of at most so many steps.
fn fill(net: &Network, near: &mut [u32], rounds: u32)
    requires closed { IsClosed net.now }
    requires fresh { near.old ≡ replicate (length net.now.edges) FAR }
    ensures sound { IsSound net.now near.new }
    ensures knows { Knows rounds net.now near.new }
{
    mark(net, near);
    for _round in 0..rounds {
        relax_all(net, near);
    }
}

/// For each edge how many steps away an output is, where it is at most so many; `FAR` where there
/// is none. In time of the edges times the rounds.
#[tactic(auto, using(crate::proofs::Valid::closed_of))]
pub(crate) fn distances(alloc: Global, net: &Network, rounds: u32) -> Result<List<u32>, Memory>
    ensures table { IfOk result (λ near. IsTable rounds net.now near) }
    ensures closed { IsClosed net.now }
{
    match vec![in alloc; FAR; net.parts().edges.len()] {
        Ok(near) => {
            let mut near = List::from_vec(near);
            fill(net, near.items_mut(), rounds);
            Ok(near)
        }
        Err(_) => Err(Memory),
    }
}
