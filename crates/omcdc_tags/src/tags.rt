ghost use Rattle.std.specs.Prelude.{◌≡◌, ◌<◌, ◌^◌, [], Some, length, slice_get, IfOk};
ghost use Rattle.op_network.specs.declared.edge.Parts.{Parts};
ghost use Rattle.dep_paths.specs.Duties.{Planned};
ghost use Rattle.omcdc_tags.specs.Tags.{IsMadeFor, IsMadeOver, StandsFor, StepsBy, TellsObserved, bit_of_tag};

use crate::ports::{add_conditions, no_places};
use crate::sets::TagSets;
use cov_base::{List, Memory};
use dep_paths::{Condition, Plan};
use lus_causality::Ordered;
use op_network::Frame;
use std::alloc::Global;
use std::marker::Model;

#[cfg(test)]
mod tests;

/// Which conditions of a plan, with which value, reach which edge of a network at the last of the
/// instants that were taken. For each edge there is a row of bits, two for each condition, and
/// besides the rows of the instant before, for `Pre`. No frame is kept.
#[derive(Drop)]
pub struct Tags {
    ports: List<Condition>,
    table: List<Option<u32>>,
    places: List<Option<u32>>,
    sets: TagSets,
}

impl Model for Tags {
    ghost use Rattle.std.specs.Prelude.{length};
    ghost use Rattle.omcdc_tags.specs.Ports.{ArePlaced};
    ghost use Rattle.omcdc_tags.specs.Rows.{AreSized, sets_of};
    ghost use Rattle.omcdc_tags.specs.Tags.{Kept};

    ghost Value = { Kept };

    ghost view = { λ it. record {
      ports = it.ports;
      places = it.places;
      sets = sets_of it.sets;
    } };

    ghost invariant = { λ it. AreSized (length it.sets.reached) it.ports it.table it.sets
        × ArePlaced it.ports it.places };
}

/// The bit of the port at a place with a value.
fn bit_of(place: u32, value: bool) -> u32
    requires { place < 2 ^ 31 }
    ensures { result ≡ bit_of_tag place value }
{
    if value { 2 * place } else { 2 * place + 1 }
}

/// The place of a condition among the ports, if it has one.
fn place_at(places: &[Option<u32>], condition: u32) -> Option<u32>
    requires { condition < length places.now }
    ensures { slice_get places.now condition ≡ Some result }
{
    places[condition as usize]
}

impl Tags {
    /// Before instant 0, for a network and these conditions.
    #[tactic(auto, using(crate::proofs::Standing::stands_for_none))]
    fn of_conditions(alloc: Global, net: &Ordered, conditions: &[Condition]) -> Result<Tags, Memory>
        ensures made { IfOk result (IsMadeOver net.now.network.edges conditions.now) }
        ensures stands { IfOk result (StandsFor net.now.network []) }
    {
        let network = net.network();
        let mut ports = List::new(alloc);
        let mut table = no_places(alloc, network)?;
        let places = add_conditions(alloc, network, conditions, &mut ports, &mut table)?;
        let sets = TagSets::new(alloc, network, ports.as_slice(), table.as_slice())?;
        Ok(Tags {
            ports,
            table,
            places,
            sets,
        })
    }

    /// Takes the next frame of a network that has as many edges as the one that it was made for.
    fn take(&mut self, net: &Ordered, frame: &Frame)
        requires { length self.old.sets.reached ≡ length net.now.network.edges }
        ensures stands { StepsBy net.now.network frame.now self.old self.new }
        ensures size { length self.new.sets.reached ≡ length net.now.network.edges }
        ensures ports { self.new.ports ≡ self.old.ports }
        ensures places { self.new.places ≡ self.old.places }
    {
        let ports = self.ports.as_slice();
        let table = self.table.as_slice();
        self.sets.step(net, ports, table, frame.values());
    }

    /// Before instant 0, for a plan and the network whose plan it is: it stands for no frames.
    ///
    /// Takes all memory that it needs, which is four bits for each edge and condition and 24 bytes
    /// for each edge; `Memory` comes for want of it alone.
    pub fn new(alloc: Global, net: &Ordered, plan: &Plan) -> Result<Tags, Memory>
        ensures made { IfOk result (IsMadeFor net.now.network plan.now) }
        ensures stands { IfOk result (StandsFor net.now.network []) }
    {
        Tags::of_conditions(alloc, net, plan.conditions())
    }

    /// Before instant 0 of other frames: it stands for none, and it is made for what it was made
    /// for. In constant time.
    #[tactic(auto, using(crate::proofs::Telling::made_again))]
    pub fn restart(&mut self)
        ensures stands { (net : Parts) → StandsFor net [] self.new }
        ensures made { (net : Parts) (plan : Planned) → IsMadeFor net plan self.old →
            IsMadeFor net plan self.new }
    {
        self.sets.restart();
    }

    /// Takes the next frame. What it stood for, it stands for with the frame at the end; a value
    /// that the frame lacks counts as false.
    ///
    /// For each port of each edge a row is joined to another, 64 bits at once, and a row has two
    /// bits for each condition. So the cost is about ports times conditions / 32. No memory is
    /// taken.
    #[tactic(auto, using(crate::proofs::Telling::still_made))]
    pub fn step(&mut self, net: &Ordered, plan: &Plan, frame: &Frame)
        requires { IsMadeFor net.now.network plan.now self.old }
        ensures stands { StepsBy net.now.network frame.now self.old self.new }
        ensures made { IsMadeFor net.now.network plan.now self.new }
    {
        self.take(net, frame);
    }

    /// Whether a condition, by its place among the plan's conditions from 0, is observed with a
    /// value at the last instant. Before the first frame the answer tells nothing. In constant
    /// time.
    #[tactic(auto, using(crate::proofs::Telling::bit_within, crate::proofs::Telling::tells_some, crate::proofs::Telling::tells_none))]
    pub fn observed(&self, condition: u32, value: bool) -> bool
        requires { condition < length self.now.places }
        ensures { TellsObserved self.now condition value result }
    {
        match place_at(self.places.as_slice(), condition) {
            Some(place) => self.sets.observed.get(bit_of(place, value)),
            None => false,
        }
    }
}
