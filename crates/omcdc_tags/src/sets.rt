ghost use Rattle.std.specs.Prelude.{◌≡◌, ◌<◌, ℕ, List as Seq, Option, false, length, replicate, IfOk};
ghost use Rattle.dep_paths.specs.declared.path.Condition.{Condition as Port};
ghost use Rattle.std.specs.List.{All};
ghost use Rattle.op_network.specs.declared.edge.EdgeId.{EdgeId as Id};
ghost use Rattle.omcdc_tags.specs.Ports.{IsTable};
ghost use Rattle.omcdc_tags.specs.Rows.{AreSized, sets_of};
ghost use Rattle.omcdc_tags.specs.Tags.{SetsStepBy};

use crate::coming::fill;
use crate::outputs::join_outputs;
use crate::ports::count;
use crate::values::put_values;
use cov_base::{BitRow, List, Memory};
use dep_paths::Condition;
use lus_causality::Ordered;
use op_network::{EdgeId, Network, Value};
use std::alloc::Global;
use std::mem;

/// For each edge the set of the ports with values that reach it at the last instant, as a row of
/// bits, and those of the instant before; for the outputs their union; for each port the value of
/// its operand at both instants. `work` is a row to make the next one in.
#[derive(Drop)]
pub(crate) struct TagSets {
    pub(crate) reached: List<BitRow>,
    before: List<BitRow>,
    pub(crate) observed: BitRow,
    values: BitRow,
    earlier: BitRow,
    work: BitRow,
    begun: bool,
}

/// So many rows of so many bits, all false.
fn rows(alloc: Global, count: usize, bits: u32) -> Result<List<BitRow>, Memory>
    ensures { IfOk result (λ rows. rows ≡ replicate count (replicate bits false)) }
{
    let mut rows = List::new(alloc);
    for _place in 0..count {
        rows.add(BitRow::new(alloc, bits)?)?;
    }
    Ok(rows)
}

/// The outputs of a network, which are edges.
fn outputs_of(net: &Ordered) -> &[EdgeId]
    ensures same { result.now ≡ net.now.network.outputs }
    ensures within { All (λ (e : Id). e.0 < length net.now.network.edges) result.now }
{
    net.network().parts().outputs.as_slice()
}

impl TagSets {
    /// Before instant 0. Takes four bits for each edge and port.
    #[tactic(auto, using(crate::proofs::Sizes::are_sized))]
    pub(crate) fn new(
        alloc: Global,
        net: &Network,
        ports: &[Condition],
        table: &[Option<u32>],
    ) -> Result<TagSets, Memory>
        requires { IsTable (length net.now.edges) ports.now table.now }
        ensures sized { IfOk result (AreSized (length net.now.edges) ports.now table.now) }
        ensures begun { IfOk result (λ sets. sets.begun ≡ false) }
    {
        let edges = net.parts().edges.len();
        let bits = 2 * count(net, ports, table);
        Ok(TagSets {
            reached: rows(alloc, edges, bits)?,
            before: rows(alloc, edges, bits)?,
            observed: BitRow::new(alloc, bits)?,
            values: BitRow::new(alloc, bits)?,
            earlier: BitRow::new(alloc, bits)?,
            work: BitRow::new(alloc, bits)?,
            begun: false,
        })
    }

    /// Before instant 0 of other frames.
    pub(crate) fn restart(&mut self)
        ensures reached { self.new.reached ≡ self.old.reached }
        ensures begun { self.new.begun ≡ false }
        ensures sized { (edges : ℕ) (ports : Seq Port) (table : Seq (Option ℕ)) →
            AreSized edges ports table self.old → AreSized edges ports table self.new }
    {
        self.begun = false;
    }

    /// Takes the next frame, and no memory.
    pub(crate) fn step(
        &mut self,
        net: &Ordered,
        ports: &[Condition],
        table: &[Option<u32>],
        frame: &[Value],
    )
        requires { AreSized (length net.now.network.edges) ports.now table.now self.old }
        ensures sized { AreSized (length net.now.network.edges) ports.now table.now self.new }
        ensures stands { SetsStepBy net.now.network ports.now frame.now
            (sets_of self.old) (sets_of self.new) }
    {
        mem::swap(&mut self.reached, &mut self.before);
        mem::swap(&mut self.values, &mut self.earlier);
        put_values(net.network(), ports, frame, &mut self.values);
        fill(
            net,
            table,
            frame,
            self.begun,
            self.before.as_slice(),
            &self.earlier,
            &mut self.reached,
            &self.values,
            &mut self.work,
        );
        join_outputs(outputs_of(net), self.reached.as_slice(), &mut self.observed);
        self.begun = true;
    }
}
