ghost use Rattle.std.specs.Prelude.{List as Seq, ◌≡◌, ◌<◌, [], false, length, IfOk};
ghost use Rattle.op_network.specs.declared.edge.Edge.{Edge as EdgeValue};
ghost use Rattle.activation.specs.Acts.{IsMadeFor, StandsFor, StepsBy, TellsMet};
ghost use Rattle.activation.specs.Growing.{AreGoalsBelow};
ghost use Rattle.activation.specs.Tree.{IsShared};

use crate::flags::{goal_flag, set_flags, set_passages};
use crate::goals::goals;
use crate::growth::Growth;
use crate::passage::Passage;
use crate::tree::{Gate, Node};
use cov_base::{List, Memory};
use dep_paths::{Obligation, Path, Plan};
use op_network::{Frame, Network};
use std::alloc::Global;
use std::marker::Model;
use std::mem;

#[cfg(test)]
mod tests;

/// Which prefixes of a plan's paths are active, at the last of the instants that were taken. There
/// is one flag for each prefix with what is pinned on it, and the flags of the instant before, for
/// `Pre`. No frame is kept.
#[derive(Debug, Drop)]
pub struct Acts {
    gates: List<Gate>,
    nodes: List<Node>,
    goals: List<Option<u32>>,
    passages: List<Passage>,
    before: List<bool>,
    flags: List<bool>,
    begun: bool,
}

impl Model for Acts {
    ghost use Rattle.activation.specs.Acts.{Kept};
    ghost use Rattle.activation.specs.Passing.{IsSized};

    ghost Value = { Kept };

    ghost view = { λ it. record {
      tree = record { gates = it.gates; nodes = it.nodes };
      goals = it.goals;
      flags = it.flags;
      begun = it.begun;
    } };

    ghost invariant = { λ it. IsSized it.gates it.nodes it.passages it.before it.flags };
}

/// A list of so many times one item.
fn filled<T: Copy + Drop>(alloc: Global, item: T, count: usize) -> Result<List<T>, Memory>
    ensures { IfOk result (λ items. length items ≡ count) }
{
    let mut items = List::new(alloc);
    for _place in 0..count {
        items.add(item)?;
    }
    Ok(items)
}

/// A list of these items.
fn copied<T: Copy + Drop>(alloc: Global, items: &[T]) -> Result<List<T>, Memory>
    ensures { IfOk result (λ copy. copy ≡ items.now) }
{
    let mut copy = List::new(alloc);
    copy.extend_from_slice(items)?;
    Ok(copy)
}

impl Acts {
    /// Before instant 0, for these obligations on these paths.
    fn of_duties(alloc: Global, paths: &[Path], duties: &[Obligation]) -> Result<Acts, Memory>
        ensures goals { IfOk result (λ acts.
            AreGoalsBelow (length duties.now) acts.tree paths.now duties.now acts.goals) }
        ensures shared { IfOk result (λ acts. IsShared acts.tree) }
        ensures begun { IfOk result (λ acts. acts.begun ≡ false) }
    {
        let mut tree = Growth::new(alloc);
        let goals = goals(alloc, paths, duties, &mut tree)?;
        let gates = copied(alloc, tree.gates())?;
        let nodes = copied(alloc, tree.nodes())?;
        Ok(Acts {
            passages: filled(alloc, Passage::Shut, gates.len())?,
            before: filled(alloc, false, nodes.len())?,
            flags: filled(alloc, false, nodes.len())?,
            begun: false,
            gates,
            nodes,
            goals,
        })
    }

    /// Before instant 0, for a plan and the network whose plan it is: it stands for no frames.
    ///
    /// Takes all memory that it needs: 14 bytes for each different prefix of an obligation's path
    /// with what is pinned on it, 9 for each different last step of them, 8 for each obligation,
    /// and more while it is made. More than 4,294,967,295 prefixes count as want of memory. Linear
    /// in the lengths of the obligations' paths.
    #[tactic(auto, using(crate::proofs::Trees::made_for, crate::proofs::Actives::stands_for_none))]
    pub fn new(alloc: Global, net: &Network, plan: &Plan) -> Result<Acts, Memory>
        ensures made { IfOk result (IsMadeFor plan.now) }
        ensures shared { IfOk result (λ acts. IsShared acts.tree) }
        ensures stands { IfOk result (StandsFor net.now.edges []) }
    {
        Acts::of_duties(alloc, plan.paths(), plan.duties())
    }

    /// Before instant 0 again, for the same plan: it stands for no frames. In constant time.
    pub fn restart(&mut self)
        ensures stands { (edges : Seq EdgeValue) → StandsFor edges [] self.new }
        ensures tree { self.new.tree ≡ self.old.tree }
        ensures goals { self.new.goals ≡ self.old.goals }
    {
        self.begun = false;
    }

    /// Takes the next frame. What it stood for, over the operators of this network, it stands for
    /// with the frame at the end; a value that the frame lacks counts as false. Linear in the
    /// number of different prefixes with their pins; takes no memory.
    #[tactic(auto, using(crate::proofs::Places::same_gates))]
    pub fn step(&mut self, net: &Network, plan: &Plan, frame: &Frame)
        ensures stands { StepsBy net.now.edges frame.now self.old self.new }
        ensures made { IsMadeFor plan.now self.old → IsMadeFor plan.now self.new }
        ensures tree { self.new.tree ≡ self.old.tree }
        ensures goals { self.new.goals ≡ self.old.goals }
    {
        mem::swap(&mut self.flags, &mut self.before);
        let edges = net.parts().edges.as_slice();
        let values = frame.values();
        set_passages(
            edges,
            values,
            self.begun,
            self.gates.as_slice(),
            self.passages.items_mut(),
        );
        set_flags(
            self.nodes.as_slice(),
            self.passages.as_slice(),
            self.before.as_slice(),
            self.flags.items_mut(),
        );
        self.begun = true;
    }

    /// Whether an obligation on a path, by its place among the plan's obligations from 0, is met at
    /// the last instant. Before the first frame, and for an obligation on a condition, the answer
    /// tells nothing. In constant time.
    #[tactic(auto, using(crate::proofs::Answering::tells_met))]
    pub fn active(&self, o: u32) -> bool
        requires place { o < length self.now.goals }
        ensures met { TellsMet self.now o result }
    {
        goal_flag(self.flags.as_slice(), self.goals.as_slice()[o as usize])
    }
}
