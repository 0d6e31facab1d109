ghost use Rattle.std.specs.Prelude.{◌≡◌, ◌≢◌, ◌<◌, [], AllPairs, Some, length, slice_get, IfOk};
ghost use Rattle.std.specs.Option.{ForSome};
ghost use Rattle.activation.specs.Growing.{AddsOnce, TreeGrows};
ghost use Rattle.activation.specs.Tree.{HasNode, IsNodeOf, pin_at as pin_of_place};

use crate::tree::{Gate, Node};
use cov_base::Memory;
use dep_paths::{Path, Pin};
use indexmap::IndexSet;
use std::alloc::Global;
use std::marker::Model;

/// A tree of prefixes while it is made. A gate and a node are found by their hashes, so that each
/// stands once.
#[derive(Drop)]
pub(crate) struct Growth {
    gates: IndexSet<Gate>,
    nodes: IndexSet<Node>,
}

impl Model for Growth {
    ghost use Rattle.activation.specs.Growing.{IsGrown};
    ghost use Rattle.activation.specs.Tree.{Tree};

    ghost Value = { Tree };

    ghost view = { λ it. record { gates = it.gates.keys; nodes = it.nodes.keys } };

    ghost invariant = { λ it. IsGrown it.gates.keys it.nodes.keys };
}

/// The place of a gate, which is added where it is missing.
#[tactic(auto, using(crate::proofs::Sharing::gates_apart))]
fn place_of_gate(gates: &mut IndexSet<Gate>, gate: Gate) -> Result<u32, Memory>
    ensures there { IfOk result (λ place. slice_get gates.new.keys place ≡ Some gate) }
    ensures once { AddsOnce gates.old.keys gates.new.keys gate }
    ensures distinct { AllPairs (λ a b. a ≢ b) gates.new.keys }
{
    match gates.insert_full(gate) {
        Ok((place, _)) => u32::try_from(place).or(Err(Memory)),
        Err(_) => Err(Memory),
    }
}

/// The place of a node, which is added where it is missing.
#[tactic(auto, using(crate::proofs::Sharing::nodes_apart))]
fn place_of_node(nodes: &mut IndexSet<Node>, node: Node) -> Result<u32, Memory>
    ensures there { IfOk result (λ place. slice_get nodes.new.keys place ≡ Some node) }
    ensures once { AddsOnce nodes.old.keys nodes.new.keys node }
    ensures distinct { AllPairs (λ a b. a ≢ b) nodes.new.keys }
{
    match nodes.insert_full(node) {
        Ok((place, _)) => u32::try_from(place).or(Err(Memory)),
        Err(_) => Err(Memory),
    }
}

/// What a pin asks of the edge at a place of a path.
fn pin_at(pin: Option<Pin>, place: usize) -> Option<bool>
    ensures { result ≡ pin_of_place pin place }
{
    match pin {
        Some(pin) => if place == pin.place as usize {
            Some(pin.value)
        } else {
            None
        },
        None => None,
    }
}

impl Growth {
    /// The tree without a node.
    pub(crate) fn new(alloc: Global) -> Growth
        ensures gates { result.gates ≡ [] }
        ensures nodes { result.nodes ≡ [] }
    {
        Growth {
            gates: IndexSet::new(alloc),
            nodes: IndexSet::new(alloc),
        }
    }

    /// The node with a gate behind a node, or as the first of a path. It is added where it is
    /// missing. Constant time over many calls.
    #[tactic(auto, using(crate::proofs::Trees::more_in_place, crate::proofs::Trees::once_tree))]
    fn node_behind(&mut self, gate: Gate, parent: Option<u32>) -> Result<u32, Memory>
        requires parent { ForSome parent (λ parent. parent < length self.old.nodes) }
        ensures there { IfOk result (λ node. HasNode self.new node gate parent) }
        ensures stays { TreeGrows self.old self.new }
    {
        let gate = place_of_gate(&mut self.gates, gate)?;
        place_of_node(&mut self.nodes, Node { gate, parent })
    }

    /// The node of a path, with what the pin asks. Those that are missing are added, one for each
    /// edge. Linear in the path's length, over many calls.
    #[tactic(auto, using(crate::proofs::Trees::node_within, crate::proofs::Trees::next_node, crate::proofs::Trees::node_kept, crate::proofs::Trees::tree_grows_on))]
    pub(crate) fn node_of(&mut self, path: &Path, pin: Option<Pin>) -> Result<u32, Memory>
        ensures node { IfOk result (IsNodeOf self.new path.now pin (length path.now.steps)) }
        ensures stays { TreeGrows self.old self.new }
    {
        let start = Gate {
            edge: path.start.0,
            port: None,
            pin: pin_at(pin, 0),
        };
        let mut node = self.node_behind(start, None)?;
        for (k, step) in path.steps.as_slice().iter().enumerate() {
            let gate = Gate {
                edge: step.edge.0,
                port: Some(step.port),
                pin: pin_at(pin, k + 1),
            };
            node = self.node_behind(gate, Some(node))?;
        }
        Ok(node)
    }

    /// The gates, each once.
    pub(crate) fn gates(&self) -> &[Gate]
        ensures { result.now ≡ self.now.gates }
    {
        self.gates.as_slice()
    }

    /// The nodes, each once and behind its parent.
    pub(crate) fn nodes(&self) -> &[Node]
        ensures { result.now ≡ self.now.nodes }
    {
        self.nodes.as_slice()
    }
}
