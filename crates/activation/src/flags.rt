ghost use Rattle.std.specs.Prelude.{◌≡◌, ◌<◌, length};
ghost use Rattle.std.specs.Option.{ForSome};
ghost use Rattle.activation.specs.Passing as spec;

use crate::passage::{Passage, passage_of};
use crate::tree::{Gate, Node};
use op_network::{Edge, Value};

/// Puts the passage of each gate at an instant with this frame. Linear in the number of gates.
#[tactic(auto, using(crate::proofs::Places::more_passages, crate::proofs::Places::all_passages))]
pub(crate) fn set_passages(
    edges: &[Edge],
    frame: &[Value],
    begun: bool,
    gates: &[Gate],
    passages: &mut [Passage],
)
    requires { length passages.old ≡ length gates.now }
    ensures { spec.ArePassages edges.now frame.now begun gates.now passages.new }
{
    for i in 0..gates.len() {
        passages[i] = passage_of(edges, frame, begun, gates[i]);
    }
}

/// The flag of a node's parent; true where it has none. In constant time.
fn parent_flag(flags: &[bool], parent: Option<u32>) -> bool
    requires { ForSome parent (λ parent. parent < length flags.now) }
    ensures { result ≡ spec.parent_flag flags.now parent }
{
    match parent {
        Some(parent) => flags[parent as usize],
        None => true,
    }
}

/// The flag of a node, from the passage of its gate and the flags of its parent. In constant time.
fn flag_of(passages: &[Passage], before: &[bool], flags: &[bool], node: Node) -> bool
    requires gate { node.gate < length passages.now }
    requires before { ForSome node.parent (λ parent. parent < length before.now) }
    requires parent { ForSome node.parent (λ parent. parent < length flags.now) }
    ensures { result ≡ spec.flag_of passages.now before.now flags.now node }
{
    match passages[node.gate as usize] {
        Passage::Shut => false,
        Passage::Now => parent_flag(flags, node.parent),
        Passage::Earlier => parent_flag(before, node.parent),
    }
}

/// Puts the flag of each node, parents first. Linear in the number of nodes.
#[tactic(auto, using(crate::proofs::Places::more_flags, crate::proofs::Places::all_flags))]
pub(crate) fn set_flags(nodes: &[Node], passages: &[Passage], before: &[bool], flags: &mut [bool])
    requires place { spec.AreInPlace (length passages.now) nodes.now }
    requires before { length before.now ≡ length nodes.now }
    requires size { length flags.old ≡ length nodes.now }
    ensures { spec.AreFlags nodes.now passages.now before.now flags.new }
{
    for i in 0..nodes.len() {
        flags[i] = flag_of(passages, before, flags, nodes[i]);
    }
}

/// The flag of an obligation's node; false where it has none. In constant time.
pub(crate) fn goal_flag(flags: &[bool], goal: Option<u32>) -> bool
    ensures { result ≡ spec.goal_flag flags.now goal }
{
    match goal {
        Some(node) => flags.get(node as usize).copied().unwrap_or(false),
        None => false,
    }
}
