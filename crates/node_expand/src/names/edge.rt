ghost use Rattle.std.specs.Prelude.{◌≡◌, ◌++◌, codes, decimal, IfOk};
ghost use Rattle.node_expand.specs.Instances as spec;

use cov_base::{Memory, Text};
use std::alloc::Global;

/// A text behind another one.
pub(crate) fn joined(alloc: Global, front: &[u8], back: &[u8]) -> Result<Text, Memory>
    ensures { IfOk result (λ text. text ≡ front.now ++ back.now) }
{
    let mut bytes = Vec::from_slice(alloc, front)?;
    bytes.extend_from_slice(back)?;
    Text::from_bytes(alloc, &bytes)
}

/// A text with `#` and a number behind it.
fn numbered(alloc: Global, root: &[u8], k: usize) -> Result<Text, Memory>
    ensures { IfOk result (λ text. text ≡ root.now ++ codes "#" ++ decimal k) }
{
    let number = format!(in alloc; "{k}")?;
    let front = joined(alloc, root, b"#")?;
    joined(alloc, front.bytes(), number.as_bytes())
}

/// The name of the `k`-th edge of an item whose first root has this name: the name itself for the
/// root, 0, and else the name, `#` and the number.
#[tactic(auto, using(crate::proofs::EdgeNames::name_behind))]
pub(crate) fn edge_name(alloc: Global, root: &[u8], k: usize) -> Result<Text, Memory>
    ensures { IfOk result (λ text. text ≡ spec.edge_name root.now k) }
{
    if k == 0 {
        return Text::from_bytes(alloc, root);
    }
    numbered(alloc, root, k)
}

/// The name of the root of the `k`-th assertion of a node.
pub(crate) fn assertion_name(alloc: Global, k: usize) -> Result<Text, Memory>
    ensures { IfOk result (λ text. text ≡ codes "assert#" ++ decimal k) }
{
    let name = format!(in alloc; "assert#{k}")?;
    Text::from_bytes(alloc, name.as_bytes())
}

/// The prefix of the names of the instance of the `j`-th call under a root, of this node.
pub(crate) fn instance_prefix(
    alloc: Global,
    root: &[u8],
    node: &[u8],
    j: usize,
) -> Result<Text, Memory>
    ensures { IfOk result (λ text. text ≡ spec.instance_prefix root.now node.now j) }
{
    let number = format!(in alloc; "#{j}.")?;
    let behind = joined(alloc, node, number.as_bytes())?;
    let front = joined(alloc, root, b"/")?;
    joined(alloc, front.bytes(), behind.bytes())
}
