ghost use Rattle.std.specs.Prelude.{◌≡◌, length, option_copied, IfOk};
ghost use Rattle.dep_paths.specs.Activation.{first_pin};
ghost use Rattle.activation.specs.Acts.{IsGoal, path_of as path_by, pin_of as pin_by};
ghost use Rattle.activation.specs.Growing.{AreGoalsBelow, TreeGrows};

use crate::growth::Growth;
use cov_base::{List, Memory};
use dep_paths::{Obligation, Path, Pin};
use std::alloc::Global;

/// The path of an obligation on a path.
fn path_of(paths: &[Path], duty: Obligation) -> Option<&Path>
    ensures { option_copied result ≡ path_by paths.now duty }
{
    match duty {
        Obligation::Bc { path } => paths.get(path as usize),
        Obligation::Ecc { path, .. } => paths.get(path as usize),
        Obligation::Mcc { path, .. } => paths.get(path as usize),
        Obligation::Omc { .. } => None,
    }
}

/// What an obligation on a path asks besides.
fn pin_of(duty: Obligation) -> Option<Pin>
    ensures { result ≡ pin_by duty }
{
    match duty {
        Obligation::Bc { .. } => None,
        Obligation::Ecc { value, .. } => value.map(|value| Pin { place: 0, value }),
        Obligation::Mcc { pin, .. } => pin,
        Obligation::Omc { .. } => None,
    }
}

/// The node of an obligation on a path. There is none where the plan lacks the path.
#[tactic(auto, using(crate::proofs::Trees::goal_at_node, crate::proofs::Trees::goal_nowhere, crate::proofs::Trees::tree_stays))]
fn goal_of(paths: &[Path], duty: Obligation, tree: &mut Growth) -> Result<Option<u32>, Memory>
    ensures goal { IfOk result (IsGoal tree.new (path_by paths.now duty) (pin_by duty)) }
    ensures stays { TreeGrows tree.old tree.new }
{
    match path_of(paths, duty) {
        Some(path) => Ok(Some(tree.node_of(path, pin_of(duty))?)),
        None => Ok(None),
    }
}

/// The node of each obligation.
#[tactic(auto, using(crate::proofs::Trees::no_goals, crate::proofs::Trees::more_goals))]
pub(crate) fn goals(
    alloc: Global,
    paths: &[Path],
    duties: &[Obligation],
    tree: &mut Growth,
) -> Result<List<Option<u32>>, Memory>
    ensures { IfOk result (AreGoalsBelow (length duties.now) tree.new paths.now duties.now) }
{
    let mut goals = List::new(alloc);
    for duty in duties {
        goals.add(goal_of(paths, *duty, tree)?)?;
    }
    Ok(goals)
}
