ghost use Rattle.std.specs.Prelude.{◌≡◌, ◌<◌, ◌≤◌, ◌+◌, ◌-◌, ◌++◌, ◌∷◌, [], Err, map, length, IfOk, OnOk};
ghost use Rattle.std.specs.List.{filter, All};
ghost use Rattle.op_network.specs.declared.edge.EdgeId.{EdgeId as Id};
ghost use Rattle.dep_paths.specs.Near.{IsClosed, IsTable};
ghost use Rattle.dep_paths.specs.Levels.{readers_of, is_near as is_near_of, start_path, first_level, longer_paths, level as level_of, complete_below, IsTooLong};
ghost use Rattle.dep_paths.specs.Paths.{CanBeCompleted};

use crate::limits::{MOST_LENGTH, MOST_PATHS};
use crate::longer::{Stop, add_complete, add_one, longer};
use crate::path::Path;
use crate::rows::readers;
use cov_base::List;
use op_network::{EdgeId, Network};
use std::alloc::Global;

/// Whether an output is at most so many steps away.
#[tactic(auto, unfolding(crate::specs::Levels::is_near))]
fn is_near(near: &[u32], room: u32, e: EdgeId) -> bool
    requires { e.0 < length near.now }
    ensures { result ≡ is_near_of near.now room e }
{
    near[e.0 as usize] <= room
}

/// Adds the path of one input, if an output is near.
#[tactic(auto, using(crate::proofs::Levels::start_added))]
fn add_start(
    alloc: Global,
    near: &[u32],
    room: u32,
    input: EdgeId,
    paths: &mut List<Path>,
) -> Result<(), Stop>
    requires edge { input.0 < length near.now }
    requires few { length paths.old ≤ MOST_PATHS }
    ensures ok { OnOk result (paths.new
        ≡ paths.old ++ map start_path (filter (is_near_of near.now room) (input ∷ []))) }
    ensures few { OnOk result (length paths.new ≤ MOST_PATHS) }
    ensures many { result ≡ Err Stop.TooMany → MOST_PATHS
        < length (paths.old ++ map start_path (filter (is_near_of near.now room) (input ∷ []))) }
{
    if !is_near(near, room, input) {
        return Ok(());
    }
    let path = Path {
        start: input,
        steps: List::new(alloc),
    };
    add_one(path, paths)
}

/// The inputs from which an output is near, each as a path.
#[tactic(auto, using(crate::proofs::Levels::starts_too_many))]
fn starts(alloc: Global, inputs: &[EdgeId], near: &[u32], room: u32) -> Result<List<Path>, Stop>
    requires { All (λ (e : Id). e.0 < length near.now) inputs.now }
    ensures ok { IfOk result (λ ps. ps ≡ first_level inputs.now near.now room) }
    ensures few { IfOk result (λ ps. length ps ≤ MOST_PATHS) }
    ensures many { result ≡ Err Stop.TooMany →
        MOST_PATHS < length (first_level inputs.now near.now room) }
{
    let mut paths = List::new(alloc);
    for input in inputs {
        add_start(alloc, near, room, *input, &mut paths)?;
    }
    Ok(paths)
}

/// The paths of one step more. Each of them can be completed within `n` edges.
#[tactic(auto, using(crate::proofs::Levels::level_next, crate::proofs::Levels::too_long_level))]
fn next_level(
    alloc: Global,
    net: &Network,
    near: &[u32],
    n: u32,
    steps: u32,
    level: List<Path>,
) -> Result<List<Path>, Stop>
    requires closed { IsClosed net.now }
    requires table { IsTable (n - 1) net.now near.now }
    requires small { n ≤ MOST_LENGTH }
    requires below { steps < n - 1 }
    requires level { level ≡ level_of net.now near.now n steps }
    ensures next { IfOk result (λ next. next ≡ level_of net.now near.now n (steps + 1)) }
    ensures completable { IfOk result (All (CanBeCompleted net.now n)) }
    ensures many { result ≡ Err Stop.TooMany → IsTooLong net.now near.now n }
{
    match readers(alloc, net, near, n - 2 - steps) {
        Ok(rows) => longer(alloc, level, rows.as_slice()),
        Err(_) => Err(Stop::Memory),
    }
}

/// The complete paths of at most `n` edges.
#[tactic(auto, using(crate::proofs::Levels::level_zero, crate::proofs::Levels::complete_one, crate::proofs::Levels::found_next, crate::proofs::Levels::too_long_start, crate::proofs::Levels::too_long_first, crate::proofs::Levels::too_long_found))]
pub(crate) fn levels(alloc: Global, net: &Network, near: &[u32], n: u32) -> Result<List<Path>, Stop>
    requires closed { IsClosed net.now }
    requires table { IsTable (n - 1) net.now near.now }
    requires positive { 1 ≤ n }
    requires small { n ≤ MOST_LENGTH }
    ensures ok { IfOk result (λ ps. ps ≡ complete_below net.now near.now n n) }
    ensures few { IfOk result (λ ps. length ps ≤ MOST_PATHS) }
    ensures many { result ≡ Err Stop.TooMany → IsTooLong net.now near.now n }
{
    let mut level = starts(alloc, net.parts().inputs.as_slice(), near, n - 1)?;
    let mut found = List::new(alloc);
    add_complete(alloc, level.as_slice(), near, &mut found)?;
    for steps in 0..n - 1 {
        level = next_level(alloc, net, near, n, steps, level)?;
        add_complete(alloc, level.as_slice(), near, &mut found)?;
    }
    Ok(found)
}
