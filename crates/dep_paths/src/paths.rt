ghost use Rattle.std.specs.Prelude.{◌≡◌, ◌≤◌, ◌⊎◌, Err, length, IfOk};
ghost use Rattle.dep_paths.specs.Paths.{IsListOf, MoreThan};

use crate::limits::{MOST_LENGTH, MOST_PATHS};
use crate::longer::Stop;
use crate::near::distances;
use crate::path::{Path, PlanFault};
use crate::walk::levels;
use cov_base::List;
use op_network::Network;
use std::alloc::Global;

/// The complete paths of at most `n` edges, by length, then by start and steps.
///
/// `Paths` comes exactly where there are more than 20,000 (unless memory ends before that is
/// known), and `Obligations` never. No prefix is followed that cannot be completed within `n`
/// edges, so the work is bounded by the paths that are given (at most 20,000) times their length,
/// and by the edges times `n` besides.
pub fn list(alloc: Global, net: &Network, n: u32) -> Result<List<Path>, PlanFault>
    requires positive { 1 ≤ n }
    requires small { n ≤ MOST_LENGTH }
    ensures paths { IfOk result (λ ps. IsListOf net.now n ps) }
    ensures few { IfOk result (λ ps. length ps ≤ MOST_PATHS) }
    ensures many { result ≡ Err PlanFault.Paths → MoreThan MOST_PATHS net.now n }
    ensures exact { MoreThan MOST_PATHS net.now n →
        (result ≡ Err PlanFault.Paths) ⊎ (result ≡ Err PlanFault.Memory) }
    ensures never { result ≡ Err PlanFault.Obligations → ⊥ }
{
    let Ok(near) = distances(alloc, net, n - 1) else {
        return Err(PlanFault::Memory);
    };
    match levels(alloc, net, near.as_slice(), n) {
        Ok(paths) => Ok(paths),
        Err(Stop::TooMany) => Err(PlanFault::Paths),
        Err(Stop::Memory) => Err(PlanFault::Memory),
    }
}
