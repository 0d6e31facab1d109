ghost use Rattle.std.specs.Prelude.{◌≡◌, ◌≤◌, ◌⊎◌, Err, IfOk};
ghost use Rattle.dep_paths.specs.Duties.{AsksTooMuch, IsPlanOf, IsWithinLimits};
ghost use Rattle.dep_paths.specs.Paths.{MoreThan};

use crate::condition_list::conditions;
use crate::duties::{duties_on, duty_count};
use crate::limits::{MOST_LENGTH, MOST_OBLIGATIONS, MOST_PATHS};
use crate::path::PlanFault;
use crate::paths::list;
use crate::planned::Plan;
use op_network::Network;
use std::alloc::Global;

/// The plan of a network: its complete paths of at most `n` edges, its conditions, and the
/// obligations on both.
///
/// `Paths` comes exactly where there are more than 20,000 paths, and `Obligations` exactly where
/// there aren't, but more than 200,000 obligations (unless memory ends before that is known). The
/// obligations are counted before any is made. The work is that of `list`, and linear in the
/// lengths of the paths and in the number of edges besides.
pub fn plan(alloc: Global, net: &Network, n: u32) -> Result<Plan, PlanFault>
    requires positive { 1 ≤ n }
    requires small { n ≤ MOST_LENGTH }
    ensures length { IfOk result (λ plan. plan.length ≡ n) }
    ensures plan { IfOk result (IsPlanOf net.now) }
    ensures limits { IfOk result IsWithinLimits }
    ensures paths { result ≡ Err PlanFault.Paths → MoreThan MOST_PATHS net.now n }
    ensures paths_exact { MoreThan MOST_PATHS net.now n →
        (result ≡ Err PlanFault.Paths) ⊎ (result ≡ Err PlanFault.Memory) }
    ensures duties { result ≡ Err PlanFault.Obligations → AsksTooMuch net.now n }
    ensures duties_exact { AsksTooMuch net.now n →
        (result ≡ Err PlanFault.Obligations) ⊎ (result ≡ Err PlanFault.Memory) }
{
    let paths = list(alloc, net, n)?;
    let Ok(conditions) = conditions(alloc, net) else {
        return Err(PlanFault::Memory);
    };
    let edges = net.parts().edges.as_slice();
    if duty_count(edges, paths.as_slice(), conditions.as_slice()) > MOST_OBLIGATIONS as u64 {
        return Err(PlanFault::Obligations);
    }
    match duties_on(alloc, edges, paths.as_slice(), conditions.as_slice()) {
        Ok(duties) => Ok(Plan::new(n, paths, conditions, duties)),
        Err(_) => Err(PlanFault::Memory),
    }
}
