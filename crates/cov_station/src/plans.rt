ghost use Rattle.std.specs.Prelude.{◌≤◌};
ghost use Rattle.cov_station.specs.Plans.{MakesPlan};
ghost use Rattle.cov_station.specs.Steps.{Does, Same};

use crate::refusal::{Quantity, Refusal};
use dep_paths::{MOST_LENGTH, MOST_OBLIGATIONS, MOST_PATHS, Plan, PlanFault, plan};
use op_network::Network;
use std::alloc::Global;

/// The plan of a network: its complete paths of at most `n` edges, and the obligations on them.
pub(crate) fn plan_of(alloc: Global, net: &Network, n: u32) -> Result<Plan, Refusal>
    requires positive { 1 ≤ n }
    requires small { n ≤ MOST_LENGTH }
    ensures { Does (MakesPlan net.now n) Same result }
{
    match plan(alloc, net, n) {
        Ok(planned) => Ok(planned),
        Err(PlanFault::Paths) => Err(Refusal::OverLimit(Quantity::Paths, MOST_PATHS as u32)),
        Err(PlanFault::Obligations) => {
            Err(Refusal::OverLimit(Quantity::Obligations, MOST_OBLIGATIONS as u32))
        }
        Err(PlanFault::Memory) => Err(Refusal::Memory),
    }
}
