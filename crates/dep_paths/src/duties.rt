ghost use Rattle.std.specs.Prelude.{◌≡◌, ◌<◌, ◌≤◌, ◌^◌, length, IfOk};
ghost use Rattle.std.specs.List.{All};
ghost use Rattle.dep_paths.specs.declared.path.Path.{Path as PathValue};
ghost use Rattle.dep_paths.specs.Conditions.{conditions as conditions_of};
ghost use Rattle.dep_paths.specs.Duties.{duties as duties_of};
ghost use Rattle.dep_paths.specs.Paths.{path_length};

mod basic;
mod counts;
mod elementary;
mod multiple;
mod observable;

use crate::limits::{MOST_LENGTH, MOST_PATHS};
use crate::path::{Condition, Obligation, Path};
use basic::add_basic_coverage;
pub(crate) use counts::duty_count;
use cov_base::{List, Memory};
use elementary::add_elementary_conditions;
use multiple::add_multiple_conditions;
use observable::add_observable_conditions;
use op_network::Edge;
use std::alloc::Global;

/// The obligations on these paths and these conditions, criterion by criterion. Linear in the
/// lengths of the paths and in the number of conditions.
pub(crate) fn duties_on(
    alloc: Global,
    edges: &[Edge],
    paths: &[Path],
    conditions: &[Condition],
) -> Result<List<Obligation>, Memory>
    requires few { length paths.now ≤ MOST_PATHS }
    requires short { All (λ (p : PathValue). path_length p ≤ MOST_LENGTH) paths.now }
    requires conditions { conditions.now ≡ conditions_of edges.now }
    requires small { length conditions.now < 2 ^ 32 }
    ensures { IfOk result (λ duties. duties ≡ duties_of edges.now paths.now) }
{
    let mut duties = List::new(alloc);
    add_basic_coverage(paths.len() as u32, &mut duties)?;
    add_elementary_conditions(edges, paths, &mut duties)?;
    add_multiple_conditions(edges, paths, &mut duties)?;
    add_observable_conditions(conditions.len() as u32, &mut duties)?;
    Ok(duties)
}
