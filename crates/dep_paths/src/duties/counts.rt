ghost use Rattle.std.specs.Prelude.{◌≡◌, ◌≤◌, ◌+◌, ◌*◌, length};
ghost use Rattle.std.specs.List.{All};
ghost use Rattle.dep_paths.specs.declared.path.Path.{Path as PathValue};
ghost use Rattle.dep_paths.specs.Conditions.{conditions as conditions_of};
ghost use Rattle.dep_paths.specs.Duties.{duties, elementary_duties, multiple_duties, path_duties};
ghost use Rattle.dep_paths.specs.Duties.{pins_on, truths_of};
ghost use Rattle.dep_paths.specs.Paths.{path_length};

use crate::limits::{MOST_LENGTH, MOST_PATHS};
use crate::path::{Condition, Path};
use crate::truths::is_truth_edge;
use op_network::{Edge, EdgeId};

/// How many truths an edge is asked for: two of a Truth, and none of another edge.
fn truth_count(edges: &[Edge], e: EdgeId) -> u64
    ensures { result ≡ length (truths_of edges.now e) }
{
    if is_truth_edge(edges, e) { 2 } else { 0 }
}

/// How many pins a path has.
fn pin_count(edges: &[Edge], path: &Path) -> u64
    requires { path_length path.now ≤ MOST_LENGTH }
    ensures count { result ≡ length (pins_on edges.now path.now) }
    ensures small { result ≤ 2 * MOST_LENGTH }
{
    let mut count = truth_count(edges, path.start);
    for step in path.steps.as_slice() {
        count += truth_count(edges, step.edge);
    }
    count
}

/// How many obligations a path has besides basic coverage.
fn count_on_path(edges: &[Edge], path: &Path) -> u64
    requires { path_length path.now ≤ MOST_LENGTH }
    ensures count { result ≡ length (elementary_duties edges.now (0, path.now))
        + length (multiple_duties edges.now (0, path.now)) }
    ensures small { result ≤ 2 + 2 * MOST_LENGTH }
{
    truth_count(edges, path.start).max(1) + pin_count(edges, path).max(1)
}

/// How many obligations these paths have. Linear in their lengths.
fn path_duty_count(edges: &[Edge], paths: &[Path]) -> u64
    requires few { length paths.now ≤ MOST_PATHS }
    requires short { All (λ (p : PathValue). path_length p ≤ MOST_LENGTH) paths.now }
    ensures count { result ≡ length (path_duties edges.now paths.now) }
    ensures small { result ≤ (3 + 2 * MOST_LENGTH) * MOST_PATHS }
{
    let mut count = 0;
    for path in paths {
        count += 1 + count_on_path(edges, path);
    }
    count
}

/// How many obligations a network with these edges has on these paths and its conditions.
#[tactic(auto, using(crate::proofs::DutyLists::length_duties))]
pub(crate) fn duty_count(edges: &[Edge], paths: &[Path], conditions: &[Condition]) -> u64
    requires few { length paths.now ≤ MOST_PATHS }
    requires short { All (λ (p : PathValue). path_length p ≤ MOST_LENGTH) paths.now }
    requires conditions { conditions.now ≡ conditions_of edges.now }
    ensures count { result ≡ length (duties edges.now paths.now) }
    ensures on_conditions { 2 * length conditions.now ≤ result }
{
    path_duty_count(edges, paths) + 2 * conditions.len() as u64
}
