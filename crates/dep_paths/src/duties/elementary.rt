ghost use Rattle.std.specs.Prelude.{◌≡◌, ◌≤◌, ◌++◌, length, OnOk};
ghost use Rattle.dep_paths.specs.Duties.{elementary_duties, elementary_conditions};

use crate::limits::MOST_PATHS;
use crate::path::{Obligation, Path};
use crate::truths::is_truth_edge;
use cov_base::{List, Memory};
use op_network::Edge;

/// Adds the elementary conditions of the path at a place.
fn add_elementary(
    edges: &[Edge],
    place: u32,
    path: &Path,
    duties: &mut List<Obligation>,
) -> Result<(), Memory>
    ensures { OnOk result (duties.new
        ≡ duties.old ++ elementary_duties edges.now (place, path.now)) }
{
    if !is_truth_edge(edges, path.start) {
        let value = None;
        return duties.add(Obligation::Ecc { path: place, value });
    }
    let both = [true, false].map(|value| Obligation::Ecc {
        path: place,
        value: Some(value),
    });
    duties.extend_from_slice(&both)
}

/// Adds the elementary conditions of each path.
pub(crate) fn add_elementary_conditions(
    edges: &[Edge],
    paths: &[Path],
    duties: &mut List<Obligation>,
) -> Result<(), Memory>
    requires few { length paths.now ≤ MOST_PATHS }
    ensures { OnOk result (duties.new
        ≡ duties.old ++ elementary_conditions edges.now paths.now) }
{
    for (place, path) in paths.iter().enumerate() {
        add_elementary(edges, place as u32, path, duties)?;
    }
    Ok(())
}
