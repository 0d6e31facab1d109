ghost use Rattle.std.specs.Prelude.{◌≡◌, ◌≤◌, ◌++◌, map, length, OnOk, Some};
ghost use Rattle.std.specs.List.{All};
ghost use Rattle.dep_paths.specs.declared.path.Obligation.TheVariants.{Mcc};
ghost use Rattle.dep_paths.specs.declared.path.Path.{Path as PathValue};
ghost use Rattle.dep_paths.specs.declared.path.Pin.{Pin as PinValue};
ghost use Rattle.dep_paths.specs.Duties.{multiple_duties, multiple_conditions, pins_at, pins_on};
ghost use Rattle.dep_paths.specs.Paths.{path_length};

use crate::limits::{MOST_LENGTH, MOST_PATHS};
use crate::path::{Obligation, Path, Pin};
use crate::truths::is_truth_edge;
use cov_base::{List, Memory};
use op_network::{Edge, EdgeId};

/// Adds an obligation on a path with each pin of a place with this edge.
fn add_pins_at(
    edges: &[Edge],
    path: u32,
    place: u8,
    e: EdgeId,
    duties: &mut List<Obligation>,
) -> Result<(), Memory>
    ensures { OnOk result (duties.new ≡ duties.old
        ++ map (λ (pin : PinValue). Mcc path (Some pin)) (pins_at edges.now (place, e))) }
{
    if !is_truth_edge(edges, e) {
        return Ok(());
    }
    let both = [true, false].map(|value| Obligation::Mcc {
        path,
        pin: Some(Pin { place, value }),
    });
    duties.extend_from_slice(&both)
}

/// Adds an obligation on the path at a place with each of its pins.
fn add_pins(
    edges: &[Edge],
    place: u32,
    path: &Path,
    duties: &mut List<Obligation>,
) -> Result<(), Memory>
    requires { path_length path.now ≤ MOST_LENGTH }
    ensures { OnOk result (duties.new ≡ duties.old
        ++ map (λ (pin : PinValue). Mcc place (Some pin)) (pins_on edges.now path.now)) }
{
    add_pins_at(edges, place, 0, path.start, duties)?;
    for (before, step) in path.steps.as_slice().iter().enumerate() {
        add_pins_at(edges, place, before as u8 + 1, step.edge, duties)?;
    }
    Ok(())
}

/// Adds the multiple conditions of the path at a place.
fn add_multiple(
    edges: &[Edge],
    place: u32,
    path: &Path,
    duties: &mut List<Obligation>,
) -> Result<(), Memory>
    requires { path_length path.now ≤ MOST_LENGTH }
    ensures { OnOk result (duties.new ≡ duties.old ++ multiple_duties edges.now (place, path.now)) }
{
    let before = duties.len();
    add_pins(edges, place, path, duties)?;
    if duties.len() == before {
        let pin = None;
        duties.add(Obligation::Mcc { path: place, pin })?;
    }
    Ok(())
}

/// Adds the multiple conditions of each path.
pub(crate) fn add_multiple_conditions(
    edges: &[Edge],
    paths: &[Path],
    duties: &mut List<Obligation>,
) -> Result<(), Memory>
    requires few { length paths.now ≤ MOST_PATHS }
    requires short { All (λ (p : PathValue). path_length p ≤ MOST_LENGTH) paths.now }
    ensures { OnOk result (duties.new ≡ duties.old ++ multiple_conditions edges.now paths.now) }
{
    for (place, path) in paths.iter().enumerate() {
        add_multiple(edges, place as u32, path, duties)?;
    }
    Ok(())
}
