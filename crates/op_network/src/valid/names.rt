ghost use Rattle.std.specs.Prelude.{◌≡◌, ◌≢◌, ◌≤◌, ◌↔◌, length, slice_index, IsTrue, All, AllPairs, Any, EachIndex};
ghost use Rattle.std.specs.Cmp.Lexicographic.{slice_cmp};
ghost use Rattle.std.specs.Ordering.{nat_cmp};
ghost use Rattle.std.specs.List.Sorted.{IsPermutation, IsSortedByKey};
ghost use Rattle.op_network.specs.declared.edge.Edge.{Edge as EdgeValue};
ghost use Rattle.op_network.specs.Valid.{IsName, IsChoice, NeighboursDiffer, name_at as spec_name_at};

use crate::edge::{Choice, Edge};
use crate::limits::{MOST_EDGES, MOST_NAMES};
use cov_base::Text;
use std::cmp::Ordering;

/// Whether the bytes are a name.
fn is_name(name: &[u8]) -> bool
    ensures { IsTrue result ↔ IsName name.now }
{
    if name.is_empty() {
        return false;
    }
    name.iter().all(|byte| *byte >= 0x21 && *byte <= 0x7E)
}

/// Whether each text is a name.
fn are_names(names: &[Text]) -> bool
    ensures { IsTrue result ↔ All IsName names.now }
{
    names.iter().all(|name| is_name(name.bytes()))
}

/// Whether a text is among the names.
fn is_among(name: &Text, names: &[Text]) -> bool
    ensures { IsTrue result ↔ Any (λ other. other ≡ name.now) names.now }
{
    names.iter().any(|other| other.bytes() == name.bytes())
}

/// Whether each two texts differ.
fn differ(names: &[Text]) -> bool
    ensures { IsTrue result ↔ AllPairs (λ a b. a ≢ b) names.now }
{
    for place in 0..names.len() {
        if is_among(&names[place], &names[..place]) {
            return false;
        }
    }
    true
}

/// Whether a choice has 1 to 256 different names.
fn is_choice(choice: &Choice) -> bool
    ensures { IsTrue result ↔ IsChoice choice.now }
{
    let names = choice.names.as_slice();
    !names.is_empty() && names.len() <= MOST_NAMES && are_names(names) && differ(names)
}

/// Whether each choice has 1 to 256 different names.
pub(super) fn are_choices(choices: &[Choice]) -> bool
    ensures { IsTrue result ↔ All IsChoice choices.now }
{
    choices.iter().all(|choice| is_choice(choice))
}

/// Whether each edge has a name.
pub(super) fn have_names(edges: &[Edge]) -> bool
    ensures { IsTrue result ↔ All (λ (edge : EdgeValue). IsName edge.name) edges.now }
{
    edges.iter().all(|edge| is_name(edge.name.bytes()))
}

/// The name of the edge at a place, or nothing.
fn name_at(edges: &[Edge], place: u16) -> &[u8]
    ensures { result.now ≡ spec_name_at edges.now place }
{
    match edges.get(place as usize) {
        Some(edge) => edge.name.bytes(),
        None => &[],
    }
}

/// Writes at each place its number.
fn number_off(places: &mut [u16])
    requires { length places.old ≤ MOST_EDGES }
    ensures { EachIndex places.new (λ k. slice_index places.new k ≡ k) }
{
    for place in 0..places.len() {
        places[place] = place as u16;
    }
}

/// How the names of the edges at two places compare, byte by byte.
fn by_name(edges: &[Edge], a: u16, b: u16) -> Ordering
    ensures { result ≡ slice_cmp nat_cmp (spec_name_at edges.now a) (spec_name_at edges.now b) }
{
    name_at(edges, a).cmp(name_at(edges, b))
}

/// Sorts places by the names of their edges.
fn sort_by_name(edges: &[Edge], places: &mut [u16])
    ensures moved { IsPermutation places.old places.new }
    ensures sorted { IsSortedByKey (spec_name_at edges.now) (slice_cmp nat_cmp) places.new }
{
    places.sort_unstable_by(|a, b| by_name(edges, *a, *b));
}

/// Whether the edges at each two neighbouring places have different names.
fn neighbours_differ(edges: &[Edge], places: &[u16]) -> bool
    ensures { IsTrue result ↔ NeighboursDiffer edges.now places.now }
{
    for i in 1..places.len() {
        if name_at(edges, places[i - 1]) == name_at(edges, places[i]) {
            return false;
        }
    }
    true
}

/// Whether each two edges have different names. The places of the edges are sorted by name, so that
/// equal names are neighbours: n log n comparisons, and no memory is taken.
pub(super) fn have_different_names(edges: &[Edge]) -> bool
    requires { length edges.now ≤ MOST_EDGES }
    ensures { IsTrue result ↔ AllPairs (λ (a b : EdgeValue). a.name ≢ b.name) edges.now }
{
    let mut all = [0u16; MOST_EDGES];
    let places = &mut all[..edges.len()];
    number_off(places);
    sort_by_name(edges, places);
    neighbours_differ(edges, places)
}
