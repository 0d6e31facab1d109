ghost use Rattle.std.specs.Prelude.{◌≡◌, ◌+◌, [], ◌∷◌, length, map, min, zip, OnOk, IfOk};
ghost use Rattle.std.specs.Option.{option_copied, option_to_list};
ghost use Rattle.lus_types.specs.Names.{left_of, spot_names};
ghost use Rattle.node_expand.specs.Fragments as place;
ghost use Rattle.node_expand.specs.Known as spec;
ghost use Rattle.node_expand.specs.NameTables.{with_entries};
ghost use Rattle.node_expand.specs.Outlines as look;
ghost use Rattle.node_expand.specs.Variables.{names_of};

use crate::header::Variable;
use crate::limits::MANY;
use crate::measures::{Measure, item_measure};
use crate::names::table::NameTable;
use crate::outlines::Outline;
use cov_base::{List, Memory};
use lus_syntax::{Item, Spot};
use sqlite_items::at;
use std::alloc::Global;

/// Adds the roots of the names on a left side, the first of which is `first`.
fn add_roots(
    alloc: Global,
    left: &[Spot],
    first: u32,
    places: &mut NameTable<u32>,
) -> Result<(), Memory>
    ensures { OnOk result (places.new ≡ with_entries places.old
        (zip (spot_names left.now) (spec.cut_places first (spot_names left.now)))) }
{
    let mut edge = first;
    for spot in left {
        places.add(alloc, spot.text.bytes(), edge)?;
        edge = edge.saturating_add(1);
    }
    Ok(())
}

fn add_item(
    alloc: Global,
    item: &Item,
    first: u32,
    places: &mut NameTable<u32>,
) -> Result<(), Memory>
    ensures { OnOk result (places.new ≡ with_entries places.old
        (zip (left_of item.now) (spec.cut_places first (left_of item.now)))) }
{
    match item {
        Item::Assert { .. } => Ok(()),
        Item::Equation { left, .. } => add_roots(alloc, left.as_slice(), first, places),
    }
}

/// How many edges an item has, of a node whose calls aren't nested too deep.
fn item_size(sizes: &[Measure], outline: &Outline) -> u32
    ensures { result ≡ look.number_of (look.item_measure sizes.now outline.now) }
{
    match item_measure(sizes, outline) {
        Some(size) => size,
        None => 0,
    }
}

/// The edge behind an item that begins at an edge.
fn edge_behind(sizes: &[Measure], outline: &Outline, next: u32) -> u32
    ensures { result ≡ spec.cut (next + look.number_of (look.item_measure sizes.now outline.now)) }
{
    next.saturating_add(item_size(sizes, outline))
}

/// Adds the roots of the variables that items define, where the first edge of the items is `start`.
fn add_items(
    alloc: Global,
    sizes: &[Measure],
    items: &[Item],
    outlines: &[Outline],
    start: u32,
    places: &mut NameTable<u32>,
) -> Result<(), Memory>
    requires { length outlines.now ≡ length items.now }
    ensures { OnOk result (places.new ≡ with_entries places.old
        (spec.root_places sizes.now start items.now outlines.now)) }
{
    let mut next = start;
    for i in 0..items.len() {
        add_item(alloc, &items[i], next, places)?;
        let behind = edge_behind(sizes, &outlines[i], next);
        next = behind;
    }
    Ok(())
}

/// Adds an input, if there is an argument for it.
fn add_input(
    alloc: Global,
    input: &Variable,
    edge: Option<&u32>,
    places: &mut NameTable<u32>,
) -> Result<(), Memory>
    ensures { OnOk result (places.new ≡ with_entries places.old
        (zip (input.now.name ∷ []) (option_to_list (option_copied edge.entry)))) }
{
    match edge {
        Some(edge) => places.add(alloc, input.name.bytes(), *edge),
        None => Ok(()),
    }
}

/// Adds the edges of inputs, which are those of the arguments.
fn add_inputs(
    alloc: Global,
    inputs: &[Variable],
    args: &[u32],
    places: &mut NameTable<u32>,
) -> Result<(), Memory>
    ensures { OnOk result (places.new ≡ with_entries places.old
        (zip (names_of inputs.now) args.now)) }
{
    for i in 0..inputs.len() {
        add_input(alloc, &inputs[i], at(args, i), places)?;
    }
    Ok(())
}

/// The edges of the variables of an instance that begins at an edge, over the edges of its
/// arguments.
pub(crate) fn places_of(
    alloc: Global,
    sizes: &[Measure],
    inputs: &[Variable],
    args: &[u32],
    items: &[Item],
    outlines: &[Outline],
    start: u32,
) -> Result<NameTable<u32>, Memory>
    requires { length outlines.now ≡ length items.now }
    ensures { IfOk result (λ places. places
        ≡ with_entries (with_entries [] (zip (names_of inputs.now) args.now))
        (spec.root_places sizes.now start items.now outlines.now)) }
{
    let mut places = NameTable::new(alloc);
    add_inputs(alloc, inputs, args, &mut places)?;
    add_items(alloc, sizes, items, outlines, start, &mut places)?;
    Ok(places)
}

/// The edge of a variable, or 0 for a name that has none.
pub(crate) fn place_of(places: &NameTable<u32>, name: &[u8]) -> u32
    ensures { result ≡ place.place_of places.now name.now }
{
    match places.get(name) {
        Some(edge) => *edge,
        None => 0,
    }
}

/// The edges of these variables, cut at `MANY`.
fn edges_of(
    alloc: Global,
    places: &NameTable<u32>,
    variables: &[Variable],
) -> Result<List<u32>, Memory>
    ensures { IfOk result (λ edges. edges
        ≡ map (λ x. min (place.place_of places.now x) MANY) (names_of variables.now)) }
{
    let mut edges = List::new(alloc);
    for variable in variables {
        let edge = place_of(places, variable.name.bytes());
        edges.add(edge.min(MANY))?;
    }
    Ok(edges)
}

/// The edges of the results of a node, counted from its first edge.
pub(crate) fn results_of(
    alloc: Global,
    sizes: &[Measure],
    outputs: &[Variable],
    items: &[Item],
    outlines: &[Outline],
) -> Result<List<u32>, Memory>
    requires { length outlines.now ≡ length items.now }
    ensures { IfOk result (λ results. results
        ≡ spec.results_among sizes.now items.now outlines.now (names_of outputs.now)) }
{
    let mut places = NameTable::new(alloc);
    add_items(alloc, sizes, items, outlines, 0, &mut places)?;
    edges_of(alloc, &places, outputs)
}
