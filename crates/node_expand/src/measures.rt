ghost use Rattle.std.specs.Prelude.{◌≡◌, length, None, OnOk, IfOk, replicate};
ghost use Rattle.node_expand.specs.Outlines as spec;

use crate::limits::MANY;
use crate::outlines::Outline;
use cov_base::{List, Memory};
use std::alloc::Global;

/// How many edges something has, where `MANY` stands for any number from it on; or `None` where
/// calls are nested too deep.
pub(crate) type Measure = Option<u32>;

/// Both together.
fn added(a: Measure, b: Measure) -> Measure
    ensures { result ≡ spec.added a b }
{
    match (a, b) {
        (Some(m), Some(n)) => Some(m.saturating_add(n).min(MANY)),
        (Some(_), None) | (None, _) => None,
    }
}

/// The measure of the node at a place, by the measures of all declarations.
pub(crate) fn measure_at(table: &[Measure], callee: Option<u32>) -> Measure
    ensures { result ≡ spec.measure_at table.now callee }
{
    match callee {
        None => None,
        Some(place) => match table.get(place as usize) {
            None => None,
            Some(measure) => *measure,
        },
    }
}

/// The measure of an item: its own edges, and those of the instances of its calls.
pub(crate) fn item_measure(table: &[Measure], outline: &Outline) -> Measure
    ensures { result ≡ spec.item_measure table.now outline.now }
{
    let mut sum = added(Some(outline.ids), Some(outline.own));
    for callee in outline.callees.as_slice() {
        sum = added(sum, measure_at(table, *callee));
    }
    sum
}

/// The measure of a node.
fn node_measure(table: &[Measure], outlines: &[Outline]) -> Measure
    ensures { result ≡ spec.node_measure table.now outlines.now }
{
    let mut sum = Some(0);
    for outline in outlines {
        sum = added(sum, item_measure(table, outline));
    }
    sum
}

/// The measures where calls may be nested one deeper than in these.
fn next_measures(
    alloc: Global,
    outlines: &[List<Outline>],
    table: &[Measure],
) -> Result<List<Measure>, Memory>
    ensures { IfOk result (λ next. next ≡ spec.next_measures outlines.now table.now) }
{
    let mut next = List::new(alloc);
    for of_items in outlines {
        next.add(node_measure(table, of_items.as_slice()))?;
    }
    Ok(next)
}

/// The measures where no node may stand at all.
fn first_measures(alloc: Global, count: usize) -> Result<List<Measure>, Memory>
    ensures { IfOk result (λ first. first ≡ replicate count None) }
{
    let mut first = List::new(alloc);
    for _place in 0..count {
        first.add(None)?;
    }
    Ok(first)
}

/// The measures of all declarations, by their places, where calls may be nested so deep. The cost
/// is linear in the number of items and calls, times the depth.
pub(crate) fn measures_of(
    alloc: Global,
    outlines: &[List<Outline>],
    depth: u32,
) -> Result<List<Measure>, Memory>
    ensures { IfOk result (λ table. table ≡ spec.measures outlines.now depth) }
{
    let mut table = first_measures(alloc, outlines.len())?;
    for _level in 0..depth {
        table = next_measures(alloc, outlines, table.as_slice())?;
    }
    Ok(table)
}
