ghost use Rattle.std.specs.Prelude.{◌≡◌, ◌≢◌, ◌<◌, ◌≤◌, ◌↔◌, ℕ, length, slice_get, IsTrue, All, AllPairs, false, option_map};
ghost use Rattle.op_network.specs.declared.edge.EdgeId.{EdgeId as Id};
ghost use Rattle.op_network.specs.declared.edge.Edge.{Edge as EdgeValue};
ghost use Rattle.op_network.specs.Valid.{op_of, HasInputs, AreNumbered, AreAllInputs, type_of as type_at};

use super::types::type_of;
use crate::edge::{Edge, EdgeId, Op};
use crate::limits::MOST_EDGES;
use crate::value::Ty;

/// The operator of an edge.
fn op_at(edges: &[Edge], e: usize) -> Option<Op>
    ensures { result ≡ op_of edges.now e }
{
    edges.get(e).map(|edge| edge.op)
}

/// Whether an operator is the input of a place.
fn is_input_of(op: Option<Op>, place: usize) -> bool
    ensures { IsTrue result ↔ (op ≡ Some (Op.Input place)) }
{
    match op {
        Some(Op::Input(input)) => input as usize == place,
        _ => false,
    }
}

/// Whether the input of a place is an edge.
fn is_place_of(inputs: &[EdgeId], place: u32, e: usize) -> bool
    ensures { IsTrue result ↔ (slice_get inputs.now place ≡ Some (record { 0 = e })) }
{
    match inputs.get(place as usize) {
        Some(id) => id.0 as usize == e,
        None => false,
    }
}

/// Whether each item is less than all later ones.
fn rise(ids: &[EdgeId]) -> bool
    ensures { IsTrue result ↔ AllPairs (λ (a b : Id). a.0 < b.0) ids.now }
{
    for place in 1..ids.len() {
        if ids[place].0 <= ids[place - 1].0 {
            return false;
        }
    }
    true
}

/// Whether the i-th input is an edge `Input(i)`.
fn are_numbered(edges: &[Edge], inputs: &[EdgeId]) -> bool
    ensures { IsTrue result ↔ AreNumbered edges.now inputs.now }
{
    inputs.iter().enumerate().all(|(place, e)| is_input_of(op_at(edges, e.0 as usize), place))
}

/// Whether an edge, if it is an input, stands at its place among the inputs.
fn is_placed(inputs: &[EdgeId], op: Op, e: usize) -> bool
    ensures { IsTrue result
        ↔ ((i : ℕ) → op ≡ Op.Input i → slice_get inputs.now i ≡ Some (record { 0 = e })) }
{
    match op {
        Op::Input(input) => is_place_of(inputs, input, e),
        _ => true,
    }
}

/// Whether each edge `Input(i)` is the i-th input.
fn are_all_inputs(edges: &[Edge], inputs: &[EdgeId]) -> bool
    ensures { IsTrue result ↔ AreAllInputs edges.now inputs.now }
{
    edges
        .iter()
        .enumerate()
        .all(|(e, edge)| is_placed(inputs, edge.op, e))
}

/// Whether the inputs are exactly the edges `Input(i)`, in order.
pub(super) fn has_inputs(edges: &[Edge], inputs: &[EdgeId]) -> bool
    ensures { IsTrue result ↔ HasInputs edges.now inputs.now }
{
    are_numbered(edges, inputs) && are_all_inputs(edges, inputs) && rise(inputs)
}

/// Whether each is an edge.
pub(super) fn are_edges(edges: &[Edge], ids: &[EdgeId]) -> bool
    ensures { IsTrue result ↔ All (λ (e : Id). e.0 < length edges.now) ids.now }
{
    ids.iter().all(|e| (e.0 as usize) < edges.len())
}

/// Whether each is an edge of type `Truth`.
pub(super) fn are_truths(edges: &[Edge], ids: &[EdgeId]) -> bool
    ensures truths { IsTrue result ↔ All (λ (e : Id). type_at edges.now e ≡ Some Ty.Truth) ids.now }
    ensures edges { IsTrue result → All (λ (e : Id). e.0 < length edges.now) ids.now }
{
    ids.iter().all(|e| type_of(edges, *e) == Some(Ty::Truth))
}

/// Whether each two edges differ. `met` has no mark yet, and gets one at each edge that is met.
fn differ_with(ids: &[EdgeId], met: &mut [bool]) -> bool
    requires edges { All (λ (e : Id). e.0 < length met.old) ids.now }
    requires unmarked { All (λ mark. mark ≡ false) met.old }
    ensures { IsTrue result ↔ AllPairs (λ (a b : Id). a ≢ b) ids.now }
{
    for place in 0..ids.len() {
        let e = ids[place].0 as usize;
        if met[e] {
            return false;
        }
        met[e] = true;
    }
    true
}

/// Whether each two of some edges of a network differ. Linear.
pub(super) fn differ(edges: &[Edge], ids: &[EdgeId]) -> bool
    requires few { length edges.now ≤ MOST_EDGES }
    requires edges { All (λ (e : Id). e.0 < length edges.now) ids.now }
    ensures { IsTrue result ↔ AllPairs (λ (a b : Id). a ≢ b) ids.now }
{
    let mut met = [false; MOST_EDGES];
    differ_with(ids, &mut met[..edges.len()])
}
