ghost use Rattle.std.specs.Prelude.{◌≡◌, ◌<◌, ◌↔◌, false, true, length, replicate, slice_set};
ghost use Rattle.std.specs.Prelude.{IsTrue, IfOk, IfSome, IfNone};
ghost use Rattle.lus_causality.specs.Causality.{operands_now};
ghost use Rattle.lus_causality.specs.Marks.{AreAllMarked, AreMarked, AreMarkedBelow, IsFree, IsUnmarked};

use crate::operands::{count_now, operand_now};
use cov_base::{List, Memory};
use op_network::{EdgeId, Network};
use std::alloc::Global;

/// A mark for each edge, none of which is set.
pub fn no_marks(alloc: Global, count: usize) -> Result<List<bool>, Memory>
    ensures { IfOk result (λ marks. marks ≡ replicate count false) }
{
    let mut marks = List::new(alloc);
    for _place in 0..count {
        marks.add(false)?;
    }
    Ok(marks)
}

/// Unsets all marks. Linear in their number.
#[tactic(auto, using(crate::proofs::Clearing::none_unset, crate::proofs::Clearing::one_unset, crate::proofs::Clearing::all_unset))]
pub fn unset(marks: &mut List<bool>)
    ensures { marks.new ≡ replicate (length marks.old) false }
{
    for place in 0..marks.len() {
        marks.items_mut()[place] = false;
    }
}

/// Sets the mark of an edge. In constant time.
pub fn set_mark(marks: &mut List<bool>, e: EdgeId)
    requires { e.0 < length marks.old }
    ensures { marks.new ≡ slice_set marks.old e.0 true }
{
    marks.items_mut()[e.0 as usize] = true;
}

/// Whether each operand of an edge at the instant is marked.
#[tactic(auto, using(crate::proofs::Reading::none_marked, crate::proofs::Reading::one_marked, crate::proofs::Reading::all_marked, crate::proofs::Reading::not_marked))]
pub(crate) fn are_marked(network: &Network, marks: &[bool], e: EdgeId) -> bool
    requires edge { e.0 < length network.now.edges }
    requires size { length marks.now ≡ length network.now.edges }
    ensures { IsTrue result ↔ AreMarked (operands_now network.now.edges e) marks.now }
{
    for port in 0..count_now(network, e) {
        if !marks[operand_now(network, e, port).0 as usize] {
            return false;
        }
    }
    true
}

/// Whether an edge is not marked, and its operands are, but for that of a `Pre`. In constant time.
#[tactic(auto, using(crate::proofs::Reading::is_free))]
pub fn is_free(network: &Network, marks: &[bool], e: EdgeId) -> bool
    requires edge { e.0 < length network.now.edges }
    requires size { length marks.now ≡ length network.now.edges }
    ensures { IsTrue result ↔ IsFree network.now.edges marks.now e }
{
    !marks[e.0 as usize] && are_marked(network, marks, e)
}

/// The place of the first mark that isn't set. Linear in the number of marks.
#[tactic(auto, using(crate::proofs::Ending::none_marked_yet, crate::proofs::Ending::one_marked_more, crate::proofs::Ending::all_are_marked))]
pub fn first_unmarked(marks: &[bool]) -> Option<usize>
    ensures some { IfSome result (IsUnmarked marks.now) }
    ensures first { IfSome result (AreMarkedBelow marks.now) }
    ensures none { IfNone result (AreAllMarked marks.now) }
{
    for e in 0..marks.len() {
        if !marks[e] {
            return Some(e);
        }
    }
    None
}
