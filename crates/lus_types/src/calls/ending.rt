ghost use Rattle.std.specs.Prelude.{◌≡◌, ◌≤◌, length, true, IfErr, IfOk, OnOk};
ghost use Rattle.lus_types.specs.Graphs.{AllEnd, AllMarked, is_marked as marked_at};

use crate::calls::search::{Search, is_marked, row_at};
use crate::fault::TypeFault;
use crate::limits::MOST_DECLS;
use cov_base::List;
use std::alloc::Global;

/// Whether all of these places are marked.
#[tactic(auto, using(crate::proofs::Endings::marked_none, crate::proofs::Endings::marked_next, crate::proofs::Endings::marked_all))]
fn are_marked(marks: &[bool], places: &[u32]) -> bool
    ensures { result ≡ true → AllMarked marks.now places.now }
{
    for place in places {
        if !is_marked(marks, *place) {
            return false;
        }
    }
    true
}

/// Marks a place all of whose row is marked.
#[tactic(auto, using(crate::proofs::Endings::settled))]
fn settle(rows: &[List<u32>], place: u32, search: &mut Search) -> Result<(), TypeFault>
    requires ending { AllEnd rows.now search.old.marks }
    ensures ok { OnOk result (AllEnd rows.now search.new.marks) }
    ensures err { IfErr result (λ fault. fault ≡ TypeFault.Memory) }
{
    if !are_marked(search.marks.as_slice(), row_at(rows, place)) {
        return Ok(());
    }
    search.mark(place)
}

/// How many items each row has.
fn sizes(alloc: Global, rows: &[List<u32>]) -> Result<List<usize>, TypeFault>
    ensures err { IfErr result (λ fault. fault ≡ TypeFault.Memory) }
{
    let mut sizes = List::new(alloc);
    for row in rows {
        sizes.add(row.len())?;
    }
    Ok(sizes)
}

/// Counts one item of a place's row less, and tells whether it was the last.
fn count_down(left: &mut [usize], place: u32) -> bool {
    if place as usize >= left.len() {
        return false;
    }
    let before = left[place as usize];
    if before == 0 {
        return false;
    }
    left[place as usize] = before - 1;
    before == 1
}

/// Tells the callers of a marked place.
fn settle_callers(
    rows: &[List<u32>],
    callers: &[u32],
    left: &mut [usize],
    search: &mut Search,
) -> Result<(), TypeFault>
    requires ending { AllEnd rows.now search.old.marks }
    ensures ok { OnOk result (AllEnd rows.now search.new.marks) }
    ensures err { IfErr result (λ fault. fault ≡ TypeFault.Memory) }
{
    for caller in callers {
        if count_down(left, *caller) {
            settle(rows, *caller, search)?;
        }
    }
    Ok(())
}

/// Marks the places whose rows are empty.
fn settle_leaves(rows: &[List<u32>], search: &mut Search) -> Result<(), TypeFault>
    requires few { length rows.now ≤ MOST_DECLS }
    requires ending { AllEnd rows.now search.old.marks }
    ensures ok { OnOk result (AllEnd rows.now search.new.marks) }
    ensures err { IfErr result (λ fault. fault ≡ TypeFault.Memory) }
{
    for (place, row) in rows.iter().enumerate() {
        if row.len() == 0 {
            settle(rows, place as u32, search)?;
        }
    }
    Ok(())
}

/// Marks places from which no way leads into a cycle: first those whose rows are empty, then those
/// whose rows are all marked. Linear in the rows; it misses none where `back` has the rows of
/// callers.
#[tactic(auto, using(crate::proofs::Endings::ends_none))]
pub(crate) fn endings(
    alloc: Global,
    rows: &[List<u32>],
    back: &[List<u32>],
) -> Result<List<bool>, TypeFault>
    requires few { length rows.now ≤ MOST_DECLS }
    ensures ok { IfOk result (λ marks. AllEnd rows.now marks) }
    ensures err { IfErr result (λ fault. fault ≡ TypeFault.Memory) }
{
    let mut left = sizes(alloc, rows)?;
    let mut search = Search::new(alloc, rows.len())?;
    settle_leaves(rows, &mut search)?;
    for next in 0..rows.len() {
        if next < search.found.len() {
            let place = search.found.as_slice()[next];
            settle_callers(rows, row_at(back, place), left.items_mut(), &mut search)?;
        }
    }
    let Search { marks, found: _ } = search;
    Ok(marks)
}
