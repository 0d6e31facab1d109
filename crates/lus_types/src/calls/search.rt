ghost use Rattle.std.specs.Prelude.{◌≡◌, ◌<◌, [], ◌∷◌, length, replicate, slice_set, true, false, IfErr, IfOk, OnOk};
ghost use Rattle.lus_types.specs.Graphs.{IsReach, Marks, is_marked as marked_at, row};

use crate::fault::TypeFault;
use cov_base::List;
use std::alloc::Global;

/// Places that are marked, and the list of them in the order in which they were met.
#[derive(Drop)]
pub(crate) struct Search {
    pub(crate) marks: List<bool>,
    pub(crate) found: List<u32>,
}

/// Whether a place is marked. A place past the marks is not.
pub(crate) fn is_marked(marks: &[bool], place: u32) -> bool
    ensures { result ≡ marked_at marks.now place }
{
    match marks.get(place as usize) {
        Some(mark) => *mark,
        None => false,
    }
}

/// The row of a place, which is empty where there is none.
pub(crate) fn row_at(rows: &[List<u32>], place: u32) -> &[u32]
    ensures { result.now ≡ row rows.now place }
{
    match rows.get(place as usize) {
        Some(items) => items.as_slice(),
        None => &[],
    }
}

/// Marks a place.
fn set_mark(marks: &mut List<bool>, place: u32)
    requires { place < length marks.old }
    ensures { marks.new ≡ slice_set marks.old place true }
{
    marks.items_mut()[place as usize] = true;
}

impl Search {
    /// No mark, for so many places.
    pub(crate) fn new(alloc: Global, len: usize) -> Result<Search, TypeFault>
        ensures ok { IfOk result (λ search.
            (search.marks ≡ replicate len false) × (search.found ≡ [])) }
        ensures err { IfErr result (λ fault. fault ≡ TypeFault.Memory) }
    {
        let marks = vec![in alloc; false; len]?;
        Ok(Search {
            marks: List::from_vec(marks),
            found: List::new(alloc),
        })
    }

    /// Marks a place, if there is one.
    #[tactic(auto, using(crate::proofs::Searches::mark_new, crate::proofs::Searches::mark_past, crate::proofs::Searches::mark_again))]
    pub(crate) fn mark(&mut self, place: u32) -> Result<(), TypeFault>
        ensures ok { OnOk result (Marks (place ∷ []) self.old self.new) }
        ensures err { IfErr result (λ fault. fault ≡ TypeFault.Memory) }
    {
        if place as usize >= self.marks.len() {
            return Ok(());
        }
        if is_marked(self.marks.as_slice(), place) {
            return Ok(());
        }
        self.found.add(place)?;
        set_mark(&mut self.marks, place);
        Ok(())
    }

    /// Marks places, and lists those that were not marked.
    pub(crate) fn mark_all(&mut self, places: &[u32]) -> Result<(), TypeFault>
        ensures ok { OnOk result (Marks places.now self.old self.new) }
        ensures err { IfErr result (λ fault. fault ≡ TypeFault.Memory) }
    {
        for place in places {
            self.mark(*place)?;
        }
        Ok(())
    }
}

/// Which places a way of one or more calls from the start leads to. Linear in the rows.
pub(crate) fn reach(alloc: Global, rows: &[List<u32>], start: u32) -> Result<List<bool>, TypeFault>
    ensures ok { IfOk result (λ marks. IsReach rows.now start marks) }
    ensures err { IfErr result (λ fault. fault ≡ TypeFault.Memory) }
{
    let mut search = Search::new(alloc, rows.len())?;
    search.mark_all(row_at(rows, start))?;
    let mut next = 0;
    while next < search.found.len() {
        let place = search.found.as_slice()[next];
        search.mark_all(row_at(rows, place))?;
        next += 1;
    }
    let Search { marks, found: _ } = search;
    Ok(marks)
}
