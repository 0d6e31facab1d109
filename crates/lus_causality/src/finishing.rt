use crate::marks::no_marks;
use crate::readers::{Read, Readers};
use cov_base::{List, Memory};
use op_network::EdgeId;
use std::alloc::Global;

/// A walk in depth over the reads of a network: the edges under way, of each edge the read that is
/// next, the edges met, and those whose reads are past.
#[derive(Drop)]
struct Walk {
    path: List<EdgeId>,
    next: List<Option<usize>>,
    met: List<bool>,
    finished: List<EdgeId>,
}

/// Puts an edge on the path, if it wasn't met.
fn meet(walk: &mut Walk, e: EdgeId) -> Result<(), Memory> {
    let place = e.0 as usize;
    if place < walk.met.len() && !walk.met.as_slice()[place] {
        walk.met.items_mut()[place] = true;
        walk.path.add(e)?;
    }
    Ok(())
}

/// The next read of an edge, which then is past.
fn next_read(reads: &[Read], next: &mut List<Option<usize>>, e: EdgeId) -> Option<EdgeId> {
    let place = e.0 as usize;
    if place >= next.len() {
        return None;
    }
    let read = next.as_slice()[place]?;
    if read >= reads.len() {
        return None;
    }
    let Read {
        reader,
        next: later,
    } = reads[read];
    next.items_mut()[place] = later;
    Some(reader)
}

/// Goes on to a reader of the last edge on the path, or back where all its reads are past. Where
/// the path is empty a new one begins at the root.
fn go_on(reads: &[Read], walk: &mut Walk, root: EdgeId) -> Result<EdgeId, Memory> {
    match walk.path.as_slice().last().copied() {
        None => {
            meet(walk, root)?;
            Ok(EdgeId(root.0.saturating_add(1)))
        }
        Some(e) => {
            match next_read(reads, &mut walk.next, e) {
                Some(reader) => meet(walk, reader)?,
                None => {
                    let rest = walk.path.len().saturating_sub(1);
                    walk.path.cut(rest);
                    walk.finished.add(e)?;
                }
            }
            Ok(root)
        }
    }
}

/// The edges in the order in which a walk in depth from edge to reader finishes with them. From the
/// end, each edge that lies on no cycle comes before its readers, and some edge of each cycle
/// before all others to which it leads. Linear. No contract rests on the order.
pub(crate) fn finishing_order(
    alloc: Global,
    readers: &Readers,
    count: usize,
) -> Result<List<EdgeId>, Memory> {
    let mut next = List::new(alloc);
    next.extend_from_slice(readers.first.as_slice())?;
    let mut walk = Walk {
        path: List::new(alloc),
        next,
        met: no_marks(alloc, count)?,
        finished: List::new(alloc),
    };
    let mut root = EdgeId(0);
    let steps = count.saturating_mul(2).saturating_add(readers.reads.len());
    for _step in 0..steps {
        root = go_on(readers.reads.as_slice(), &mut walk, root)?;
    }
    Ok(walk.finished)
}
