ghost use Rattle.std.specs.Prelude.{◌≡◌, ◌<◌, true, [], length, slice_index_or, slice_set};
ghost use Rattle.omcdc_tags.specs.Rows.{Adds};
ghost use Rattle.omcdc_tags.specs.Tags.{has_bit};

use cov_base::{BitRow, List};
use std::mem;

/// Adds the bits of another row.
#[tactic(auto, using(crate::proofs::BitSets::adds_row))]
pub(crate) fn add_row(work: &mut BitRow, row: &BitRow)
    requires { length work.old ≡ length row.now }
    ensures { Adds work.old work.new (λ k. has_bit row.now k ≡ true) }
{
    work.or_with(row);
}

/// Adds a bit of another row.
pub(crate) fn add_bit(work: &mut BitRow, row: &BitRow, i: u32)
    requires size { length work.old ≡ length row.now }
    requires within { i < length row.now }
    ensures { Adds work.old work.new (λ k. (k ≡ i) × (has_bit row.now k ≡ true)) }
{
    if row.get(i) {
        work.set(i);
    }
}

/// Adds a bit where this is asked.
pub(crate) fn add_if(row: &mut BitRow, i: u32, asked: bool)
    requires { i < length row.old }
    ensures { Adds row.old row.new (λ k. (k ≡ i) × (asked ≡ true)) }
{
    if asked {
        row.set(i);
    }
}

/// Puts a row at a place of a table, and takes out the one that was there.
pub(crate) fn put_row(rows: &mut List<BitRow>, place: usize, row: &mut BitRow)
    requires { place < length rows.old }
    ensures rows { rows.new ≡ slice_set rows.old place row.old }
    ensures row { row.new ≡ slice_index_or rows.old place [] }
{
    mem::swap(&mut rows.items_mut()[place], row);
}
