//! What is kept of a test's run.
ghost use Rattle.std.specs.Prelude.{◌≡◌, ◌<◌, ◌≤◌, false, length, option_map, position, slice_get, slice_index_or};
ghost use Rattle.std.specs.List.{All};
ghost use Rattle.score_table.specs.declared.row.TestRow.{TestRow as Row};
ghost use Rattle.score_table.specs.Rows.{union_of};

use crate::limits::MOST_TESTS;
use cov_base::BitRow;

/// Which obligations the run of a test covers, and how many of the test's instants count.
#[derive(Drop)]
pub(crate) struct TestRow {
    pub(crate) covered: BitRow,
    pub(crate) kept: u32,
}

/// Makes a bit true for each obligation that a row has, and the others false. Linear in the number
/// of rows times that of the obligations, 64 at a time.
pub(crate) fn unite(covered: &mut BitRow, rows: &[TestRow])
    requires { All (λ (row : Row). length row.covered ≡ length covered.old) rows.now }
    ensures { covered.new ≡ union_of (length covered.old) rows.now }
{
    covered.clear();
    for row in rows {
        covered.or_with(&row.covered);
    }
}

/// The place of the first row that has an obligation. Linear in the number of rows.
pub(crate) fn first_with(rows: &[TestRow], o: u32) -> Option<u32>
    requires few { length rows.now ≤ MOST_TESTS }
    requires within { All (λ (row : Row). o < length row.covered) rows.now }
    ensures { result ≡ position (λ (row : Row). slice_index_or row.covered o false) rows.now }
{
    for (place, row) in rows.iter().enumerate() {
        if row.covered.get(o) {
            return Some(place as u32);
        }
    }
    None
}

/// How many instants count, by the row at a place. In constant time.
pub(crate) fn kept_at(rows: &[TestRow], i: u32) -> u32
    requires { i < length rows.now }
    ensures { (row : Row) → slice_get rows.now i ≡ Some row → result ≡ row.kept }
{
    rows[i as usize].kept
}
