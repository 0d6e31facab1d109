//! The tests that are kept.
ghost use Rattle.std.specs.Prelude.{ℕ, List as Seq, ◌≡◌, ◌≤◌, ◌<◌, ◌+◌, ◌∷◌, ◌++◌, [], None, true, if◌then◌else◌, length, position, remove, vec_len, vec_capacity, IfOk, IfErr, OnOk, OnErr};
ghost use Rattle.std.specs.Str.{bytes_eq};
ghost use Rattle.dep_paths.specs.Duties.{Planned};
ghost use Rattle.op_network.specs.declared.edge.Parts.{Parts};
ghost use Rattle.op_network.specs.Valid.{FitsTest};
ghost use Rattle.score_table.specs.Rows.{AreKept, IsRowOf};
ghost use Rattle.score_table.specs.Names.{holds};
ghost use Rattle.score_table.specs.Tables.{first_refusal as refusal_of, has_name, instants_of, is_kept};

use crate::fault::AddCause;
use crate::limits::{MOST_INSTANTS, MOST_TESTS};
use crate::names::{drop_name, keep_name};
use crate::row::{TestRow, unite};
use cov_base::{BitRow, Memory};
use op_network::Test;
use std::alloc::Global;
use std::collections::BTreeSet;

/// The tests, with what is kept of their runs: a row for each test, their names, the obligations
/// that a row has, and the sum of their instants.
#[derive(Drop)]
pub(crate) struct Kept {
    pub(crate) tests: Vec<Test>,
    pub(crate) rows: Vec<TestRow>,
    pub(crate) names: BTreeSet<Vec<u8>>,
    pub(crate) covered: BitRow,
    pub(crate) instants: u32,
}

/// No tests, for so many obligations.
pub(crate) fn keep_none(alloc: Global, count: u32) -> Result<Kept, Memory>
    ensures tests { IfOk result (λ kept. kept.tests.items ≡ []) }
    ensures kept { IfOk result (λ kept. (parts : Parts) (plan : Planned) →
        length plan.duties ≡ count → AreKept parts plan kept) }
{
    Ok(Kept {
        tests: Vec::new(alloc),
        rows: Vec::new(alloc),
        names: BTreeSet::new(alloc),
        covered: BitRow::new(alloc, count)?,
        instants: 0,
    })
}

/// Why a test can't be kept beside the others, if so. The cost is logarithmic in the number of
/// tests.
pub(crate) fn first_refusal(kept: &Kept, test: &Test) -> Option<AddCause>
    requires names { (name : Seq ℕ) →
        holds kept.now.names name ≡ is_kept kept.now.tests.items name }
    requires instants { kept.now.instants ≡ instants_of kept.now.tests.items }
    ensures { result ≡ refusal_of kept.now.tests.items test.now }
{
    if kept.names.contains(test.name.bytes()) {
        return Some(AddCause::AlreadyKept);
    }
    if kept.tests.len() >= MOST_TESTS {
        return Some(AddCause::Full);
    }
    if u64::from(kept.instants) + u64::from(test.instants) > u64::from(MOST_INSTANTS) {
        return Some(AddCause::Instants);
    }
    None
}

/// Puts an item last where there is room.
fn put_last<T: Drop>(items: &mut Vec<T>, item: T)
    requires { vec_len items.old < vec_capacity items.old }
    ensures { items.new.items ≡ items.old.items ++ item ∷ [] }
{
    let Ok(()) = items.push(item) else {
        unreachable!()
    };
}

/// Takes the memory for one more test of a name, and keeps the name. Answers `Memory` for want of
/// it: then nothing changes.
fn make_room(alloc: Global, kept: &mut Kept, name: &[u8]) -> Result<(), Memory>
    ensures tests { kept.new.tests.items ≡ kept.old.tests.items }
    ensures rows { kept.new.rows.items ≡ kept.old.rows.items }
    ensures covered { kept.new.covered ≡ kept.old.covered }
    ensures instants { kept.new.instants ≡ kept.old.instants }
    ensures room { OnOk result (vec_len kept.new.tests < vec_capacity kept.new.tests) }
    ensures room_for_row { OnOk result (vec_len kept.new.rows < vec_capacity kept.new.rows) }
    ensures names { OnOk result ((other : Seq ℕ) →
        holds kept.new.names other
        ≡ (if bytes_eq name.now other then true else holds kept.old.names other)) }
    ensures err { OnErr result ((other : Seq ℕ) →
        holds kept.new.names other ≡ holds kept.old.names other) }
{
    kept.tests.reserve(1)?;
    kept.rows.reserve(1)?;
    keep_name(alloc, &mut kept.names, name)
}

/// Keeps one more test, which goes last. Hands it back for want of memory: then the tests are as
/// before.
pub(crate) fn append(alloc: Global, kept: &mut Kept, test: Test, row: TestRow) -> Result<(), Test>
    requires accepted { refusal_of kept.old.tests.items test ≡ None }
    requires size { length row.covered ≡ length kept.old.covered }
    requires sum { kept.old.instants ≡ instants_of kept.old.tests.items }
    ensures ok { OnOk result (kept.new.tests.items ≡ kept.old.tests.items ++ test ∷ []) }
    ensures err { OnErr result (kept.new.tests.items ≡ kept.old.tests.items) }
    ensures returned { IfErr result (λ back. back ≡ test) }
    ensures kept { OnOk result ((parts : Parts) (plan : Planned) → AreKept parts plan kept.old →
        FitsTest parts test → IsRowOf parts plan test row → AreKept parts plan kept.new) }
    ensures same { OnErr result ((parts : Parts) (plan : Planned) → AreKept parts plan kept.old →
        AreKept parts plan kept.new) }
{
    let Ok(()) = make_room(alloc, kept, test.name.bytes()) else {
        return Err(test);
    };
    kept.covered.or_with(&row.covered);
    kept.instants += test.instants;
    put_last(&mut kept.rows, row);
    put_last(&mut kept.tests, test);
    Ok(())
}

/// The place of the test of a name. Linear in the number of tests.
pub(crate) fn place_of(tests: &[Test], name: &[u8]) -> Option<usize>
    ensures { result ≡ position (has_name name.now) tests.now }
{
    tests.iter().position(|test| test.name.bytes() == name)
}

/// Takes the test at a place out. The others close up. Linear in the number of tests times that of
/// the obligations, 64 at a time.
pub(crate) fn take_out(kept: &mut Kept, place: usize)
    requires within { place < vec_len kept.old.tests }
    requires some { (parts : Parts) × (plan : Planned) × AreKept parts plan kept.old }
    ensures tests { kept.new.tests.items ≡ remove kept.old.tests.items place }
    ensures kept { (parts : Parts) (plan : Planned) → AreKept parts plan kept.old →
        AreKept parts plan kept.new }
{
    let test = kept.tests.remove(place);
    let _row = kept.rows.remove(place);
    drop_name(&mut kept.names, test.name.bytes());
    kept.instants -= test.instants;
    unite(&mut kept.covered, kept.rows.as_slice());
}
