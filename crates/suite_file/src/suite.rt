//! Suites: their records, one after the other.
ghost use Rattle.std.specs.Prelude.{◌≡◌, ◌≤◌, ◌<◌, ◌+◌, [], false, Ok, Err, None, length, nat_eq, IfOk, IfErr, OnOk};
ghost use Rattle.op_network.specs.Valid.{IsValid};
ghost use Rattle.suite_file.specs.Meaning.{AreRecordsOf};
ghost use Rattle.suite_file.specs.Reading.{unread, IsReading};
ghost use Rattle.suite_file.specs.Records.{fields, suite_records};
ghost use Rattle.suite_file.specs.Refusals.{MayRefuse};
ghost use Rattle.suite_file.specs.Steps.{IsKept, instants_of, tests_so_far};
ghost use Rattle.suite_file.specs.Suites.{has_ended as has_ended_in, name_in, with_record, tests_in, suite_of, AreOfSuite, IsFaultOf};

use crate::cells::read_cells;
use crate::fault::{SuiteFault, SuiteKind};
use crate::header::{Layout, read_header};
use crate::limits::MOST_INSTANTS;
use crate::progress::{Progress, add_instant, is_name};
use crate::rows::{field, next_row, reader_of, width};
use cov_base::List;
use csv::{ByteRecord, Reader};
use op_network::{Network, Parts, Test, Value};
use std::alloc::Global;

/// A fault of a record that is at no column.
fn bad(row: u32, kind: SuiteKind) -> SuiteFault
    ensures { result ≡ SuiteFault.Bad row 0 kind }
{
    SuiteFault::Bad {
        row,
        column: 0,
        kind,
    }
}

/// Whether a record of so many fields is as wide as a header with so many columns behind `test`.
#[tactic(auto, using(crate::proofs::Steps::wide, crate::proofs::Steps::narrow))]
fn is_as_wide(fields: usize, columns: usize) -> bool
    ensures { result ≡ nat_eq fields (columns + 1) }
{
    fields >= 1 && fields - 1 == columns
}

/// The name of a record's test, if the record is as wide as the header, the name is one, and its
/// test hasn't ended.
#[tactic(auto, using(crate::proofs::Steps::has_name, crate::proofs::Steps::bad_name, crate::proofs::Steps::split_test, crate::proofs::Steps::bad_width, crate::proofs::Steps::is_wide, crate::proofs::Places::none_at))]
fn name_of_record<'r>(
    layout: &Layout,
    number: u32,
    row: &'r ByteRecord,
    progress: &Progress,
) -> Result<&'r [u8], SuiteFault>
    requires { IsKept progress.now }
    ensures ok { IfOk result
        (λ name. name_in layout.now number progress.now.ended (fields row.now) ≡ Ok name.now) }
    ensures fresh { IfOk result (λ name. has_ended_in progress.now.ended name.now ≡ false) }
    ensures width { OnOk result (length (fields row.now) ≡ length layout.now.types + 1) }
    ensures err { IfErr result
        (λ e. name_in layout.now number progress.now.ended (fields row.now) ≡ Err e) }
{
    if !is_as_wide(width(row), layout.types.len()) {
        return Err(bad(number, SuiteKind::Width));
    }
    let Some(name) = field(row, 0) else {
        unreachable!()
    };
    if !is_name(name) {
        return Err(bad(number, SuiteKind::BadName));
    }
    if progress.has_ended(name) {
        return Err(bad(number, SuiteKind::SplitTest));
    }
    Ok(name)
}

/// Adds the instant of a record, whose number is given.
fn add_record(
    alloc: Global,
    parts: &Parts,
    layout: &Layout,
    number: u32,
    row: &ByteRecord,
    cells: &mut List<Value>,
    progress: &mut Progress,
) -> Result<(), SuiteFault>
    requires valid { IsValid parts.now }
    requires kept { IsKept progress.old }
    requires few { instants_of progress.old.current < number }
    ensures ok { OnOk result
        (with_record parts.now layout.now number (tests_so_far progress.old) (fields row.now)
        ≡ Ok (tests_so_far progress.new)) }
    ensures kept { OnOk result (IsKept progress.new) }
    ensures few { OnOk result (instants_of progress.new.current < number + 1) }
    ensures within { OnOk result (number ≤ MOST_INSTANTS) }
    ensures err { IfErr result (IsFaultOf
        (with_record parts.now layout.now number (tests_so_far progress.old) (fields row.now))) }
{
    let name = name_of_record(layout, number, row, progress)?;
    cells.cut(0);
    read_cells(parts, layout.types.as_slice(), number, row, cells)?;
    if progress.is_full(name) {
        return Err(SuiteFault::Tests);
    }
    if number > MOST_INSTANTS {
        return Err(SuiteFault::Instants);
    }
    let places = layout.places.as_slice();
    add_instant(alloc, progress, name, places, cells.as_slice())?;
    Ok(())
}

/// The tests of the records that a reader has yet to give. The record behind as many as there may
/// be instants is at fault, so that there is no later one to read.
fn read_tests(
    alloc: Global,
    parts: &Parts,
    layout: &Layout,
    reader: &mut Reader<&[u8]>,
    row: &mut ByteRecord,
) -> Result<List<Test>, SuiteFault>
    requires valid { IsValid parts.now }
    requires reading { IsReading reader.old }
    ensures ok { IfOk result
        (λ tests. tests_in parts.now layout.now (unread reader.old) ≡ Ok tests) }
    ensures err { IfErr result (IsFaultOf (tests_in parts.now layout.now (unread reader.old))) }
{
    let mut progress = Progress::new(alloc);
    let mut cells = List::new(alloc);
    for number in 1..MOST_INSTANTS + 2 {
        if !next_row(reader, row)? {
            progress.close(alloc)?;
            return Ok(progress.ended);
        }
        add_record(alloc, parts, layout, number, row, &mut cells, &mut progress)?;
    }
    unreachable!()
}

/// The tests that the text holds, in the order of the text, or its first fault.
///
/// Faults come record by record. `NoHeader` is the answer where there is no record. In the header,
/// which is record 0, `NoTestColumn` is asked first, then column by column `UnknownColumn` and
/// `RepeatedColumn`, and then `MissingColumn`. In each later record it is `Width`, `BadName`,
/// `SplitTest`, then column by column `BadValue`, then `Tests` and then `Instants`: `Tests` at the
/// first record of the test behind `MOST_TESTS` tests, and `Instants` at the record behind
/// `MOST_INSTANTS` records of instants. `Memory` may come at any time.
///
/// The cost is linear in the bytes, besides a logarithmic number of comparisons of names for each
/// record that begins a test. Memory is that of the tests and of their names once more.
#[tactic(auto, using(crate::proofs::Refusing::may_refuse))]
pub fn read_suite(alloc: Global, bytes: &[u8], net: &Network) -> Result<List<Test>, SuiteFault>
    ensures ok { IfOk result (λ tests. suite_of net.now bytes.now ≡ Ok tests) }
    ensures means { IfOk result (AreRecordsOf net.now (suite_records bytes.now)) }
    ensures fits { IfOk result (AreOfSuite net.now) }
    ensures err { IfErr result (IsFaultOf (suite_of net.now bytes.now)) }
    ensures refused { IfErr result (MayRefuse net.now (suite_records bytes.now)) }
{
    let parts = net.parts();
    let mut reader = reader_of(alloc, bytes);
    let mut row = ByteRecord::new(alloc);
    if !next_row(&mut reader, &mut row)? {
        return Err(bad(0, SuiteKind::NoHeader));
    }
    let layout = read_header(alloc, parts, &row)?;
    read_tests(alloc, parts, &layout, &mut reader, &mut row)
}
