//! The header of a suite.
ghost use Rattle.std.specs.Prelude.{◌≡◌, ◌<◌, ◌≤◌, ◌+◌, [], ◌∷◌, ◌++◌, Ok, Some, None, map, drop, length, IfOk, IfErr, OnOk};
ghost use Rattle.op_network.specs.Valid.{IsValid};
ghost use Rattle.csv.specs.Records.{field_count};
ghost use Rattle.suite_file.specs.Records.{fields};
ghost use Rattle.suite_file.specs.NameTables.{IsTableOf};
ghost use Rattle.suite_file.specs.Steps.{IsColumnFault};
ghost use Rattle.suite_file.specs.Suites.{name_of as name_at, type_at as type_of_edge, inputs_of, column_fault, columns_in, with_column, is_test, places_in, types_of, layout_of, IsFaultOf};

use crate::fault::{SuiteFault, SuiteKind};
use crate::names::NameTable;
use crate::rows::{field, width};
use crate::values::is;
use cov_base::{List, Memory};
use csv::ByteRecord;
use op_network::{Edge, EdgeId, Parts, Ty};
use std::alloc::Global;

/// What a header says: the type of each column behind `test`, and the column of each input, both
/// from 0.
#[derive(Drop)]
pub(crate) struct Layout {
    pub types: List<Ty>,
    pub places: List<u32>,
}

/// The name of an edge.
pub(crate) fn name_of(edges: &[Edge], e: EdgeId) -> &[u8]
    ensures { result.now ≡ name_at edges.now e }
{
    match edges.get(e.0 as usize) {
        Some(edge) => edge.name.bytes(),
        None => b"",
    }
}

/// The type of an edge.
pub(crate) fn type_at(edges: &[Edge], e: u32) -> Ty
    ensures { result ≡ type_of_edge edges.now e }
{
    match edges.get(e as usize) {
        Some(edge) => edge.ty,
        None => Ty::Truth,
    }
}

/// The names of the inputs, with their edges.
#[tactic(auto, using(crate::proofs::Tables::splits_start, crate::proofs::Tables::splits_more, crate::proofs::Tables::splits_end))]
fn table_of_inputs(alloc: Global, parts: &Parts) -> Result<NameTable, Memory>
    ensures { IfOk result (λ table. IsTableOf (inputs_of parts.now) table) }
{
    let mut table = NameTable::new(alloc);
    for e in parts.inputs.as_slice() {
        let _new = table.add(alloc, name_of(parts.edges.as_slice(), *e), e.0)?;
    }
    Ok(table)
}

/// A column's number, for which there is always room in a file that memory holds.
pub(crate) fn column_number(c: usize) -> Result<u32, Memory>
    ensures { IfOk result (λ column. column ≡ c) }
{
    match u32::try_from(c) {
        Ok(column) => Ok(column),
        Err(_) => Err(Memory),
    }
}

/// Adds a column, whose type goes behind the types of those before it.
fn add_column(
    alloc: Global,
    parts: &Parts,
    inputs: &NameTable,
    c: usize,
    name: &[u8],
    columns: &mut NameTable,
    types: &mut List<Ty>,
) -> Result<(), SuiteFault>
    requires table { IsTableOf (inputs_of parts.now) inputs.now }
    requires place { c ≡ length columns.old + 1 }
    requires types { types.old ≡ types_of parts.now columns.old }
    ensures types { OnOk result (types.new ≡ types_of parts.now columns.new) }
    ensures none { OnOk result (column_fault (inputs_of parts.now) columns.old name.now ≡ None) }
    ensures added { OnOk result (columns.new ≡ with_column columns.old name.now) }
    ensures err { IfErr result (IsColumnFault
        (column_fault (inputs_of parts.now) columns.old name.now) c) }
{
    let column = column_number(c)?;
    match inputs.number(name) {
        None => Err(SuiteFault::Bad {
            row: 0,
            column,
            kind: SuiteKind::UnknownColumn,
        }),
        Some(edge) => {
            if !columns.add(alloc, name, column - 1)? {
                return Err(SuiteFault::Bad {
                    row: 0,
                    column,
                    kind: SuiteKind::RepeatedColumn,
                });
            }
            types.add(type_at(parts.edges.as_slice(), edge))?;
            Ok(())
        }
    }
}

/// The columns behind `test`, with the numbers of their places from 0, and their types.
#[tactic(auto, using(crate::proofs::Places::found_at, crate::proofs::Places::none_at, crate::proofs::Columns::column_more, crate::proofs::Columns::column_refused))]
fn read_columns(
    alloc: Global,
    parts: &Parts,
    row: &ByteRecord,
    types: &mut List<Ty>,
) -> Result<NameTable, SuiteFault>
    requires { types.old ≡ [] }
    ensures types { IfOk result (λ columns. types.new ≡ types_of parts.now columns) }
    ensures ok { IfOk result (λ columns. columns_in parts.now (fields row.now) ≡ Ok columns) }
    ensures err { IfErr result (IsFaultOf (columns_in parts.now (fields row.now))) }
{
    let inputs = table_of_inputs(alloc, parts)?;
    let mut columns = NameTable::new(alloc);
    for c in 1..width(row) {
        let Some(name) = field(row, c) else {
            unreachable!()
        };
        add_column(alloc, parts, &inputs, c, name, &mut columns, types)?;
    }
    Ok(columns)
}

/// The column of each input.
fn places_of(alloc: Global, parts: &Parts, columns: &NameTable) -> Result<List<u32>, SuiteFault>
    ensures ok { IfOk result (λ places. places_in parts.now columns.now ≡ Ok places) }
    ensures err { IfErr result (IsFaultOf (places_in parts.now columns.now)) }
{
    let mut places = List::new(alloc);
    for e in parts.inputs.as_slice() {
        match columns.number(name_of(parts.edges.as_slice(), *e)) {
            Some(place) => places.add(place)?,
            None => {
                return Err(SuiteFault::Bad {
                    row: 0,
                    column: 0,
                    kind: SuiteKind::MissingColumn,
                });
            }
        }
    }
    Ok(places)
}

/// Whether the first field is `test`.
#[tactic(auto, using(crate::proofs::Columns::test_first, crate::proofs::Columns::no_test))]
fn begins_with_test(row: &ByteRecord) -> bool
    ensures { result ≡ is_test (fields row.now) }
{
    match field(row, 0) {
        Some(name) => is(name, b"test"),
        None => false,
    }
}

/// The layout that a header gives.
pub(crate) fn read_header(
    alloc: Global,
    parts: &Parts,
    row: &ByteRecord,
) -> Result<Layout, SuiteFault>
    ensures ok { IfOk result (λ layout. layout_of parts.now (fields row.now) ≡ Ok layout) }
    ensures err { IfErr result (IsFaultOf (layout_of parts.now (fields row.now))) }
{
    if !begins_with_test(row) {
        return Err(SuiteFault::Bad {
            row: 0,
            column: 0,
            kind: SuiteKind::NoTestColumn,
        });
    }
    let mut types = List::new(alloc);
    let columns = read_columns(alloc, parts, row, &mut types)?;
    let places = places_of(alloc, parts, &columns)?;
    Ok(Layout { types, places })
}
