//! The values of one record.
ghost use Rattle.std.specs.Prelude.{◌≡◌, ◌≤◌, ◌+◌, [], ◌++◌, Ok, drop, length, map, get_or, false, IfErr, OnOk};
ghost use Rattle.op_network.specs.Valid.{IsValid};
ghost use Rattle.op_network.specs.declared.value.Value.TheVariants.{Truth};
ghost use Rattle.suite_file.specs.Records.{fields};
ghost use Rattle.suite_file.specs.Suites.{cells_in, arranged, IsFaultOf};

use crate::fault::{SuiteFault, SuiteKind};
use crate::header::column_number;
use crate::rows::field;
use crate::values::value_of;
use cov_base::{List, Memory};
use csv::ByteRecord;
use op_network::{Parts, Ty, Value};

/// The values of the fields behind the name, each of its column's type.
#[tactic(auto, using(crate::proofs::CellSteps::cell_more, crate::proofs::CellSteps::cell_refused, crate::proofs::Places::none_at))]
pub(crate) fn read_cells(
    parts: &Parts,
    types: &[Ty],
    number: u32,
    row: &ByteRecord,
    cells: &mut List<Value>,
) -> Result<(), SuiteFault>
    requires valid { IsValid parts.now }
    requires width { length (fields row.now) ≡ length types.now + 1 }
    requires empty { cells.old ≡ [] }
    ensures ok { OnOk result (cells_in parts.now types.now number (fields row.now) ≡ Ok cells.new) }
    ensures err { IfErr result (IsFaultOf (cells_in parts.now types.now number (fields row.now))) }
{
    for i in 0..types.len() {
        let c = i + 1;
        let column = column_number(c)?;
        let Some(text) = field(row, c) else {
            unreachable!()
        };
        let Some(value) = value_of(parts, types[i], text) else {
            return Err(SuiteFault::Bad {
                row: number,
                column,
                kind: SuiteKind::BadValue,
            });
        };
        cells.add(value)?;
    }
    Ok(())
}

/// The value of a cell.
fn cell(cells: &[Value], place: u32) -> Value
    ensures { result ≡ get_or cells.now place (Truth false) }
{
    match cells.get(place as usize) {
        Some(value) => *value,
        None => Value::Truth(false),
    }
}

/// Adds the values of the inputs in their order, of which these are the columns.
pub(crate) fn arrange(
    places: &[u32],
    cells: &[Value],
    values: &mut List<Value>,
) -> Result<(), Memory>
    ensures { OnOk result (values.new ≡ values.old ++ arranged places.now cells.now) }
{
    for place in places {
        values.add(cell(cells, *place))?;
    }
    Ok(())
}
