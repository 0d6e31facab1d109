ghost use Rattle.std.specs.Prelude.{◌≡◌, ◌<◌, ◌≤◌, ◌↔◌, ◌*◌, ◌+◌, ℕ, length, slice_get, IsTrue, All};
ghost use Rattle.op_network.specs.declared.edge.EdgeId.{EdgeId as Id};
ghost use Rattle.op_network.specs.declared.value.Ty.{Ty as TyValue};
ghost use Rattle.op_network.specs.Run.{rows};
ghost use Rattle.op_network.specs.Valid.{type_of as type_at, HasType, FitsInput, FitsRow, FitsTest};

use crate::edge::{EdgeId, Parts};
use crate::limits::{LEAST_WIDTH, MOST_WIDTH};
use crate::test::Test;
use crate::valid::{has_type, type_of};
use crate::value::Value;

/// Whether a value is of the type of an input.
fn fits_input(parts: &Parts, input: EdgeId, value: Value) -> bool
    requires narrowest { LEAST_WIDTH ≤ parts.now.width }
    requires widest { parts.now.width ≤ MOST_WIDTH }
    ensures { IsTrue result ↔ FitsInput parts.now input value }
{
    match type_of(parts.edges.as_slice(), input) {
        Some(ty) => has_type(parts, value, ty),
        None => true,
    }
}

/// Whether a row has a value of each input's type.
fn fits_row(parts: &Parts, row: &[Value]) -> bool
    requires narrowest { LEAST_WIDTH ≤ parts.now.width }
    requires widest { parts.now.width ≤ MOST_WIDTH }
    ensures { IsTrue result ↔ FitsRow parts.now row.now }
{
    let inputs = parts.inputs.as_slice();
    row.len() == inputs.len()
        && inputs
            .iter()
            .zip(row)
            .all(|(input, value)| fits_input(parts, *input, *value))
}

/// Whether a number of values is that of so many rows.
fn is_size(len: usize, instants: u32, width: usize) -> bool
    ensures { IsTrue result ↔ (len ≡ instants * width) }
{
    (instants as usize).checked_mul(width) == Some(len)
}

/// Whether each row of the values fits.
fn fit_rows(parts: &Parts, instants: u32, values: &[Value]) -> bool
    requires narrowest { LEAST_WIDTH ≤ parts.now.width }
    requires widest { parts.now.width ≤ MOST_WIDTH }
    requires size { length values.now ≡ instants * length parts.now.inputs }
    ensures { IsTrue result
        ↔ All (FitsRow parts.now) (rows (length parts.now.inputs) instants values.now) }
{
    let width = parts.inputs.len();
    if width == 0 {
        return true;
    }
    let mut rest = values;
    for _instant in 0..instants {
        let (row, later) = rest.split_at(width);
        if !fits_row(parts, row) {
            return false;
        }
        rest = later;
    }
    true
}

/// Whether a test has at least one instant, and at each a value of each input's type.
pub(crate) fn fits(parts: &Parts, test: &Test) -> bool
    requires narrowest { LEAST_WIDTH ≤ parts.now.width }
    requires widest { parts.now.width ≤ MOST_WIDTH }
    ensures { IsTrue result ↔ FitsTest parts.now test.now }
{
    let values = test.values.as_slice();
    if test.instants == 0 {
        return false;
    }
    if !is_size(values.len(), test.instants, parts.inputs.len()) {
        return false;
    }
    fit_rows(parts, test.instants, values)
}
