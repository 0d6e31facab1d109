ghost use Rattle.std.specs.Prelude.{◌≡◌, ◌≤◌, false, slice_index_or, option_map};
ghost use Rattle.op_network.specs.Operators as spec;
ghost use Rattle.op_network.specs.Values.{is_true as is_true_of};

use crate::edge::{EdgeId, Op};
use crate::form::Form;
use crate::limits::{LEAST_WIDTH, MOST_WIDTH};
use crate::value::{Ty, Value, default, is_true};
use crate::values::{binary_value, if_value, unary_value};

/// The value at a place, or false where there is none.
fn value_at(values: &[Value], place: u32) -> Value
    ensures { result ≡ slice_index_or values.now place (Value.Truth false) }
{
    match values.get(place as usize) {
        Some(value) => *value,
        None => Value::Truth(false),
    }
}

/// Whether an edge is true.
pub(crate) fn holds(frame: &[Value], e: EdgeId) -> bool
    ensures { result ≡ is_true_of (spec.at_edge frame.now e) }
{
    is_true(value_at(frame, e.0))
}

/// The value of `pre a`: at instant 0 the default, and later what was at the instant before.
fn pre_value(before: Option<&[Value]>, ty: Ty, a: EdgeId) -> Value
    ensures { result ≡ spec.pre_value (option_map (λ frame. frame.now) before.entry) ty a }
{
    match before {
        Some(frame) => value_at(frame, a.0),
        None => default(ty),
    }
}

/// The value of `a -> b`: at instant 0 the first, and later the second.
fn arrow_value(before: Option<&[Value]>, a: Value, b: Value) -> Value
    ensures { result ≡ spec.arrow_value (option_map (λ frame. frame.now) before.entry) a b }
{
    match before {
        Some(_) => b,
        None => a,
    }
}

/// The value of an operator of a type at an instant, over the width of words, from the frame of the
/// instant before (none at instant 0), the frame of the instant and the values of the inputs. A
/// place that a frame lacks counts as false. In constant time.
pub fn operator_value(
    width: u32,
    op: Op,
    ty: Ty,
    before: Option<&[Value]>,
    now: &[Value],
    inputs: &[Value],
) -> Value
    requires narrowest { LEAST_WIDTH ≤ width }
    requires widest { width ≤ MOST_WIDTH }
    ensures { let past = option_map (λ frame. frame.now) before.entry in
        result ≡ spec.operator_value width op ty past now.now inputs.now }
{
    match op.form() {
        Form::Input(input) => value_at(inputs, input),
        Form::Const(value) => value,
        Form::One(op, a) => unary_value(width, op, value_at(now, a.0)),
        Form::Two(op, a, b) => binary_value(width, op, value_at(now, a.0), value_at(now, b.0)),
        Form::Ite(a, b, c) => if_value(value_at(now, a.0), value_at(now, b.0), value_at(now, c.0)),
        Form::Arrow(a, b) => arrow_value(before, value_at(now, a.0), value_at(now, b.0)),
        Form::Pre(a) => pre_value(before, ty, a),
    }
}
