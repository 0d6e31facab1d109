ghost use Rattle.std.specs.Prelude.{◌≡◌, ◌≤◌};
ghost use Rattle.op_network.specs.Operators as spec;

use crate::form::{Binary, Unary};
use crate::limits::{LEAST_WIDTH, MOST_WIDTH};
use crate::value::{Value, is_same, is_true, number};
use crate::word::wrap;

/// The value of an operator with one operand, over the operand's value and the width of words. A
/// word counts as false and a truth as 0. In constant time.
pub fn unary_value(width: u32, op: Unary, a: Value) -> Value
    requires narrowest { LEAST_WIDTH ≤ width }
    requires widest { width ≤ MOST_WIDTH }
    ensures { result ≡ spec.unary_value width op a }
{
    match op {
        Unary::Id => a,
        Unary::Not => Value::Truth(!is_true(a)),
        Unary::Neg => Value::Word(wrap(-i64::from(number(a)), width)),
    }
}

/// The value of an operator with two operands, over their values and the width of words. A word
/// counts as false and a truth as 0. In constant time.
pub fn binary_value(width: u32, op: Binary, a: Value, b: Value) -> Value
    requires narrowest { LEAST_WIDTH ≤ width }
    requires widest { width ≤ MOST_WIDTH }
    ensures { result ≡ spec.binary_value width op a b }
{
    match op {
        Binary::And => Value::Truth(is_true(a) && is_true(b)),
        Binary::Or => Value::Truth(is_true(a) || is_true(b)),
        Binary::Xor => Value::Truth(is_true(a) != is_true(b)),
        Binary::Imp => Value::Truth(!is_true(a) || is_true(b)),
        Binary::Eq => Value::Truth(is_same(a, b)),
        Binary::Ne => Value::Truth(!is_same(a, b)),
        Binary::Lt => Value::Truth(number(a) < number(b)),
        Binary::Le => Value::Truth(number(a) <= number(b)),
        Binary::Gt => Value::Truth(number(a) > number(b)),
        Binary::Ge => Value::Truth(number(a) >= number(b)),
        Binary::Add => Value::Word(wrap(i64::from(number(a)) + i64::from(number(b)), width)),
        Binary::Sub => Value::Word(wrap(i64::from(number(a)) - i64::from(number(b)), width)),
        Binary::Mul => Value::Word(wrap(i64::from(number(a)) * i64::from(number(b)), width)),
    }
}

/// The value of `if a then b else c`. In constant time.
pub fn if_value(a: Value, b: Value, c: Value) -> Value
    ensures { result ≡ spec.if_value a b c }
{
    if is_true(a) { b } else { c }
}
