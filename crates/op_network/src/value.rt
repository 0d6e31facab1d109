ghost use Rattle.std.specs.Prelude.{◌≡◌};
ghost use Rattle.op_network.specs.Values as spec;

/// The type of an edge's values. A choice is named by its place among the network's choices.
#[derive(Clone, Copy, Debug, PartialEq, Eq)]
pub enum Ty {
    Truth,
    Word,
    Choice(u32),
}

/// A value at an instant: a truth, a number, or the place of an enumerator.
#[derive(Clone, Copy, Debug, PartialEq, Eq)]
pub enum Value {
    Truth(bool),
    Word(i32),
    Choice(u8),
}

/// The default of a type: false, 0, or the first enumerator.
pub fn default(ty: Ty) -> Value
    ensures { result ≡ spec.default ty }
{
    match ty {
        Ty::Truth => Value::Truth(false),
        Ty::Word => Value::Word(0),
        Ty::Choice(_) => Value::Choice(0),
    }
}

/// Whether a value is the truth `true`.
pub fn is_true(value: Value) -> bool
    ensures { result ≡ spec.is_true value }
{
    match value {
        Value::Truth(truth) => truth,
        Value::Word(_) => false,
        Value::Choice(_) => false,
    }
}

/// The number of a word. Another value counts as 0.
pub(crate) fn number(value: Value) -> i32
    ensures { result ≡ spec.number value }
{
    match value {
        Value::Truth(_) => 0,
        Value::Word(number) => number,
        Value::Choice(_) => 0,
    }
}

/// Whether two values are one.
pub(crate) fn is_same(a: Value, b: Value) -> bool
    ensures { result ≡ spec.is_same a b }
{
    match (a, b) {
        (Value::Truth(a), Value::Truth(b)) => a == b,
        (Value::Word(a), Value::Word(b)) => a == b,
        (Value::Choice(a), Value::Choice(b)) => a == b,
        _ => false,
    }
}
