ghost use Rattle.std.specs.Prelude.{◌≡◌};
ghost use Rattle.op_network.specs.Operators as spec;

use crate::edge::Op;
use crate::form::{Binary, Form};
use crate::run::holds;
use crate::value::Value;

/// Whether a step through a port of an operator with two operands is active where these are the
/// truths of its operands.
fn binary_step(op: Binary, port: u8, a: bool, b: bool) -> bool
    ensures { result ≡ spec.binary_step op port a b }
{
    match op {
        Binary::And => if port == 0 { !a || b } else { !b || a },
        Binary::Or => if port == 0 { a || !b } else { b || !a },
        Binary::Imp => if port == 0 { !a || !b } else { b || a },
        _ => true,
    }
}

/// Whether the other operand of an operator with two operands hides none of a port's tags, where
/// these are the truths of its operands.
fn is_binary_unmasked(op: Binary, port: u8, a: bool, b: bool) -> bool
    ensures { result ≡ spec.is_binary_unmasked op port a b }
{
    match op {
        Binary::And => if port == 0 { b } else { a },
        Binary::Or => if port == 0 { !b } else { !a },
        Binary::Imp => if port == 0 { !b } else { a },
        _ => true,
    }
}

/// Whether `if` chooses a port, where this is the truth of its first operand. Port 0 always counts.
fn is_chosen(port: u8, a: bool) -> bool
    ensures { result ≡ spec.is_chosen port a }
{
    match port {
        0 => true,
        1 => a,
        _ => !a,
    }
}

/// Whether a step through a port of an operator is active at the instant of a frame. The ports of
/// `Arrow` and `Pre` are always active here: their condition is on the instant itself. In
/// constant time.
pub fn step_condition(op: Op, port: u8, frame: &[Value]) -> bool
    ensures { result ≡ spec.step_condition op port frame.now }
{
    match op.form() {
        Form::Two(op, a, b) => binary_step(op, port, holds(frame, a), holds(frame, b)),
        Form::Ite(a, _, _) => is_chosen(port, holds(frame, a)),
        _ => true,
    }
}

/// Whether a tag passes a port of an operator at instant `t`, which has this frame: no other
/// operand hides it. Through `Pre` it always passes, to the next instant. In constant time.
pub fn is_unmasked(op: Op, port: u8, frame: &[Value], t: u32) -> bool
    ensures { result ≡ spec.is_unmasked op port frame.now t }
{
    match op.form() {
        Form::Two(op, a, b) => is_binary_unmasked(op, port, holds(frame, a), holds(frame, b)),
        Form::Ite(a, _, _) => is_chosen(port, holds(frame, a)),
        Form::Arrow(_, _) => (port == 0) == (t == 0),
        _ => true,
    }
}
