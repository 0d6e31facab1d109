ghost use Rattle.std.specs.Prelude.{◌≡◌, option_copied};
ghost use Rattle.op_network.specs.Operators.{form_of};
ghost use Rattle.activation.specs.Passing as spec;

use crate::tree::Gate;
use op_network::{Edge, EdgeId, Form, Op, Value, step_condition};

/// How activation passes a gate at an instant: not at all, from the prefix before it at the same
/// instant, or from there at the instant before.
#[derive(Clone, Copy, Debug, PartialEq, Eq)]
pub(crate) enum Passage {
    Shut,
    Now,
    Earlier,
}

/// Open at the instant itself, or shut.
fn passage_if(passes: bool) -> Passage
    ensures { result ≡ spec.passage_if passes }
{
    if passes { Passage::Now } else { Passage::Shut }
}

/// The passage through a port of an operator. `begun` tells whether the instant isn't the first.
/// In constant time.
fn passage_through(op: Op, port: u8, frame: &[Value], begun: bool) -> Passage
    ensures { result ≡ spec.passage_by (form_of op) port frame.now begun }
{
    match op.form() {
        Form::Arrow(_, _) => passage_if((port == 0) != begun),
        Form::Pre(_) => if begun {
            Passage::Earlier
        } else {
            Passage::Shut
        },
        _ => passage_if(step_condition(op, port, frame)),
    }
}

/// The passage into an edge, by a port or as the start of a path. In constant time.
fn passage_into(port: Option<u8>, edge: Option<&Edge>, frame: &[Value], begun: bool) -> Passage
    ensures { result ≡ spec.passage_into port (option_copied edge.entry) frame.now begun }
{
    match (port, edge) {
        (None, _) => Passage::Now,
        (Some(_), None) => Passage::Shut,
        (Some(port), Some(edge)) => passage_through(edge.op, port, frame, begun),
    }
}

/// Whether an edge has the truth that is asked of it, if one is. An edge without a value counts as
/// false. In constant time.
fn is_allowed(pin: Option<bool>, frame: &[Value], e: u32) -> bool
    ensures { result ≡ spec.is_allowed pin frame.now (record { 0 = e }) }
{
    let Some(truth) = pin else {
        return true;
    };
    match frame.get(e as usize) {
        Some(Value::Truth(value)) => *value == truth,
        Some(Value::Word(_)) => false,
        Some(Value::Choice(_)) => false,
        None => !truth,
    }
}

/// The passage of a gate at an instant with this frame. In constant time.
pub(crate) fn passage_of(edges: &[Edge], frame: &[Value], begun: bool, gate: Gate) -> Passage
    ensures { result ≡ spec.passage_of edges.now frame.now begun gate }
{
    if is_allowed(gate.pin, frame, gate.edge) {
        passage_into(gate.port, edges.get(gate.edge as usize), frame, begun)
    } else {
        Passage::Shut
    }
}
