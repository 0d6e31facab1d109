//! The texts of obligations.
ghost use Rattle.std.specs.Prelude.{◌≡◌, ◌<◌, ◌++◌, OnErr, OnOk, length};
ghost use Rattle.std.specs.Io.{StartsWith};
ghost use Rattle.dep_paths.specs.Activation.{first_pin as pin_of_first};
ghost use Rattle.cov_report.specs.Duties as spec;
ghost use Rattle.cov_report.specs.Duties.{asked_text, condition_at, duty_at, path_at, path_text};
ghost use Rattle.cov_report.specs.Duties.{pin_text, port_text, step_text, truth_text};

use crate::names::{edge_name, push_criterion};
use crate::undo::whole_or_none;
use cov_base::{List, Memory, push_decimal};
use dep_paths::{Obligation, Path, Pin, Plan, Step};
use op_network::{Edge, EdgeId, Network};

/// A port of an edge: its name, and the number of the port.
#[tactic(auto, using(crate::proofs::Starts::starts))]
fn push_port(text: &mut List<u8>, edges: &[Edge], e: EdgeId, port: u8) -> Result<(), Memory>
    ensures ok { OnOk result (text.new ≡ text.old ++ port_text edges.now e port) }
    ensures kept { StartsWith text.new text.old }
{
    text.extend_from_slice(edge_name(edges, e))?;
    text.extend_from_slice(b":")?;
    push_decimal(text, i64::from(port))
}

/// A step: its edge and its port.
#[tactic(auto, using(crate::proofs::Starts::starts))]
fn push_step(text: &mut List<u8>, edges: &[Edge], step: Step) -> Result<(), Memory>
    ensures ok { OnOk result (text.new ≡ text.old ++ step_text edges.now step) }
    ensures kept { StartsWith text.new text.old }
{
    text.extend_from_slice(b" > ")?;
    push_port(text, edges, step.edge, step.port)
}

/// A path: the name of its first edge, and its steps.
#[tactic(auto, using(crate::proofs::Starts::starts))]
fn push_path(text: &mut List<u8>, edges: &[Edge], path: &Path) -> Result<(), Memory>
    ensures ok { OnOk result (text.new ≡ text.old ++ path_text edges.now path.now) }
    ensures kept { StartsWith text.new text.old }
{
    text.extend_from_slice(edge_name(edges, path.start))?;
    for step in path.steps.as_slice() {
        push_step(text, edges, *step)?;
    }
    Ok(())
}

/// The path at a place of a plan, and nothing where there is none.
#[tactic(auto, using(crate::proofs::Starts::starts))]
fn push_path_at(text: &mut List<u8>, edges: &[Edge], plan: &Plan, place: u32) -> Result<(), Memory>
    ensures ok { OnOk result (text.new ≡ text.old ++ path_at edges.now plan.now place) }
    ensures kept { StartsWith text.new text.old }
{
    match plan.paths().get(place as usize) {
        Some(path) => push_path(text, edges, path),
        None => Ok(()),
    }
}

/// The condition at a place of a plan, and nothing where there is none.
#[tactic(auto, using(crate::proofs::Starts::starts))]
fn push_condition_at(
    text: &mut List<u8>,
    edges: &[Edge],
    plan: &Plan,
    place: u32,
) -> Result<(), Memory>
    ensures ok { OnOk result (text.new ≡ text.old ++ condition_at edges.now plan.now place) }
    ensures kept { StartsWith text.new text.old }
{
    match plan.conditions().get(place as usize) {
        Some(condition) => push_port(text, edges, condition.edge, condition.port),
        None => Ok(()),
    }
}

/// A truth behind a space.
#[tactic(auto, using(crate::proofs::Starts::starts))]
fn push_truth(text: &mut List<u8>, value: bool) -> Result<(), Memory>
    ensures ok { OnOk result (text.new ≡ text.old ++ truth_text value) }
    ensures kept { StartsWith text.new text.old }
{
    if value {
        text.extend_from_slice(b" true")
    } else {
        text.extend_from_slice(b" false")
    }
}

/// The place of a pin and its truth, and nothing where there is no pin.
#[tactic(auto, using(crate::proofs::Starts::starts))]
fn push_pin(text: &mut List<u8>, pin: Option<Pin>) -> Result<(), Memory>
    ensures ok { OnOk result (text.new ≡ text.old ++ pin_text pin) }
    ensures kept { StartsWith text.new text.old }
{
    let Some(pin) = pin else {
        return Ok(());
    };
    text.extend_from_slice(b" at ")?;
    push_decimal(text, i64::from(pin.place))?;
    push_truth(text, pin.value)
}

/// The pin of an elementary condition, which is on the first edge.
fn first_pin(value: Option<bool>) -> Option<Pin>
    ensures { result ≡ pin_of_first value }
{
    match value {
        Some(value) => Some(Pin { place: 0, value }),
        None => None,
    }
}

/// A path of a plan, with what is pinned on it.
#[tactic(auto, using(crate::proofs::Starts::starts))]
fn push_pinned(
    text: &mut List<u8>,
    edges: &[Edge],
    plan: &Plan,
    path: u32,
    pin: Option<Pin>,
) -> Result<(), Memory>
    ensures ok { OnOk result (text.new
        ≡ text.old ++ (path_at edges.now plan.now path ++ pin_text pin)) }
    ensures kept { StartsWith text.new text.old }
{
    push_path_at(text, edges, plan, path)?;
    push_pin(text, pin)
}

/// A condition of a plan, with its truth.
#[tactic(auto, using(crate::proofs::Starts::starts))]
fn push_condition(
    text: &mut List<u8>,
    edges: &[Edge],
    plan: &Plan,
    condition: u32,
    value: bool,
) -> Result<(), Memory>
    ensures ok { OnOk result (text.new
        ≡ text.old ++ (condition_at edges.now plan.now condition ++ truth_text value)) }
    ensures kept { StartsWith text.new text.old }
{
    push_condition_at(text, edges, plan, condition)?;
    push_truth(text, value)
}

/// What an obligation of a plan asks for.
#[tactic(auto, using(crate::proofs::Starts::starts))]
fn push_asked(
    text: &mut List<u8>,
    edges: &[Edge],
    plan: &Plan,
    duty: Obligation,
) -> Result<(), Memory>
    ensures ok { OnOk result (text.new ≡ text.old ++ asked_text edges.now plan.now duty) }
    ensures kept { StartsWith text.new text.old }
{
    match duty {
        Obligation::Bc { path } => push_path_at(text, edges, plan, path),
        Obligation::Ecc { path, value } => push_pinned(text, edges, plan, path, first_pin(value)),
        Obligation::Mcc { path, pin } => push_pinned(text, edges, plan, path, pin),
        Obligation::Omc { condition, value } => push_condition(text, edges, plan, condition, value),
    }
}

/// An obligation of a plan: its criterion, and what it asks for.
#[tactic(auto, using(crate::proofs::Starts::starts))]
fn push_duty(
    text: &mut List<u8>,
    edges: &[Edge],
    plan: &Plan,
    duty: Obligation,
) -> Result<(), Memory>
    ensures ok { OnOk result (text.new ≡ text.old ++ spec.duty_text edges.now plan.now duty) }
    ensures kept { StartsWith text.new text.old }
{
    push_criterion(text, duty.criterion())?;
    push_asked(text, edges, plan, duty)
}

/// Adds the text of the obligation at a place of a plan at the end, with no line end: its
/// criterion, and the path and the pin, or the condition and the value, that it asks for. Edges
/// have their names in `net`. The place is one of the plan, from 0. Answers `Memory` for want of
/// it, and `out` is then as before. The cost is linear in the text, over many calls.
pub fn duty_text(net: &Network, plan: &Plan, o: u32, out: &mut List<u8>) -> Result<(), Memory>
    requires place { o < length plan.now.duties }
    ensures ok { OnOk result (out.new ≡ out.old ++ duty_at net.now.edges plan.now o) }
    ensures err { OnErr result (out.new ≡ out.old) }
{
    let before = out.len();
    let duty = plan.duties()[o as usize];
    let added = push_duty(out, net.parts().edges.as_slice(), plan, duty);
    whole_or_none(out, before, added)
}
