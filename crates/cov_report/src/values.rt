//! The lines of streams.
ghost use Rattle.std.specs.Prelude.{◌≡◌, [], ◌++◌, ◌∷◌, OnErr, OnOk, if◌then◌else◌, codes};
ghost use Rattle.std.specs.Prelude.{slice_get, unwrap_or};
ghost use Rattle.std.specs.Io.{StartsWith};
ghost use Rattle.cov_report.specs.Values as spec;
ghost use Rattle.cov_report.specs.Values.{edge_line, enumerators, type_at, value_text, values_text};

use crate::names::edge_name;
use crate::undo::whole_or_none;
use cov_base::{List, Memory, Text, push_decimal};
use op_network::{Choice, Edge, EdgeId, Network, Parts, Ty, Value};

/// The type of an edge.
fn edge_type(edges: &[Edge], e: EdgeId) -> Ty
    ensures { result ≡ type_at edges.now e }
{
    match edges.get(e.0 as usize) {
        Some(edge) => edge.ty,
        None => Ty::Truth,
    }
}

/// The name at a place, or nothing where there is none.
fn name_at(names: &[Text], place: u8) -> &[u8]
    ensures { result.now ≡ unwrap_or (slice_get names.now place) [] }
{
    match names.get(place as usize) {
        Some(name) => name.bytes(),
        None => b"",
    }
}

/// The names of the enumerators of a choice, or none where there is no such choice.
fn names_of(choices: &[Choice], place: u32) -> &[Text]
    ensures { result.now ≡ unwrap_or (slice_get (enumerators choices.now) place) [] }
{
    match choices.get(place as usize) {
        Some(choice) => choice.names.as_slice(),
        None => &[],
    }
}

/// The name of an enumerator of a type.
fn enumerator(choices: &[Choice], ty: Ty, k: u8) -> &[u8]
    ensures { result.now ≡ spec.enumerator (enumerators choices.now) ty k }
{
    match ty {
        Ty::Choice(c) => name_at(names_of(choices, c), k),
        Ty::Truth => b"",
        Ty::Word => b"",
    }
}

/// `0` or `1`.
fn digit(truth: bool) -> u8
    ensures { result ∷ [] ≡ (if truth then codes "1" else codes "0") }
{
    if truth { b'1' } else { b'0' }
}

/// Adds a value of a type: `0` or `1`, a decimal, or the name of an enumerator.
fn push_value(text: &mut List<u8>, choices: &[Choice], ty: Ty, value: Value) -> Result<(), Memory>
    ensures ok { let value = value_text (enumerators choices.now) ty value in
        OnOk result (text.new ≡ text.old ++ value) }
    ensures err { OnErr result (text.new ≡ text.old) }
{
    match value {
        Value::Truth(truth) => text.add(digit(truth)),
        Value::Word(word) => push_decimal(text, i64::from(word)),
        Value::Choice(k) => text.extend_from_slice(enumerator(choices, ty, k)),
    }
}

/// Adds values of a type, each after a space. Linear in their number.
#[tactic(auto, using(crate::proofs::Starts::starts))]
fn push_values(
    text: &mut List<u8>,
    choices: &[Choice],
    ty: Ty,
    values: &[Value],
) -> Result<(), Memory>
    ensures ok { let values = values_text (enumerators choices.now) ty values.now in
        OnOk result (text.new ≡ text.old ++ values) }
    ensures kept { StartsWith text.new text.old }
{
    for value in values {
        text.add(b' ')?;
        push_value(text, choices, ty, *value)?;
    }
    Ok(())
}

/// Adds the name of an edge and values of its type, and a line feed.
#[tactic(auto, using(crate::proofs::Starts::starts))]
fn push_line(text: &mut List<u8>, parts: &Parts, e: EdgeId, values: &[Value]) -> Result<(), Memory>
    ensures ok { OnOk result (text.new ≡ text.old ++ edge_line parts.now e values.now) }
    ensures kept { StartsWith text.new text.old }
{
    let edges = parts.edges.as_slice();
    text.extend_from_slice(edge_name(edges, e))?;
    let ty = edge_type(edges, e);
    push_values(text, parts.choices.as_slice(), ty, values)?;
    text.add(b'\n')
}

/// Adds the line of a stream at the end: the name of the edge, and each value after one space. A
/// truth is `0` or `1`, a word a decimal, and a choice the name of its enumerator. Answers `Memory`
/// for want of it, and `out` is then as before. The cost is linear in the text, over many calls.
pub fn stream_line(
    net: &Network,
    e: EdgeId,
    values: &[Value],
    out: &mut List<u8>,
) -> Result<(), Memory>
    ensures ok { OnOk result (out.new ≡ out.old ++ edge_line net.now e values.now) }
    ensures err { OnErr result (out.new ≡ out.old) }
{
    let before = out.len();
    let added = push_line(out, net.parts(), e, values);
    whole_or_none(out, before, added)
}
