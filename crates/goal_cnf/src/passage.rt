//! What comes through a port: the literal that a condition with a value reaches an edge through it.
ghost use Rattle.std.specs.Prelude.{◌≡◌, ◌<◌, ◌≤◌, ◌==◌, IfOk, IfSome};
ghost use Rattle.bit_blast.specs.Made.{Adds, IfFull, Overfills};
ghost use Rattle.unroll_cnf.specs.Made.{word_at};
ghost use Rattle.goal_cnf.specs.Made.{HasConditionBits, tag_of};
ghost use Rattle.goal_cnf.specs.Observation as spec;

use crate::place::{as_asked, bit};
use bit_blast::{BlastFault, Maker};
use cnf_form::Lit;
use dep_paths::Condition;
use op_network::{Binary, Form};
use std::alloc::Global;
use unroll_cnf::Unrolled;

fn is_same_port(a: Condition, b: Condition) -> bool
    ensures { result ≡ spec.is_same_port a b }
{
    a.edge.0 == b.edge.0 && a.port == b.port
}

/// The literal that a port of an operator with two operands is unmasked, over their bits; none
/// where it always is.
fn binary_unmasked(op: Binary, port: u8, a: Lit, b: Lit) -> Option<Lit>
    ensures { result ≡ spec.binary_unmasked op port a b }
{
    match (op, port) {
        (Binary::And, 0) => Some(b),
        (Binary::And, _) => Some(a),
        (Binary::Or, 0) => Some(b.negated()),
        (Binary::Or, _) => Some(a.negated()),
        (Binary::Imp, 0) => Some(b.negated()),
        (Binary::Imp, _) => Some(a),
        _ => None,
    }
}

/// That of a port of `if`, over the bit of its first operand.
fn if_unmasked(port: u8, a: Lit) -> Option<Lit>
    ensures { result ≡ spec.if_unmasked port a }
{
    match port {
        0 => None,
        1 => Some(a),
        _ => Some(a.negated()),
    }
}

/// That of a port of an operator of this form, over the words of an instant.
pub(crate) fn unmasked(un: &Unrolled, t: u32, form: Form, port: u8) -> Option<Lit>
    requires { HasConditionBits un.now t un.now.formula.vars form }
    ensures { result ≡ spec.unmasked_by form port (word_at un.now.words t) }
{
    match form {
        Form::Two(op, a, b) => binary_unmasked(op, port, bit(un, a, t), bit(un, b, t)),
        Form::Ite(a, _, _) => if_unmasked(port, bit(un, a, t)),
        _ => None,
    }
}

/// Whether a port adds anything, at the first instant or later.
pub(crate) fn adds(form: Form, port: u8, first: bool) -> bool
    ensures { result ≡ spec.adds form port first }
{
    match form {
        Form::Arrow(_, _) => (port == 0) == first,
        Form::Pre(_) => !first,
        _ => true,
    }
}

/// `s`, and at the condition's port the operand's bit with the value besides.
#[tactic(auto, using(crate::proofs::Passing::asked_below))]
fn started(
    alloc: Global,
    maker: &mut Maker,
    condition: Condition,
    value: bool,
    port: Condition,
    bit: Lit,
    s: Lit,
) -> Result<Lit, BlastFault>
    requires bit { bit.var < maker.old.vars }
    requires s { s.var < maker.old.vars }
    ensures made { IfOk result (Adds maker.old maker.new
        (λ n. spec.start_circuit n (tag_of condition value) port bit s)) }
    ensures full { IfFull result (Overfills maker.old
        (λ n. spec.start_circuit n (tag_of condition value) port bit s)) }
    ensures below { IfOk result (λ lit. lit.var < maker.new.vars) }
    ensures more { maker.old.vars ≤ maker.new.vars }
{
    if !is_same_port(port, condition) {
        return Ok(s);
    }
    maker.or_gate(alloc, s, as_asked(value, bit))
}

/// `s`, where the port is unmasked.
fn masked(
    alloc: Global,
    maker: &mut Maker,
    unmasked: Option<Lit>,
    s: Lit,
) -> Result<Lit, BlastFault>
    requires unmasked { IfSome unmasked (λ u. u.var < maker.old.vars) }
    requires s { s.var < maker.old.vars }
    ensures made { IfOk result (Adds maker.old maker.new (λ n. spec.mask_circuit n unmasked s)) }
    ensures full { IfFull result (Overfills maker.old (λ n. spec.mask_circuit n unmasked s)) }
    ensures below { IfOk result (λ lit. lit.var < maker.new.vars) }
    ensures more { maker.old.vars ≤ maker.new.vars }
{
    match unmasked {
        Some(u) => maker.and_gate(alloc, s, u),
        None => Ok(s),
    }
}

/// `g`, or what comes through a port: the literal `s` of its operand, whose bit is `bit`.
pub(crate) fn passage(
    alloc: Global,
    maker: &mut Maker,
    condition: Condition,
    value: bool,
    port: Condition,
    unmasked: Option<Lit>,
    bit: Lit,
    s: Lit,
    g: Lit,
) -> Result<Lit, BlastFault>
    requires unmasked { IfSome unmasked (λ u. u.var < maker.old.vars) }
    requires bit { bit.var < maker.old.vars }
    requires s { s.var < maker.old.vars }
    requires g { g.var < maker.old.vars }
    ensures made { IfOk result (Adds maker.old maker.new
        (λ n. spec.passage_circuit n (tag_of condition value) port unmasked bit s g)) }
    ensures full { IfFull result (Overfills maker.old
        (λ n. spec.passage_circuit n (tag_of condition value) port unmasked bit s g)) }
    ensures below { IfOk result (λ lit. lit.var < maker.new.vars) }
    ensures more { maker.old.vars ≤ maker.new.vars }
{
    let s = started(alloc, maker, condition, value, port, bit, s)?;
    let s = masked(alloc, maker, unmasked, s)?;
    let g = maker.or_gate(alloc, g, s)?;
    Ok(g)
}
