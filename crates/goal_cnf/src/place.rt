//! The literals of a path's places at an instant.
ghost use Rattle.std.specs.Prelude.{◌≡◌, ◌<◌, ◌≤◌, IfOk, length};
ghost use Rattle.bit_blast.specs.Circuit.{no as negation};
ghost use Rattle.bit_blast.specs.Made.{Adds, IfFull, Overfills};
ghost use Rattle.unroll_cnf.specs.Made.{word_at};
ghost use Rattle.unroll_cnf.specs.Unrolled.{only};
ghost use Rattle.goal_cnf.specs.Made.{HasBit, HasBitBelow, HasConditionBits};
ghost use Rattle.goal_cnf.specs.Activity as spec;

use bit_blast::{BlastFault, Maker};
use cnf_form::Lit;
use dep_paths::{Pin, Step};
use op_network::{Binary, EdgeId, Form};
use std::alloc::Global;
use unroll_cnf::Unrolled;

/// `m`, and one of `a` and `b`.
fn with_either(alloc: Global, maker: &mut Maker, m: Lit, a: Lit, b: Lit) -> Result<Lit, BlastFault>
    requires m { m.var < maker.old.vars }
    requires a { a.var < maker.old.vars }
    requires b { b.var < maker.old.vars }
    ensures made { IfOk result (Adds maker.old maker.new (λ n. spec.with_either n m a b)) }
    ensures full { IfFull result (Overfills maker.old (λ n. spec.with_either n m a b)) }
    ensures below { IfOk result (λ lit. lit.var < maker.new.vars) }
    ensures more { maker.old.vars ≤ maker.new.vars }
{
    let either = maker.or_gate(alloc, a, b)?;
    let both = maker.and_gate(alloc, m, either)?;
    Ok(both)
}

/// `m` and the step condition of a port of an operator with two operands, over their bits.
#[tactic(auto, using(unroll_cnf::proofs::Placing::turned_below))]
fn binary_condition(
    alloc: Global,
    maker: &mut Maker,
    op: Binary,
    port: u8,
    a: Lit,
    b: Lit,
    m: Lit,
) -> Result<Lit, BlastFault>
    requires m { m.var < maker.old.vars }
    requires a { a.var < maker.old.vars }
    requires b { b.var < maker.old.vars }
    ensures made { IfOk result
        (Adds maker.old maker.new (λ n. spec.binary_condition n op port a b m)) }
    ensures full { IfFull result
        (Overfills maker.old (λ n. spec.binary_condition n op port a b m)) }
    ensures below { IfOk result (λ lit. lit.var < maker.new.vars) }
    ensures more { maker.old.vars ≤ maker.new.vars }
{
    match (op, port) {
        (Binary::And, 0) => with_either(alloc, maker, m, a.negated(), b),
        (Binary::And, _) => with_either(alloc, maker, m, b.negated(), a),
        (Binary::Or, 0) => with_either(alloc, maker, m, a, b.negated()),
        (Binary::Or, _) => with_either(alloc, maker, m, b, a.negated()),
        (Binary::Imp, 0) => with_either(alloc, maker, m, a.negated(), b.negated()),
        (Binary::Imp, _) => with_either(alloc, maker, m, b, a),
        _ => Ok(m),
    }
}

/// `m` and the step condition of a port of `if`, over the bit of its first operand.
#[tactic(auto, using(unroll_cnf::proofs::Placing::turned_below))]
fn if_condition(
    alloc: Global,
    maker: &mut Maker,
    port: u8,
    a: Lit,
    m: Lit,
) -> Result<Lit, BlastFault>
    requires m { m.var < maker.old.vars }
    requires a { a.var < maker.old.vars }
    ensures made { IfOk result (Adds maker.old maker.new (λ n. spec.if_condition n port a m)) }
    ensures full { IfFull result (Overfills maker.old (λ n. spec.if_condition n port a m)) }
    ensures below { IfOk result (λ lit. lit.var < maker.new.vars) }
    ensures more { maker.old.vars ≤ maker.new.vars }
{
    match port {
        0 => Ok(m),
        1 => maker.and_gate(alloc, m, a),
        _ => maker.and_gate(alloc, m, a.negated()),
    }
}

/// The bit of an edge that is a truth, at an instant.
pub(crate) fn bit(un: &Unrolled, e: EdgeId, t: u32) -> Lit
    requires { HasBit un.now t e }
    ensures { result ≡ only (word_at un.now.words t e.0) }
{
    un.word(e, t).as_slice()[0]
}

/// `m` and the step condition of a port of an operator of this form, over the words of an instant.
fn condition(
    alloc: Global,
    maker: &mut Maker,
    un: &Unrolled,
    t: u32,
    form: Form,
    port: u8,
    m: Lit,
) -> Result<Lit, BlastFault>
    requires m { m.var < maker.old.vars }
    requires ready { HasConditionBits un.now t maker.old.vars form }
    ensures made { let now = word_at un.now.words t in
        IfOk result (Adds maker.old maker.new (λ n. spec.condition_by n form port now m)) }
    ensures full { let now = word_at un.now.words t in
        IfFull result (Overfills maker.old (λ n. spec.condition_by n form port now m)) }
    ensures below { IfOk result (λ lit. lit.var < maker.new.vars) }
    ensures more { maker.old.vars ≤ maker.new.vars }
{
    match form {
        Form::Two(op, a, b) => {
            binary_condition(alloc, maker, op, port, bit(un, a, t), bit(un, b, t), m)
        }
        Form::Ite(a, _, _) => if_condition(alloc, maker, port, bit(un, a, t), m),
        _ => Ok(m),
    }
}

/// A bit where the value is true, and else its negation.
pub(crate) fn as_asked(value: bool, bit: Lit) -> Lit
    ensures { result ≡ spec.as_pinned value bit }
{
    if value { bit } else { bit.negated() }
}

/// `m`, and at the place of the pin what it asks of the edge's bit.
#[tactic(auto, using(crate::proofs::Passing::asked_below))]
pub(crate) fn pinned(
    alloc: Global,
    maker: &mut Maker,
    pin: Option<Pin>,
    place: u8,
    bit: Lit,
    m: Lit,
) -> Result<Lit, BlastFault>
    requires m { m.var < maker.old.vars }
    requires bit { bit.var < maker.old.vars }
    ensures made { IfOk result
        (Adds maker.old maker.new (λ n. spec.pin_circuit n pin place bit m)) }
    ensures full { IfFull result (Overfills maker.old (λ n. spec.pin_circuit n pin place bit m)) }
    ensures below { IfOk result (λ lit. lit.var < maker.new.vars) }
    ensures more { maker.old.vars ≤ maker.new.vars }
{
    match pin {
        Some(pin) if place == pin.place => maker.and_gate(alloc, m, as_asked(pin.value, bit)),
        _ => Ok(m),
    }
}

/// The literal that is false in every model.
pub(crate) fn no() -> Lit
    ensures { result ≡ negation 0 }
{
    Lit {
        var: 0,
        positive: false,
    }
}

/// With what a place begins: the literal of the place before, at the instant or, through `Pre`, at
/// the instant before; and `no` where the step asks for another instant.
fn begin(form: Form, port: u8, shorter: Lit, before: Option<Lit>) -> Lit
    ensures { result ≡ spec.begin_by form port shorter before }
{
    match (form, before) {
        (Form::Arrow(_, _), None) if port == 0 => shorter,
        (Form::Arrow(_, _), None) => no(),
        (Form::Arrow(_, _), Some(_)) if port == 0 => no(),
        (Form::Arrow(_, _), Some(_)) => shorter,
        (Form::Pre(_), None) => no(),
        (Form::Pre(_), Some(before)) => before,
        _ => shorter,
    }
}

/// The literal of the place behind a step through an operator of this form, over that of the place
/// before at the instant and at the instant before.
pub(crate) fn place_behind(
    alloc: Global,
    maker: &mut Maker,
    un: &Unrolled,
    t: u32,
    pin: Option<Pin>,
    place: u8,
    step: Step,
    form: Form,
    shorter: Lit,
    before: Option<Lit>,
) -> Result<Lit, BlastFault>
    requires begin { (spec.begin_by form step.port shorter before).var < maker.old.vars }
    requires ready { HasConditionBits un.now t maker.old.vars form }
    requires bit { HasBitBelow un.now t maker.old.vars step.edge }
    ensures made { let now = word_at un.now.words t in IfOk result (Adds maker.old maker.new
        (λ n. spec.place_by n pin place step form now shorter before)) }
    ensures full { let now = word_at un.now.words t in IfFull result (Overfills maker.old
        (λ n. spec.place_by n pin place step form now shorter before)) }
    ensures below { IfOk result (λ lit. lit.var < maker.new.vars) }
    ensures more { maker.old.vars ≤ maker.new.vars }
{
    let m = begin(form, step.port, shorter, before);
    let m = condition(alloc, maker, un, t, form, step.port, m)?;
    let m = pinned(alloc, maker, pin, place, bit(un, step.edge, t), m)?;
    Ok(m)
}
