//! Words of operators, over the words of their operands.
ghost use Rattle.std.specs.Prelude.{◌≡◌, ◌≤◌, ◌<◌, length, IfOk, All, option_map};
ghost use Rattle.op_network.specs.declared.limits.TheConstants.{MOST_WIDTH as widest};
ghost use Rattle.op_network.specs.Valid.{IsValid};
ghost use Rattle.bit_blast.specs.Made.{Adds, IfFull, IsBelow, Overfills};
ghost use Rattle.bit_blast.specs.Words.{ite};
ghost use Rattle.unroll_cnf.specs.Made.{HasRoom, IsEdgeReady, IsPast, IsReady, IsWithin, table_of};
ghost use Rattle.unroll_cnf.specs.Unrolled as spec;

use crate::input::input_word;
use crate::value::value_word;
use crate::wiring::{copied, inverted, one_bit, only};
use bit_blast::{BlastFault, Maker, Word};
use cov_base::Memory;
use op_network::{Binary, EdgeId, Form, Parts, Ty, Unary, default};
use std::alloc::Global;

/// The word of an edge.
fn word(words: &[Word], e: EdgeId) -> &Word
    requires { e.0 < length words.now }
    ensures { result.now ≡ table_of words.now e.0 }
{
    &words[e.0 as usize]
}

/// The word of an operator with one operand.
fn unary_word(alloc: Global, maker: &mut Maker, op: Unary, a: &Word) -> Result<Word, BlastFault>
    requires { IsBelow maker.old.vars a.now }
    ensures made { IfOk result
        (Adds maker.old maker.new (λ n. spec.unary_circuit n op a.now)) }
    ensures full { IfFull result (Overfills maker.old (λ n. spec.unary_circuit n op a.now)) }
{
    match op {
        Unary::Id => Ok(copied(alloc, a)?),
        Unary::Not => Ok(inverted(alloc, a)?),
        Unary::Neg => maker.negate(alloc, a),
    }
}

/// The word of an operator with two operands.
#[tactic(auto, using(crate::proofs::Placing::turned_below))]
fn binary_word(
    alloc: Global,
    maker: &mut Maker,
    op: Binary,
    a: &Word,
    b: &Word,
) -> Result<Word, BlastFault>
    requires size { length a.now ≡ length b.now }
    requires some { 1 ≤ length a.now }
    requires a { IsBelow maker.old.vars a.now }
    requires b { IsBelow maker.old.vars b.now }
    ensures made { IfOk result
        (Adds maker.old maker.new (λ n. spec.binary_circuit n op a.now b.now)) }
    ensures full { IfFull result (Overfills maker.old (λ n. spec.binary_circuit n op a.now b.now)) }
{
    match op {
        Binary::And => Ok(one_bit(alloc, maker.and_gate(alloc, only(a), only(b))?)?),
        Binary::Or => Ok(one_bit(alloc, maker.or_gate(alloc, only(a), only(b))?)?),
        Binary::Xor => Ok(one_bit(alloc, maker.xor_gate(alloc, only(a), only(b))?)?),
        Binary::Imp => Ok(one_bit(alloc, maker.or_gate(alloc, only(a).negated(), only(b))?)?),
        Binary::Eq => Ok(one_bit(alloc, maker.equal(alloc, a, b)?)?),
        Binary::Ne => Ok(one_bit(alloc, maker.equal(alloc, a, b)?.negated())?),
        Binary::Lt => Ok(one_bit(alloc, maker.less(alloc, a, b)?)?),
        Binary::Le => Ok(one_bit(alloc, maker.less(alloc, b, a)?.negated())?),
        Binary::Gt => Ok(one_bit(alloc, maker.less(alloc, b, a)?)?),
        Binary::Ge => Ok(one_bit(alloc, maker.less(alloc, a, b)?.negated())?),
        Binary::Add => maker.add(alloc, a, b),
        Binary::Sub => maker.subtract(alloc, a, b),
        Binary::Mul => maker.multiply(alloc, a, b),
    }
}

/// The word of `if a then b else c`.
fn if_word(
    alloc: Global,
    maker: &mut Maker,
    a: &Word,
    b: &Word,
    c: &Word,
) -> Result<Word, BlastFault>
    requires some { 1 ≤ length a.now }
    requires size { length b.now ≡ length c.now }
    requires a { IsBelow maker.old.vars a.now }
    requires b { IsBelow maker.old.vars b.now }
    requires c { IsBelow maker.old.vars c.now }
    ensures made { IfOk result
        (Adds maker.old maker.new (λ n. ite n (spec.only a.now) b.now c.now)) }
    ensures full { IfFull result
        (Overfills maker.old (λ n. ite n (spec.only a.now) b.now c.now)) }
{
    maker.ite_word(alloc, only(a), b, c)
}

/// The word of `a -> b`: at instant 0, before which there are no words, that of `a`, and later that
/// of `b`.
fn arrow_word(alloc: Global, before: Option<&[Word]>, a: &Word, b: &Word) -> Result<Word, Memory>
    ensures { let past = option_map table_of (option_map (λ words. words.now) before.entry) in
        IfOk result (λ w. w ≡ spec.arrow_word past a.now b.now) }
{
    match before {
        Some(_) => copied(alloc, b),
        None => copied(alloc, a),
    }
}

/// The word of `pre a`: at instant 0 that of the default, and later that of `a` at the instant
/// before.
fn pre_word(
    alloc: Global,
    parts: &Parts,
    before: Option<&[Word]>,
    ty: Ty,
    a: EdgeId,
) -> Result<Word, Memory>
    requires width { parts.now.width ≤ widest }
    requires past { IsWithin (option_map (λ words. words.now) before) a }
    ensures { let past = option_map table_of (option_map (λ words. words.now) before.entry) in
        IfOk result (λ w. w ≡ spec.pre_word parts.now past ty a) }
{
    match before {
        Some(words) => copied(alloc, word(words, a)),
        None => value_word(alloc, parts, default(ty), ty),
    }
}

/// The word of an operator of a form and a type, behind the words of the instant before and those
/// of the instant.
fn form_word(
    alloc: Global,
    maker: &mut Maker,
    parts: &Parts,
    form: Form,
    ty: Ty,
    before: Option<&[Word]>,
    now: &[Word],
) -> Result<Word, BlastFault>
    requires valid { IsValid parts.now }
    requires ready { IsReady parts.now maker.old.vars form ty now.now }
    requires past { IsPast parts.now maker.old.vars (option_map (λ words. words.now) before) }
    requires room { HasRoom maker.old 1 }
    ensures made { let past = option_map table_of (option_map (λ words. words.now) before.entry) in
        IfOk result (Adds maker.old maker.new
        (λ n. spec.circuit_by parts.now n form ty past (table_of now.now))) }
    ensures full { let past = option_map table_of (option_map (λ words. words.now) before.entry) in
        IfFull result (Overfills maker.old
        (λ n. spec.circuit_by parts.now n form ty past (table_of now.now))) }
{
    match form {
        Form::Input(_) => input_word(alloc, maker, parts, ty),
        Form::Const(value) => Ok(value_word(alloc, parts, value, ty)?),
        Form::One(op, a) => unary_word(alloc, maker, op, word(now, a)),
        Form::Two(op, a, b) => binary_word(alloc, maker, op, word(now, a), word(now, b)),
        Form::Ite(a, b, c) => if_word(alloc, maker, word(now, a), word(now, b), word(now, c)),
        Form::Arrow(a, b) => Ok(arrow_word(alloc, before, word(now, a), word(now, b))?),
        Form::Pre(a) => Ok(pre_word(alloc, parts, before, ty, a)?),
    }
}

/// The word of an edge, behind the words of the instant before and those of the instant.
pub(crate) fn edge_word(
    alloc: Global,
    maker: &mut Maker,
    parts: &Parts,
    e: EdgeId,
    before: Option<&[Word]>,
    now: &[Word],
) -> Result<Word, BlastFault>
    requires valid { IsValid parts.now }
    requires ready { IsEdgeReady parts.now maker.old.vars e now.now }
    requires past { IsPast parts.now maker.old.vars (option_map (λ words. words.now) before) }
    requires room { HasRoom maker.old 1 }
    ensures made { let past = option_map table_of (option_map (λ words. words.now) before.entry) in
        IfOk result (Adds maker.old maker.new
        (λ n. spec.edge_circuit parts.now n e past (table_of now.now))) }
    ensures full { let past = option_map table_of (option_map (λ words. words.now) before.entry) in
        IfFull result (Overfills maker.old
        (λ n. spec.edge_circuit parts.now n e past (table_of now.now))) }
{
    let edge = &parts.edges.as_slice()[e.0 as usize];
    form_word(alloc, maker, parts, edge.op.form(), edge.ty, before, now)
}
