//! Values as words of constant literals.
ghost use Rattle.std.specs.Prelude.{◌≡◌, ◌≤◌, ◌^◌, IfOk, map, pos};
ghost use Rattle.std.specs.Int.{int_rem_euclid};
ghost use Rattle.std.specs.Int.RustNames.{unsigned_abs as magnitude};
ghost use Rattle.op_network.specs.declared.limits.TheConstants.{MOST_WIDTH as widest};
ghost use Rattle.unroll_cnf.specs.Values as spec;

use crate::widths::bits_of;
use crate::wiring::one_bit;
use bit_blast::Word;
use cnf_form::Lit;
use cov_base::{List, Memory};
use op_network::{Parts, Ty, Value};
use std::alloc::Global;

/// The literal that has this truth in every model.
fn constant(truth: bool) -> Lit
    ensures { result ≡ spec.constant truth }
{
    Lit {
        var: 0,
        positive: truth,
    }
}

/// The word of the first bits of a number.
#[tactic(auto, using(crate::proofs::Exclusions::number_step))]
fn number_word(alloc: Global, bits: u32, number: u64) -> Result<Word, Memory>
    ensures { IfOk result (λ w. w ≡ map spec.constant (spec.digits bits number)) }
{
    let mut word = List::new(alloc);
    let mut rest = number;
    for _bit in 0..bits {
        word.add(constant(rest % 2 == 1))?;
        rest /= 2;
    }
    Ok(word)
}

/// A word's number modulo 2 to the width.
fn residue(number: i32, width: u32) -> u64
    requires { width ≤ widest }
    ensures { result ≡ magnitude (int_rem_euclid number (pos (2 ^ width))) }
{
    i64::from(number).rem_euclid(1i64 << width).unsigned_abs()
}

/// The word of a value of a type.
pub(crate) fn value_word(alloc: Global, parts: &Parts, value: Value, ty: Ty) -> Result<Word, Memory>
    requires { parts.now.width ≤ widest }
    ensures { IfOk result (λ w. w ≡ spec.value_word parts.now value ty) }
{
    match value {
        Value::Truth(truth) => one_bit(alloc, constant(truth)),
        Value::Word(number) => number_word(alloc, parts.width, residue(number, parts.width)),
        Value::Choice(place) => number_word(alloc, bits_of(parts, ty), u64::from(place)),
    }
}
