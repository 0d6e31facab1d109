//! How many bits words have.
ghost use Rattle.std.specs.Prelude.{◌≡◌, ◌≤◌};
ghost use Rattle.op_network.specs.declared.limits.TheConstants.{MOST_WIDTH as widest};
ghost use Rattle.unroll_cnf.specs.Sizes as spec;

use op_network::{EdgeId, Parts, Ty};

/// The most bits of a choice, which has at most 256 enumerators.
const MOST_CHOICE_BITS: u32 = 8;

/// The least number of bits, from 1 on, that has a number for each of so many enumerators.
#[tactic(auto, using(crate::proofs::Choices::bits_start, crate::proofs::Choices::bits_step, crate::proofs::Choices::bits_found, crate::proofs::Choices::bits_most))]
fn choice_bits(names: usize) -> u32
    ensures value { result ≡ spec.choice_bits names }
    ensures few { result ≤ 8 }
{
    let mut bits = 1;
    while bits < MOST_CHOICE_BITS && (1usize << bits) < names {
        bits += 1;
    }
    bits
}

/// How many enumerators a choice has.
pub(crate) fn enumerators(parts: &Parts, choice: u32) -> usize
    ensures { result ≡ spec.enumerators parts.now.choices choice }
{
    match parts.choices.as_slice().get(choice as usize) {
        Some(choice) => choice.names.len(),
        None => 0,
    }
}

/// The bits of a type: 1 of a truth, the width of a word, and of a choice as many as number its
/// enumerators.
pub(crate) fn bits_of(parts: &Parts, ty: Ty) -> u32
    requires { parts.now.width ≤ widest }
    ensures value { result ≡ spec.bits_of parts.now ty }
    ensures few { result ≤ widest }
{
    match ty {
        Ty::Truth => 1,
        Ty::Word => parts.width,
        Ty::Choice(choice) => choice_bits(enumerators(parts, choice)),
    }
}

/// The bits of an edge.
pub(crate) fn edge_bits(parts: &Parts, e: EdgeId) -> u32
    requires { parts.now.width ≤ widest }
    ensures value { result ≡ spec.edge_bits parts.now e }
    ensures few { result ≤ widest }
{
    match parts.edges.as_slice().get(e.0 as usize) {
        Some(edge) => bits_of(parts, edge.ty),
        None => 0,
    }
}
