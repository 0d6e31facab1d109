ghost use Rattle.std.specs.Prelude.{◌≡◌, IfOk};
ghost use Rattle.bit_blast.specs.Circuit.{no as negation};
ghost use Rattle.bit_blast.specs.Words as op;

use cnf_form::Lit;
use cov_base::{List, Memory};
use std::alloc::Global;

/// The literals of a word, least bit first; the last one is the sign.
pub type Word = List<Lit>;

/// The negation of each bit.
pub(crate) fn inverted(alloc: Global, a: &[Lit]) -> Result<Word, Memory>
    ensures { IfOk result (λ w. w ≡ op.inverted a.now) }
{
    let mut word = List::new(alloc);
    for lit in a {
        word.add(lit.negated())?;
    }
    Ok(word)
}

/// A word of so many bits that are false, each the literal `no`.
pub(crate) fn nothing(alloc: Global, bits: usize, no: Lit) -> Result<Word, Memory>
    requires { no ≡ negation 0 }
    ensures { IfOk result (λ w. w ≡ op.nothing bits) }
{
    let mut word = List::new(alloc);
    for _bit in 0..bits {
        word.add(no)?;
    }
    Ok(word)
}
