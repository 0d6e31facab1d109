//! Words without gates.
ghost use Rattle.std.specs.Prelude.{◌≡◌, ◌≤◌, ◌∷◌, [], length, IfOk};
ghost use Rattle.bit_blast.specs.Words.{inverted as inverted_of};
ghost use Rattle.unroll_cnf.specs.Unrolled.{only as only_of};

use bit_blast::Word;
use cnf_form::Lit;
use cov_base::{List, Memory};
use std::alloc::Global;

/// The word of one literal.
pub(crate) fn one_bit(alloc: Global, lit: Lit) -> Result<Word, Memory>
    ensures { IfOk result (λ w. w ≡ lit ∷ []) }
{
    let mut word = List::new(alloc);
    word.add(lit)?;
    Ok(word)
}

/// The first bit of a word, which is the truth of a word of one bit.
pub(crate) fn only(word: &Word) -> Lit
    requires { 1 ≤ length word.now }
    ensures { result ≡ only_of word.now }
{
    word.as_slice()[0]
}

/// A copy of a word.
pub(crate) fn copied(alloc: Global, word: &Word) -> Result<Word, Memory>
    ensures { IfOk result (λ copy. copy ≡ word.now) }
{
    Ok(List::from_vec(word.as_slice().to_vec(alloc)?))
}

/// The negation of each bit.
pub(crate) fn inverted(alloc: Global, word: &Word) -> Result<Word, Memory>
    ensures { IfOk result (λ w. w ≡ inverted_of word.now) }
{
    let mut turned = List::new(alloc);
    for lit in word.as_slice() {
        turned.add(lit.negated())?;
    }
    Ok(turned)
}
