//! Sums, differences and negations of words.
ghost use Rattle.std.specs.Prelude.{◌≡◌, ◌<◌, ◌≤◌, ℕ, length, IfOk, OnOk};
ghost use Rattle.cnf_form.specs.Limits.{most_vars};
ghost use Rattle.bit_blast.specs.Answers.{IsSum, IsDifference, IsNegation};
ghost use Rattle.bit_blast.specs.Circuit.{yes as literal, after, with_entries};
ghost use Rattle.bit_blast.specs.Costs.{TakesUpTo, sum_cost};
ghost use Rattle.bit_blast.specs.Made.{IsBelow, IfFull, Adds, Overfills};
ghost use Rattle.bit_blast.specs.Meaning.{Extends};
ghost use Rattle.bit_blast.specs.Words as op;

use crate::fault::BlastFault;
use crate::maker::Maker;
use crate::word::{Word, inverted, nothing};
use cnf_form::Lit;
use cov_base::List;
use std::alloc::Global;

impl Maker {
    /// The sum, wrapped to the bits of the words. The words have one size of at least one bit, and
    /// their literals are below the formula's variables. Answers `Full` exactly where the variables
    /// would pass 2,000,000. The cost is linear in the bits.
    #[tactic(auto, using(crate::proofs::Laws::add_law, crate::proofs::Laws::room_kept))]
    pub fn add(&mut self, alloc: Global, a: &Word, b: &Word) -> Result<Word, BlastFault>
        requires size { length a.now ≡ length b.now }
        requires a { IsBelow self.old.vars a.now }
        requires b { IsBelow self.old.vars b.now }
        ensures made { IfOk result (Adds self.old self.new (λ n. op.add n a.now b.now)) }
        ensures full { IfFull result (Overfills self.old (λ n. op.add n a.now b.now)) }
        ensures value { IfOk result (IsSum self.new a.now b.now) }
        ensures length { IfOk result (λ w. length w ≡ length a.now) }
        ensures below { IfOk result (IsBelow self.new.vars) }
        ensures cost { OnOk result (TakesUpTo self.old self.new (sum_cost (length a.now))) }
        ensures room { self.new.vars ≤ most_vars }
        ensures kept { Extends self.old self.new }
    {
        let no = self.no();
        self.sum(alloc, a.as_slice(), b.as_slice(), no)
    }

    /// The difference, wrapped to the bits of the words. The words have one size of at least one
    /// bit, and their literals are below the formula's variables. Answers `Full` exactly where the
    /// variables would pass 2,000,000. The cost is linear in the bits.
    #[tactic(auto, using(crate::proofs::Laws::subtract_law, crate::proofs::Laws::room_kept, crate::proofs::Laws::length_inverted, crate::proofs::Laws::inverted_below))]
    pub fn subtract(&mut self, alloc: Global, a: &Word, b: &Word) -> Result<Word, BlastFault>
        requires size { length a.now ≡ length b.now }
        requires a { IsBelow self.old.vars a.now }
        requires b { IsBelow self.old.vars b.now }
        ensures made { IfOk result (Adds self.old self.new (λ n. op.subtract n a.now b.now)) }
        ensures full { IfFull result (Overfills self.old (λ n. op.subtract n a.now b.now)) }
        ensures value { IfOk result (IsDifference self.new a.now b.now) }
        ensures length { IfOk result (λ w. length w ≡ length a.now) }
        ensures below { IfOk result (IsBelow self.new.vars) }
        ensures cost { OnOk result (TakesUpTo self.old self.new (sum_cost (length a.now))) }
        ensures room { self.new.vars ≤ most_vars }
        ensures kept { Extends self.old self.new }
    {
        let yes = self.yes();
        let turned = inverted(alloc, b.as_slice())?;
        let difference = self.sum(alloc, a.as_slice(), turned.as_slice(), yes)?;
        Ok(difference)
    }

    /// The negation, wrapped to the bits of the word. The word has at least one bit, and its
    /// literals are below the formula's variables. Answers `Full` exactly where the variables would
    /// pass 2,000,000. The cost is linear in the bits.
    #[tactic(auto, using(crate::proofs::Laws::negate_law, crate::proofs::Laws::room_kept, crate::proofs::Laws::length_inverted, crate::proofs::Laws::length_nothing, crate::proofs::Laws::inverted_below, crate::proofs::Laws::nothing_below))]
    pub fn negate(&mut self, alloc: Global, a: &Word) -> Result<Word, BlastFault>
        requires a { IsBelow self.old.vars a.now }
        ensures made { IfOk result (Adds self.old self.new (λ n. op.negate n a.now)) }
        ensures full { IfFull result (Overfills self.old (λ n. op.negate n a.now)) }
        ensures value { IfOk result (IsNegation self.new a.now) }
        ensures length { IfOk result (λ w. length w ≡ length a.now) }
        ensures below { IfOk result (IsBelow self.new.vars) }
        ensures cost { OnOk result (TakesUpTo self.old self.new (sum_cost (length a.now))) }
        ensures room { self.new.vars ≤ most_vars }
        ensures kept { Extends self.old self.new }
    {
        let yes = self.yes();
        let no = self.no();
        let zero = nothing(alloc, a.len(), no)?;
        let turned = inverted(alloc, a.as_slice())?;
        let negation = self.sum(alloc, zero.as_slice(), turned.as_slice(), yes)?;
        Ok(negation)
    }

    /// The sum of two words and a carry.
    pub(crate) fn sum(
        &mut self,
        alloc: Global,
        a: &[Lit],
        b: &[Lit],
        carry: Lit,
    ) -> Result<Word, BlastFault>
        requires size { length a.now ≡ length b.now }
        requires a { IsBelow self.old.vars a.now }
        requires b { IsBelow self.old.vars b.now }
        requires carry { carry.var < self.old.vars }
        ensures made { IfOk result (Adds self.old self.new (λ n. op.sum n a.now b.now carry)) }
        ensures full { IfFull result (Overfills self.old (λ n. op.sum n a.now b.now carry)) }
        ensures length { IfOk result (λ w. length w ≡ length a.now) }
        ensures below { IfOk result (IsBelow self.new.vars) }
        ensures cost { OnOk result (TakesUpTo self.old self.new (sum_cost (length a.now))) }
        ensures kept { Extends self.old self.new }
    {
        let mut carry = carry;
        let mut word = List::new(alloc);
        for i in 0..a.len() {
            let (bit, next) = self.adder(alloc, a[i], b[i], carry)?;
            word.add(bit)?;
            carry = next;
        }
        Ok(word)
    }

    /// One bit of a sum: the sum and the next carry.
    fn adder(&mut self, alloc: Global, a: Lit, b: Lit, carry: Lit) -> Result<(Lit, Lit), BlastFault>
        requires a { a.var < self.old.vars }
        requires b { b.var < self.old.vars }
        requires carry { carry.var < self.old.vars }
        ensures made { OnOk result
            (self.new ≡ with_entries self.old (op.adder self.old.vars a b carry)) }
        ensures sum { IfOk result (λ pair. pair.0 ≡ literal (op.adder_sum self.old.vars)) }
        ensures carry { IfOk result (λ pair. pair.1 ≡ literal (op.adder_carry self.old.vars)) }
        ensures full { IfFull result
            (most_vars < after self.old.vars (op.adder self.old.vars a b carry)) }
        ensures kept { Extends self.old self.new }
    {
        let x = self.xor_gate(alloc, a, b)?;
        let sum = self.xor_gate(alloc, x, carry)?;
        let both = self.and_gate(alloc, a, b)?;
        let carried = self.and_gate(alloc, x, carry)?;
        let next = self.or_gate(alloc, both, carried)?;
        Ok((sum, next))
    }
}
