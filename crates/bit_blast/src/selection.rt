//! Words of free variables, and the choice between two words.
ghost use Rattle.std.specs.Prelude.{◌≡◌, ◌<◌, ◌≤◌, ℕ, length, IfOk, OnOk};
ghost use Rattle.cnf_form.specs.Limits.{most_vars};
ghost use Rattle.bit_blast.specs.Answers.{IsChoice};
ghost use Rattle.bit_blast.specs.Costs.{TakesUpTo};
ghost use Rattle.bit_blast.specs.Made.{IsBelow, IfFull, Adds, Overfills};
ghost use Rattle.bit_blast.specs.Meaning.{Extends};
ghost use Rattle.bit_blast.specs.Words as op;

use crate::fault::BlastFault;
use crate::maker::Maker;
use crate::word::Word;
use cnf_form::Lit;
use cov_base::List;
use std::alloc::Global;

impl Maker {
    /// A word of so many free variables, which nothing constrains. Answers `Full` exactly where the
    /// variables would pass 2,000,000. The cost is linear in the bits.
    #[tactic(auto, using(crate::proofs::Laws::room_kept))]
    pub fn fresh(&mut self, alloc: Global, bits: u32) -> Result<Word, BlastFault>
        ensures made { IfOk result (Adds self.old self.new (λ n. op.fresh n bits)) }
        ensures full { IfFull result (Overfills self.old (λ n. op.fresh n bits)) }
        ensures length { IfOk result (λ w. length w ≡ bits) }
        ensures below { IfOk result (IsBelow self.new.vars) }
        ensures cost { OnOk result (TakesUpTo self.old self.new bits) }
        ensures room { self.new.vars ≤ most_vars }
        ensures kept { Extends self.old self.new }
    {
        let _formula = self.formula();
        let mut word = List::new(alloc);
        for _bit in 0..bits {
            let lit = self.free()?;
            word.add(lit)?;
        }
        Ok(word)
    }

    /// The first word where the literal is true, else the second. The words have one size, and all
    /// literals are below the formula's variables. Answers `Full` exactly where the variables would
    /// pass 2,000,000. The cost is linear in the bits.
    #[tactic(auto, using(crate::proofs::Laws::ite_law, crate::proofs::Laws::room_kept))]
    pub fn ite_word(
        &mut self,
        alloc: Global,
        c: Lit,
        a: &Word,
        b: &Word,
    ) -> Result<Word, BlastFault>
        requires size { length a.now ≡ length b.now }
        requires c { c.var < self.old.vars }
        requires a { IsBelow self.old.vars a.now }
        requires b { IsBelow self.old.vars b.now }
        ensures made { IfOk result (Adds self.old self.new (λ n. op.ite n c a.now b.now)) }
        ensures full { IfFull result (Overfills self.old (λ n. op.ite n c a.now b.now)) }
        ensures value { IfOk result (IsChoice self.new c a.now b.now) }
        ensures length { IfOk result (λ w. length w ≡ length a.now) }
        ensures below { IfOk result (IsBelow self.new.vars) }
        ensures cost { OnOk result (TakesUpTo self.old self.new (length a.now)) }
        ensures room { self.new.vars ≤ most_vars }
        ensures kept { Extends self.old self.new }
    {
        let _formula = self.formula();
        self.choice(alloc, c, a.as_slice(), b.as_slice())
    }

    fn choice(&mut self, alloc: Global, c: Lit, a: &[Lit], b: &[Lit]) -> Result<Word, BlastFault>
        requires size { length a.now ≡ length b.now }
        requires c { c.var < self.old.vars }
        requires a { IsBelow self.old.vars a.now }
        requires b { IsBelow self.old.vars b.now }
        ensures made { IfOk result (Adds self.old self.new (λ n. op.ite n c a.now b.now)) }
        ensures full { IfFull result (Overfills self.old (λ n. op.ite n c a.now b.now)) }
        ensures length { IfOk result (λ w. length w ≡ length a.now) }
        ensures below { IfOk result (IsBelow self.new.vars) }
        ensures cost { OnOk result (TakesUpTo self.old self.new (length a.now)) }
        ensures kept { Extends self.old self.new }
    {
        let mut word = List::new(alloc);
        for i in 0..a.len() {
            let bit = self.ite_gate(alloc, c, a[i], b[i])?;
            word.add(bit)?;
        }
        Ok(word)
    }
}
