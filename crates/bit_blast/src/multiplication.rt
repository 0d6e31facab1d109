//! Products of words.
ghost use Rattle.std.specs.Prelude.{◌≡◌, ◌<◌, ◌≤◌, ℕ, length, IfOk, OnOk};
ghost use Rattle.cnf_form.specs.Limits.{most_vars};
ghost use Rattle.bit_blast.specs.Answers.{IsProduct};
ghost use Rattle.bit_blast.specs.Circuit.{no as negation};
ghost use Rattle.bit_blast.specs.Costs.{TakesUpTo, product_cost};
ghost use Rattle.bit_blast.specs.Made.{IsBelow, IfFull, Adds, Overfills};
ghost use Rattle.bit_blast.specs.Meaning.{Extends};
ghost use Rattle.bit_blast.specs.Words as op;

use crate::fault::BlastFault;
use crate::maker::Maker;
use crate::word::{Word, nothing};
use cnf_form::Lit;
use cov_base::List;
use std::alloc::Global;

impl Maker {
    /// The product, wrapped to the bits of the words. The words have one size of at least one bit,
    /// and their literals are below the formula's variables. Answers `Full` exactly where the
    /// variables would pass 2,000,000. The cost is quadratic in the bits.
    #[tactic(auto, using(crate::proofs::Laws::multiply_law, crate::proofs::Laws::room_kept))]
    pub fn multiply(&mut self, alloc: Global, a: &Word, b: &Word) -> Result<Word, BlastFault>
        requires size { length a.now ≡ length b.now }
        requires a { IsBelow self.old.vars a.now }
        requires b { IsBelow self.old.vars b.now }
        ensures made { IfOk result (Adds self.old self.new (λ n. op.multiply n a.now b.now)) }
        ensures full { IfFull result (Overfills self.old (λ n. op.multiply n a.now b.now)) }
        ensures value { IfOk result (IsProduct self.new a.now b.now) }
        ensures length { IfOk result (λ w. length w ≡ length a.now) }
        ensures below { IfOk result (IsBelow self.new.vars) }
        ensures cost { OnOk result (TakesUpTo self.old self.new (product_cost (length a.now))) }
        ensures room { self.new.vars ≤ most_vars }
        ensures kept { Extends self.old self.new }
    {
        let no = self.no();
        self.product(alloc, a.as_slice(), b.as_slice(), no)
    }

    /// The sum of the rows of the second word's bits.
    fn product(&mut self, alloc: Global, a: &[Lit], b: &[Lit], no: Lit) -> Result<Word, BlastFault>
        requires size { length a.now ≡ length b.now }
        requires a { IsBelow self.old.vars a.now }
        requires b { IsBelow self.old.vars b.now }
        requires no { no ≡ negation 0 }
        requires some { 0 < self.old.vars }
        ensures made { IfOk result (Adds self.old self.new (λ n. op.multiply n a.now b.now)) }
        ensures full { IfFull result (Overfills self.old (λ n. op.multiply n a.now b.now)) }
        ensures length { IfOk result (λ w. length w ≡ length a.now) }
        ensures below { IfOk result (IsBelow self.new.vars) }
        ensures cost { OnOk result (TakesUpTo self.old self.new (product_cost (length a.now))) }
        ensures kept { Extends self.old self.new }
    {
        let mut total = nothing(alloc, a.len(), no)?;
        for i in 0..b.len() {
            total = self.add_row(alloc, a, i, b[i], total.as_slice())?;
        }
        Ok(total)
    }

    /// A sum of rows, and one row more.
    fn add_row(
        &mut self,
        alloc: Global,
        a: &[Lit],
        shift: usize,
        b: Lit,
        total: &[Lit],
    ) -> Result<Word, BlastFault>
        requires shift { shift ≤ length a.now }
        requires a { IsBelow self.old.vars a.now }
        requires b { b.var < self.old.vars }
        requires size { length total.now ≡ length a.now }
        requires total { IsBelow self.old.vars total.now }
        ensures made { IfOk result
            (Adds self.old self.new (λ n. op.with_row n a.now shift b total.now)) }
        ensures full { IfFull result
            (Overfills self.old (λ n. op.with_row n a.now shift b total.now)) }
        ensures kept { Extends self.old self.new }
        ensures below { IfOk result (IsBelow self.new.vars) }
        ensures length { IfOk result (λ w. length w ≡ length a.now) }
    {
        let no = self.no();
        let row = self.row(alloc, a, shift, b, no)?;
        let total = self.sum(alloc, total, row.as_slice(), no)?;
        Ok(total)
    }

    /// A row of a product: the word shifted up by so many bits, where another literal is true.
    fn row(
        &mut self,
        alloc: Global,
        a: &[Lit],
        shift: usize,
        b: Lit,
        no: Lit,
    ) -> Result<Word, BlastFault>
        requires shift { shift ≤ length a.now }
        requires a { IsBelow self.old.vars a.now }
        requires b { b.var < self.old.vars }
        requires no { no ≡ negation 0 }
        ensures made { IfOk result (Adds self.old self.new (λ n. op.row n a.now shift b)) }
        ensures full { IfFull result (Overfills self.old (λ n. op.row n a.now shift b)) }
        ensures kept { Extends self.old self.new }
        ensures length { IfOk result (λ w. length w ≡ length a.now) }
    {
        let low = self.masked(alloc, &a[..a.len() - shift], b)?;
        let mut word = nothing(alloc, shift, no)?;
        word.extend_from_slice(low.as_slice())?;
        Ok(word)
    }

    /// Each bit of a word, where another literal is true.
    fn masked(&mut self, alloc: Global, a: &[Lit], b: Lit) -> Result<Word, BlastFault>
        requires a { IsBelow self.old.vars a.now }
        requires b { b.var < self.old.vars }
        ensures made { IfOk result (Adds self.old self.new (λ n. op.masked n a.now b)) }
        ensures full { IfFull result (Overfills self.old (λ n. op.masked n a.now b)) }
        ensures kept { Extends self.old self.new }
        ensures length { IfOk result (λ w. length w ≡ length a.now) }
    {
        let mut word = List::new(alloc);
        for lit in a {
            let bit = self.and_gate(alloc, *lit, b)?;
            word.add(bit)?;
        }
        Ok(word)
    }
}
