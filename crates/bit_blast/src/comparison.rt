//! Comparisons of words.
ghost use Rattle.std.specs.Prelude.{◌≡◌, ◌+◌, ◌<◌, ◌≤◌, ℕ, suc, [], ◌∷◌, cond, length, IfOk, OnOk};
ghost use Rattle.cnf_form.specs.Limits.{most_vars};
ghost use Rattle.bit_blast.specs.Answers.{IsEquality, IsOrder};
ghost use Rattle.bit_blast.specs.Circuit.{And, Xor, Ite, yes as literal, no as negation, after, with_entries};
ghost use Rattle.bit_blast.specs.Costs.{TakesUpTo, equality_cost, order_cost};
ghost use Rattle.bit_blast.specs.Made.{IsBelow, IfFull, Adds, Overfills};
ghost use Rattle.bit_blast.specs.Meaning.{Extends};
ghost use Rattle.bit_blast.specs.Words as op;

use crate::fault::BlastFault;
use crate::gate::no;
use crate::maker::Maker;
use crate::word::Word;
use cnf_form::Lit;
use std::alloc::Global;

fn either(first: bool, a: Lit, b: Lit) -> Lit
    ensures { result ≡ cond first a b }
{
    if first { a } else { b }
}

impl Maker {
    /// Whether two words are equal. They have one size of at least one bit, and their literals are
    /// below the formula's variables. Answers `Full` exactly where the variables would pass
    /// 2,000,000. The cost is linear in the bits.
    #[tactic(auto, using(crate::proofs::Laws::room_kept))]
    pub fn equal(&mut self, alloc: Global, a: &Word, b: &Word) -> Result<Lit, BlastFault>
        requires size { length a.now ≡ length b.now }
        requires a { IsBelow self.old.vars a.now }
        requires b { IsBelow self.old.vars b.now }
        ensures made { IfOk result (Adds self.old self.new (λ n. op.equal n a.now b.now)) }
        ensures full { IfFull result (Overfills self.old (λ n. op.equal n a.now b.now)) }
        ensures value { IfOk result (IsEquality self.new a.now b.now) }
        ensures below { IfOk result (λ lit. lit.var < self.new.vars) }
        ensures cost { OnOk result (TakesUpTo self.old self.new (equality_cost (length a.now))) }
        ensures room { self.new.vars ≤ most_vars }
        ensures kept { Extends self.old self.new }
    {
        let yes = self.yes();
        let same = self.equality(alloc, a.as_slice(), b.as_slice(), yes)?;
        Ok(same)
    }

    /// Whether the first word is less than the second, as numbers with a sign. The words have one
    /// size of at least one bit, and their literals are below the formula's variables. Answers
    /// `Full` exactly where the variables would pass 2,000,000. The cost is linear in the bits.
    #[tactic(auto, using(crate::proofs::Laws::less_law, crate::proofs::Laws::room_kept))]
    pub fn less(&mut self, alloc: Global, a: &Word, b: &Word) -> Result<Lit, BlastFault>
        requires size { length a.now ≡ length b.now }
        requires some { 1 ≤ length a.now }
        requires a { IsBelow self.old.vars a.now }
        requires b { IsBelow self.old.vars b.now }
        ensures made { IfOk result (Adds self.old self.new (λ n. op.less n a.now b.now)) }
        ensures full { IfFull result (Overfills self.old (λ n. op.less n a.now b.now)) }
        ensures value { IfOk result (IsOrder self.new a.now b.now) }
        ensures below { IfOk result (λ lit. lit.var < self.new.vars) }
        ensures cost { OnOk result (TakesUpTo self.old self.new (order_cost (length a.now))) }
        ensures room { self.new.vars ≤ most_vars }
        ensures kept { Extends self.old self.new }
    {
        let no = self.no();
        self.order(alloc, a.as_slice(), b.as_slice(), no)
    }

    fn equality(&mut self, alloc: Global, a: &[Lit], b: &[Lit], yes: Lit) -> Result<Lit, BlastFault>
        requires size { length a.now ≡ length b.now }
        requires a { IsBelow self.old.vars a.now }
        requires b { IsBelow self.old.vars b.now }
        requires yes { yes.var < self.old.vars }
        ensures made { IfOk result (Adds self.old self.new (λ n. op.equal_from n a.now b.now yes)) }
        ensures full { IfFull result (Overfills self.old (λ n. op.equal_from n a.now b.now yes)) }
        ensures below { IfOk result (λ lit. lit.var < self.new.vars) }
        ensures cost { OnOk result (TakesUpTo self.old self.new (equality_cost (length a.now))) }
        ensures kept { Extends self.old self.new }
    {
        let mut equal = yes;
        for i in 0..a.len() {
            equal = self.equal_bit(alloc, a[i], b[i], equal)?;
        }
        Ok(equal)
    }

    fn order(&mut self, alloc: Global, a: &[Lit], b: &[Lit], no: Lit) -> Result<Lit, BlastFault>
        requires size { length a.now ≡ length b.now }
        requires a { IsBelow self.old.vars a.now }
        requires b { IsBelow self.old.vars b.now }
        requires no { no.var < self.old.vars }
        ensures made { IfOk result (Adds self.old self.new (λ n. op.less_from n a.now b.now no)) }
        ensures full { IfFull result (Overfills self.old (λ n. op.less_from n a.now b.now no)) }
        ensures below { IfOk result (λ lit. lit.var < self.new.vars) }
        ensures cost { OnOk result (TakesUpTo self.old self.new (order_cost (length a.now))) }
        ensures kept { Extends self.old self.new }
    {
        let mut less = no;
        for i in 0..a.len() {
            let where_differ = either(i + 1 == a.len(), a[i], b[i]);
            less = self.less_bit(alloc, a[i], b[i], where_differ, less)?;
        }
        Ok(less)
    }

    /// Whether two words are equal at a bit, where those before are.
    fn equal_bit(&mut self, alloc: Global, a: Lit, b: Lit, before: Lit) -> Result<Lit, BlastFault>
        requires a { a.var < self.old.vars }
        requires b { b.var < self.old.vars }
        requires before { before.var < self.old.vars }
        ensures made { OnOk result
            (self.new ≡ with_entries self.old (op.equal_gates self.old.vars a b before)) }
        ensures result { IfOk result (λ lit. lit ≡ literal (suc self.old.vars)) }
        ensures full { IfFull result
            (most_vars < after self.old.vars (op.equal_gates self.old.vars a b before)) }
        ensures kept { Extends self.old self.new }
    {
        let x = self.xor_gate(alloc, a, b)?;
        self.and_gate(alloc, before, no(x.var))
    }

    /// Whether a word is less than another one at a bit, behind the bits before: where the words
    /// differ there, the chosen literal.
    fn less_bit(
        &mut self,
        alloc: Global,
        a: Lit,
        b: Lit,
        chosen: Lit,
        before: Lit,
    ) -> Result<Lit, BlastFault>
        requires a { a.var < self.old.vars }
        requires b { b.var < self.old.vars }
        requires chosen { chosen.var < self.old.vars }
        requires before { before.var < self.old.vars }
        ensures made { OnOk result
            (self.new ≡ with_entries self.old (op.less_gates self.old.vars a b chosen before)) }
        ensures result { IfOk result (λ lit. lit ≡ literal (suc self.old.vars)) }
        ensures full { IfFull result
            (most_vars < after self.old.vars (op.less_gates self.old.vars a b chosen before)) }
        ensures kept { Extends self.old self.new }
    {
        let x = self.xor_gate(alloc, a, b)?;
        self.ite_gate(alloc, x, chosen, before)
    }
}
