ghost use Rattle.std.specs.Prelude.{◌≡◌, ◌+◌, ◌<◌, ◌≤◌, ℕ, [], ◌∷◌, ◌++◌, length, IfOk, OnOk, OnErr, IfErr, IsTrue};
ghost use Rattle.cnf_form.specs.Limits.{most_vars, most_clauses};
ghost use Rattle.cnf_form.specs.Lits.{below, all_below};
ghost use Rattle.cnf_form.specs.Shape.{shape, IsFormula};
ghost use Rattle.bit_blast.specs.Answers.{IsTrueIn, IsBoth, IsEither, IsOneOf};
ghost use Rattle.bit_blast.specs.Circuit.{Free, And, Or, Xor, Ite, Require, yes as literal, no as negation, with_entry};
ghost use Rattle.bit_blast.specs.Costs.{TakesUpTo};
ghost use Rattle.bit_blast.specs.Limits.{most_required};
ghost use Rattle.bit_blast.specs.Made.{AddsSome, IsMade, IfFull, entry_of, first_formula};
ghost use Rattle.bit_blast.specs.Meaning.{ReadsBelow, Extends};

use crate::fault::BlastFault;
use crate::gate::{Gate, clause, clauses, no, yes};
use cnf_form::{Clause, Formula, Lit};
use cov_base::{List, Memory};
use std::alloc::Global;
use std::marker::Model;

/// The most variables of a formula.
const MOST_VARS: u32 = 2_000_000;

/// A formula under construction, whose variable 0 is true in every model.
///
/// A gate takes the next variable as its result and adds the clauses by which it has the gate's
/// value. So each assignment that satisfied the formula before extends to one that satisfies it
/// after, and a word that a call answers is the operator's answer in each of them. A call that is
/// refused may leave further gates, which constrain no old variable. A gate adds at most 16 clauses
/// for each variable that it adds; a maker has at most 100,000,000 clauses and 16 for each variable
/// besides.
#[derive(Debug, Drop)]
pub struct Maker {
    formula: Formula,
}

impl Model for Maker {
    ghost use Rattle.cnf_form.specs.Shape.{Shape};
    ghost use Rattle.bit_blast.specs.Made.{IsMade};

    ghost Value = { Shape };

    ghost view = { λ m. m.formula };

    ghost invariant = { λ m. IsMade m.formula };
}

/// Adds the clauses, or some first ones of them for want of memory.
fn push_all(formula: &mut Formula, clauses: List<Clause>) -> Result<(), Memory>
    requires inside { IsTrue (all_below formula.old.vars clauses) }
    requires few { length formula.old.clauses + length clauses ≤ most_clauses }
    ensures ok { OnOk result
        (formula.new ≡ shape formula.old.vars (formula.old.clauses ++ clauses)) }
    ensures some { AddsSome formula.old formula.new clauses }
{
    for clause in clauses.into_vec() {
        if formula.push(clause).is_err() {
            return Err(Memory);
        }
    }
    Ok(())
}

/// A copy of a clause. It has no room for more.
fn copied_clause(alloc: Global, clause: &Clause) -> Result<Clause, Memory>
    ensures { IfOk result (λ copy. copy ≡ clause.now) }
{
    let lits = List::from_vec(clause.lits().to_vec(alloc)?);
    Ok(Clause::new(lits))
}

/// A copy of a formula.
fn copied(alloc: Global, formula: &Formula) -> Result<Formula, Memory>
    ensures { IfOk result (λ copy. copy ≡ formula.now) }
{
    let mut copy = Formula::new(alloc, formula.vars());
    for clause in formula.clauses() {
        let clause = copied_clause(alloc, clause)?;
        if copy.push(clause).is_err() {
            return Err(Memory);
        }
    }
    Ok(copy)
}

impl Maker {
    /// The formula of one variable, which is true. Answers `Memory` for want of it. Constant time.
    #[tactic(auto, unfolding(crate::specs::Circuit::once))]
    pub fn new(alloc: Global) -> Result<Maker, Memory>
        ensures { IfOk result (λ m. m ≡ first_formula) }
    {
        let mut formula = Formula::new(alloc, 1);
        let first = clause(alloc, &[yes(0)])?;
        if formula.push(first).is_err() {
            return Err(Memory);
        }
        Ok(Maker { formula })
    }

    /// A copy, equal to this maker, or `Memory` for want of it. The cost is linear in the literals
    /// of the formula.
    pub fn copy(&self, alloc: Global) -> Result<Maker, Memory>
        ensures { IfOk result (λ copy. copy ≡ self.now) }
    {
        let formula = copied(alloc, &self.formula)?;
        Ok(Maker { formula })
    }

    /// The formula so far, in constant time.
    pub fn formula(&self) -> &Formula
        ensures value { result.now ≡ self.now }
        ensures made { IsMade self.now }
    {
        &self.formula
    }

    /// The literal that is true in every model. Constant time.
    #[tactic(auto, using(crate::proofs::Laws::yes_true))]
    pub fn yes(&self) -> Lit
        ensures value { result ≡ literal 0 }
        ensures always { IsTrueIn self.now result }
        ensures made { IsMade self.now }
    {
        let _formula = &self.formula;
        yes(0)
    }

    /// The literal that is false in every model.
    pub(crate) fn no(&self) -> Lit
        ensures value { result ≡ negation 0 }
        ensures made { IsMade self.now }
    {
        let _formula = &self.formula;
        no(0)
    }

    /// Hands the formula out. Constant time.
    pub fn finish(self) -> Formula
        ensures { result ≡ self }
    {
        let Maker { formula } = self;
        formula
    }

    /// Adds a clause, or gives it back for want of memory. Its literals are below the formula's
    /// variables, and the formula has fewer than 100,000,000 clauses. Constant time over many
    /// calls.
    #[tactic(auto, using(crate::proofs::Gates::required_made))]
    pub fn require(&mut self, clause: Clause) -> Result<(), Clause>
        requires inside { IsTrue (below self.old.vars clause) }
        requires few { length self.old.clauses < most_required }
        ensures ok { OnOk result (self.new ≡ with_entry self.old (Require clause)) }
        ensures err { OnErr result (self.new ≡ self.old) }
        ensures returned { IfErr result (λ back. back ≡ clause) }
    {
        match self.formula.push(clause) {
            Ok(()) => Ok(()),
            Err(back) => Err(back),
        }
    }

    /// Makes a gate, whose variable is the next one.
    fn gate(&mut self, alloc: Global, gate: Gate) -> Result<Lit, BlastFault>
        requires { ReadsBelow self.old.vars (entry_of gate) }
        ensures made { OnOk result (self.new ≡ with_entry self.old (entry_of gate)) }
        ensures result { IfOk result (λ lit. lit ≡ literal self.old.vars) }
        ensures full { IfFull result (most_vars ≤ self.old.vars) }
        ensures room { self.new.vars ≤ most_vars }
        ensures kept { Extends self.old self.new }
    {
        let var = self.formula.vars();
        if var == MOST_VARS {
            return Err(BlastFault::Full);
        }
        let clauses = clauses(alloc, var, gate)?;
        self.formula.grow(var + 1);
        push_all(&mut self.formula, clauses)?;
        Ok(yes(var))
    }

    /// The next variable, which nothing constrains.
    #[tactic(auto, using(crate::proofs::Gates::free_made, crate::proofs::Gates::free_extends, crate::proofs::Gates::free_is))]
    pub(crate) fn free(&mut self) -> Result<Lit, BlastFault>
        ensures made { OnOk result (self.new ≡ with_entry self.old Free) }
        ensures result { IfOk result (λ lit. lit ≡ literal self.old.vars) }
        ensures full { OnErr result (most_vars ≤ self.old.vars) }
        ensures room { self.new.vars ≤ most_vars }
        ensures kept { Extends self.old self.new }
    {
        let var = self.formula.vars();
        if var == MOST_VARS {
            return Err(BlastFault::Full);
        }
        self.formula.grow(var + 1);
        Ok(yes(var))
    }

    /// The gate that is true where both literals are. The literals are below the formula's
    /// variables. Answers `Full` exactly where the formula has 2,000,000 variables. Constant time
    /// over many calls.
    #[tactic(auto, using(crate::proofs::Laws::and_value))]
    pub fn and_gate(&mut self, alloc: Global, a: Lit, b: Lit) -> Result<Lit, BlastFault>
        requires a { a.var < self.old.vars }
        requires b { b.var < self.old.vars }
        ensures made { OnOk result (self.new ≡ with_entry self.old (And a b)) }
        ensures result { IfOk result (λ lit. lit ≡ literal self.old.vars) }
        ensures full { IfFull result (most_vars ≤ self.old.vars) }
        ensures value { IfOk result (IsBoth self.new a b) }
        ensures below { IfOk result (λ lit. lit.var < self.new.vars) }
        ensures cost { OnOk result (TakesUpTo self.old self.new 1) }
        ensures room { self.new.vars ≤ most_vars }
        ensures kept { Extends self.old self.new }
    {
        self.gate(alloc, Gate::And(a, b))
    }

    /// The gate that is true where one of the literals is, or both. The literals are below the
    /// formula's variables. Answers `Full` exactly where the formula has 2,000,000 variables.
    /// Constant time over many calls.
    #[tactic(auto, using(crate::proofs::Laws::or_value))]
    pub fn or_gate(&mut self, alloc: Global, a: Lit, b: Lit) -> Result<Lit, BlastFault>
        requires a { a.var < self.old.vars }
        requires b { b.var < self.old.vars }
        ensures made { OnOk result (self.new ≡ with_entry self.old (Or a b)) }
        ensures result { IfOk result (λ lit. lit ≡ literal self.old.vars) }
        ensures full { IfFull result (most_vars ≤ self.old.vars) }
        ensures value { IfOk result (IsEither self.new a b) }
        ensures below { IfOk result (λ lit. lit.var < self.new.vars) }
        ensures cost { OnOk result (TakesUpTo self.old self.new 1) }
        ensures room { self.new.vars ≤ most_vars }
        ensures kept { Extends self.old self.new }
    {
        self.gate(alloc, Gate::Or(a, b))
    }

    /// The gate that is true where just one of the literals is. The literals are below the
    /// formula's variables. Answers `Full` exactly where the formula has 2,000,000 variables.
    /// Constant time over many calls.
    #[tactic(auto, using(crate::proofs::Laws::xor_value))]
    pub fn xor_gate(&mut self, alloc: Global, a: Lit, b: Lit) -> Result<Lit, BlastFault>
        requires a { a.var < self.old.vars }
        requires b { b.var < self.old.vars }
        ensures made { OnOk result (self.new ≡ with_entry self.old (Xor a b)) }
        ensures result { IfOk result (λ lit. lit ≡ literal self.old.vars) }
        ensures full { IfFull result (most_vars ≤ self.old.vars) }
        ensures value { IfOk result (IsOneOf self.new a b) }
        ensures below { IfOk result (λ lit. lit.var < self.new.vars) }
        ensures cost { OnOk result (TakesUpTo self.old self.new 1) }
        ensures room { self.new.vars ≤ most_vars }
        ensures kept { Extends self.old self.new }
    {
        self.gate(alloc, Gate::Xor(a, b))
    }

    /// The gate that is the second literal where the first is true, else the third.
    pub(crate) fn ite_gate(
        &mut self,
        alloc: Global,
        c: Lit,
        a: Lit,
        b: Lit,
    ) -> Result<Lit, BlastFault>
        requires c { c.var < self.old.vars }
        requires a { a.var < self.old.vars }
        requires b { b.var < self.old.vars }
        ensures made { OnOk result (self.new ≡ with_entry self.old (Ite c a b)) }
        ensures result { IfOk result (λ lit. lit ≡ literal self.old.vars) }
        ensures full { IfFull result (most_vars ≤ self.old.vars) }
        ensures room { self.new.vars ≤ most_vars }
        ensures kept { Extends self.old self.new }
    {
        self.gate(alloc, Gate::Ite(c, a, b))
    }
}
