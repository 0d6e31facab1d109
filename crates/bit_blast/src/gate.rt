//! The gates as clauses.
ghost use Rattle.std.specs.Prelude.{◌≡◌, ◌∷◌, [], IfOk, OnOk};
ghost use Rattle.cnf_form.specs.Lits.{same, is_in, with_lit};
ghost use Rattle.bit_blast.specs.Circuit.{And, Or, Xor, Ite, yes as yes_of, no as no_of, once, clauses_of};
ghost use Rattle.bit_blast.specs.Made.{entry_of};

use cnf_form::{Clause, Lit};
use cov_base::{List, Memory};
use std::alloc::Global;

/// A gate over literals.
#[derive(Clone, Copy, Debug, PartialEq, Eq)]
pub(crate) enum Gate {
    And(Lit, Lit),
    Or(Lit, Lit),
    Xor(Lit, Lit),
    /// The second literal where the first is true, else the third.
    Ite(Lit, Lit, Lit),
}

/// The literal of a variable.
pub(crate) fn yes(var: u32) -> Lit
    ensures { result ≡ yes_of var }
{
    Lit {
        var,
        positive: true,
    }
}

/// The negation of a variable.
pub(crate) fn no(var: u32) -> Lit
    ensures { result ≡ no_of var }
{
    Lit {
        var,
        positive: false,
    }
}

#[tactic(auto, unfolding(cnf_form::specs::Lits::same))]
fn is_same(a: Lit, b: Lit) -> bool
    ensures { result ≡ same a b }
{
    a.var == b.var && a.positive == b.positive
}

#[tactic(auto, using(crate::proofs::Once::is_in_next, crate::proofs::Once::is_in_end))]
fn contains(lits: &[Lit], lit: Lit) -> bool
    ensures { result ≡ is_in lit lits.now }
{
    for other in lits {
        if is_same(lit, *other) {
            return true;
        }
    }
    false
}

/// Adds a literal at the end, where it isn't among them.
fn add_once(kept: &mut List<Lit>, lit: Lit) -> Result<(), Memory>
    ensures { OnOk result (kept.new ≡ with_lit lit kept.old) }
{
    if contains(kept.as_slice(), lit) {
        return Ok(());
    }
    kept.add(lit)
}

/// The clause of these literals, each once. It has no room for more.
#[tactic(auto, using(crate::proofs::Once::once_next, crate::proofs::Once::once_end, crate::proofs::Once::kept_once), unfolding(crate::specs::Circuit::once))]
pub(crate) fn clause(alloc: Global, lits: &[Lit]) -> Result<Clause, Memory>
    ensures { IfOk result (λ c. c ≡ once lits.now) }
{
    let mut kept = List::from_vec(Vec::with_capacity(alloc, lits.len())?);
    for lit in lits {
        add_once(&mut kept, *lit)?;
    }
    Ok(Clause::new(kept))
}

fn three(alloc: Global, a: Clause, b: Clause, c: Clause) -> Result<List<Clause>, Memory>
    ensures { IfOk result (λ cs. cs ≡ a ∷ b ∷ c ∷ []) }
{
    let mut clauses = List::new(alloc);
    clauses.add(a)?;
    clauses.add(b)?;
    clauses.add(c)?;
    Ok(clauses)
}

fn four(alloc: Global, a: Clause, b: Clause, c: Clause, d: Clause) -> Result<List<Clause>, Memory>
    ensures { IfOk result (λ cs. cs ≡ a ∷ b ∷ c ∷ d ∷ []) }
{
    let mut clauses = three(alloc, a, b, c)?;
    clauses.add(d)?;
    Ok(clauses)
}

fn and_clauses(alloc: Global, v: u32, a: Lit, b: Lit) -> Result<List<Clause>, Memory>
    ensures { IfOk result (λ cs. cs ≡ clauses_of v (And a b)) }
{
    let first = clause(alloc, &[no(v), a])?;
    let second = clause(alloc, &[no(v), b])?;
    let third = clause(alloc, &[yes(v), a.negated(), b.negated()])?;
    three(alloc, first, second, third)
}

fn or_clauses(alloc: Global, v: u32, a: Lit, b: Lit) -> Result<List<Clause>, Memory>
    ensures { IfOk result (λ cs. cs ≡ clauses_of v (Or a b)) }
{
    let first = clause(alloc, &[yes(v), a.negated()])?;
    let second = clause(alloc, &[yes(v), b.negated()])?;
    let third = clause(alloc, &[no(v), a, b])?;
    three(alloc, first, second, third)
}

fn xor_clauses(alloc: Global, v: u32, a: Lit, b: Lit) -> Result<List<Clause>, Memory>
    ensures { IfOk result (λ cs. cs ≡ clauses_of v (Xor a b)) }
{
    let first = clause(alloc, &[no(v), a, b])?;
    let second = clause(alloc, &[no(v), a.negated(), b.negated()])?;
    let third = clause(alloc, &[yes(v), a.negated(), b])?;
    let fourth = clause(alloc, &[yes(v), a, b.negated()])?;
    four(alloc, first, second, third, fourth)
}

fn ite_clauses(alloc: Global, v: u32, c: Lit, a: Lit, b: Lit) -> Result<List<Clause>, Memory>
    ensures { IfOk result (λ cs. cs ≡ clauses_of v (Ite c a b)) }
{
    let first = clause(alloc, &[no(v), c.negated(), a])?;
    let second = clause(alloc, &[yes(v), c.negated(), a.negated()])?;
    let third = clause(alloc, &[no(v), c, b])?;
    let fourth = clause(alloc, &[yes(v), c, b.negated()])?;
    four(alloc, first, second, third, fourth)
}

/// The clauses by which variable `v` is a gate's result.
pub(crate) fn clauses(alloc: Global, v: u32, gate: Gate) -> Result<List<Clause>, Memory>
    ensures { IfOk result (λ cs. cs ≡ clauses_of v (entry_of gate)) }
{
    match gate {
        Gate::And(a, b) => and_clauses(alloc, v, a, b),
        Gate::Or(a, b) => or_clauses(alloc, v, a, b),
        Gate::Xor(a, b) => xor_clauses(alloc, v, a, b),
        Gate::Ite(c, a, b) => ite_clauses(alloc, v, c, a, b),
    }
}
