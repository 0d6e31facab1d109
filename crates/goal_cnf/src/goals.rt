ghost use Rattle.std.specs.Prelude.{◌≡◌, ◌<◌, ◌≤◌, All, IfOk, IsTrue, length};
ghost use Rattle.cnf_form.specs.Limits.{most_vars};
ghost use Rattle.cnf_form.specs.Lits.{no_twice};
ghost use Rattle.dep_paths.specs.Duties.{IsPlanOf, IsWithinLimits};
ghost use Rattle.unroll_cnf.specs.Made.{AreWords, HasRoom, IsUnrolled};
ghost use Rattle.unroll_cnf.specs.Sizes.{size_of};
ghost use Rattle.goal_cnf.specs.Made.{AreStreams, IsGoal, IsGoalOf, IsListed, IsPlanIn};

use crate::formula::Goal;
use crate::instants::hits;
use bit_blast::{BlastFault, Maker};
use cnf_form::{Clause, Lit};
use cov_base::{List, Memory};
use dep_paths::{Obligation, Plan};
use lus_causality::Ordered;
use std::alloc::Global;
use unroll_cnf::Unrolled;

/// A clause of these literals.
fn clause_of(alloc: Global, lits: &[Lit]) -> Result<Clause, Memory>
    requires { IsTrue (no_twice lits.now) }
    ensures { IfOk result (λ clause. clause ≡ lits.now) }
{
    let lits = List::from_vec(lits.to_vec(alloc)?);
    Ok(Clause::new(lits))
}

/// The goal of an obligation of a plan.
fn goal_of(
    alloc: Global,
    un: &Unrolled,
    net: &Ordered,
    plan: &Plan,
    duty: Obligation,
) -> Result<Goal, Memory>
    requires streams { AreStreams net.now.network un.now }
    requires unrolled { let k = un.now.instants in
        IsUnrolled net.now.network net.now.sequence k un.now }
    requires room { HasRoom un.now.formula 1 }
    requires size { size_of net.now.network un.now.instants ≤ most_vars }
    requires plan { IsPlanIn net.now.network plan.now }
    requires limits { IsWithinLimits plan.now }
    requires listed { IsListed plan.now duty }
    ensures goal { let k = un.now.instants in let order = net.now.sequence in
        IfOk result (IsGoalOf net.now.network order plan.now duty k) }
    ensures vars { let size = size_of net.now.network un.now.instants in
        IfOk result (λ it. it.formula.vars ≤ size) }
{
    // what the network says of its sequence is known once that is read
    let _sequence = net.sequence();
    let mut maker = un.maker().copy(alloc)?;
    match hits(alloc, &mut maker, un, net, plan, duty) {
        Ok(hits) => {
            let clause = clause_of(alloc, hits.as_slice())?;
            if maker.require(clause).is_err() {
                return Err(Memory);
            }
            Ok(Goal {
                formula: maker.finish(),
                hits,
            })
        }
        Err(BlastFault::Memory) => Err(Memory),
        Err(BlastFault::Full) => unreachable!(),
    }
}

/// The formula that has a model exactly where some admissible sequence of inputs within the `k`
/// instants of `un` meets an obligation at its last instant. `o` is the obligation's place in the
/// plan's obligations, from 0. Behind the formula of `un` stand, instant by instant, the gates of
/// the obligation, of the assertions and of the hit; the last clause has all hits. The formula and
/// the words of `un` are those that `unroll` answered for `net`, with its room and its size, and
/// `plan` is a plan of the network of `net`. The variables are at most that size, so `Memory` comes
/// for want of it alone. The cost is that of a copy of the formula of `un` and, for each instant,
/// linear in the length of the path, or in the edges and ports, and in the assertions.
pub fn goal(
    alloc: Global,
    un: &Unrolled,
    net: &Ordered,
    plan: &Plan,
    o: u32,
) -> Result<Goal, Memory>
    requires unrolled { let k = un.now.instants in
        IsUnrolled net.now.network net.now.sequence k un.now }
    requires words { All (AreWords net.now.network un.now.formula.vars) un.now.words }
    requires room { HasRoom un.now.formula 1 }
    requires size { size_of net.now.network un.now.instants ≤ most_vars }
    requires plan { IsPlanOf net.now.network plan.now }
    requires place { o < length plan.now.duties }
    ensures goal { let k = un.now.instants in let order = net.now.sequence in
        IfOk result (IsGoal net.now.network order plan.now o k) }
    ensures vars { let size = size_of net.now.network un.now.instants in
        IfOk result (λ it. it.formula.vars ≤ size) }
{
    // what the network and the plan say of themselves is known once they are read
    let _length = plan.length();
    let _parts = net.network().parts();
    let duty = plan.duties()[o as usize];
    goal_of(alloc, un, net, plan, duty)
}
