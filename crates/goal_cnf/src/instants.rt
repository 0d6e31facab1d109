//! Whether the obligation is met by admissible inputs, instant by instant.
ghost use Rattle.std.specs.Prelude.{◌≡◌, ◌+◌, ◌<◌, ◌≤◌, IfOk, IsTrue, None, length, map};
ghost use Rattle.std.specs.Option.{option_map};
ghost use Rattle.cnf_form.specs.Lits.{no_twice};
ghost use Rattle.bit_blast.specs.Circuit.{yes as literal};
ghost use Rattle.bit_blast.specs.Made.{Adds, IfFull, Overfills};
ghost use Rattle.unroll_cnf.specs.Made.{table_of};
ghost use Rattle.goal_cnf.specs.Goal as spec;
ghost use Rattle.goal_cnf.specs.Made.{AreLits, AreStreams, IsListed, IsPlanIn};

use crate::admitted::admitted;
use crate::met::met;
use bit_blast::{BlastFault, Maker};
use cnf_form::Lit;
use cov_base::List;
use dep_paths::{Obligation, Plan};
use lus_causality::Ordered;
use std::alloc::Global;
use unroll_cnf::Unrolled;

/// The last literal.
fn last(lits: &[Lit]) -> Lit
    requires { 1 ≤ length lits.now }
    ensures { result ≡ spec.last_lit lits.now }
{
    lits[lits.len() - 1]
}

/// The literals of the instant before, if there is one.
fn as_past(lits: &Option<List<Lit>>) -> Option<&[Lit]>
    ensures { option_map (λ ls. ls.now) result ≡ lits.now }
{
    match lits {
        Some(lits) => Some(lits.as_slice()),
        None => None,
    }
}

/// For each instant the literal that the obligation is met and the inputs so far are admissible.
pub(crate) fn hits(
    alloc: Global,
    maker: &mut Maker,
    un: &Unrolled,
    net: &Ordered,
    plan: &Plan,
    duty: Obligation,
) -> Result<List<Lit>, BlastFault>
    requires streams { AreStreams net.now.network un.now }
    requires grown { un.now.formula.vars ≤ maker.old.vars }
    requires plan { IsPlanIn net.now.network plan.now }
    requires listed { IsListed plan.now duty }
    ensures made { let parts = net.now.network in let order = net.now.sequence in
        let words = map table_of un.now.words in IfOk result (Adds maker.old maker.new
        (λ n. spec.hits parts order plan.now duty n None (literal 0) words)) }
    ensures full { let parts = net.now.network in let order = net.now.sequence in
        let words = map table_of un.now.words in IfFull result (Overfills maker.old
        (λ n. spec.hits parts order plan.now duty n None (literal 0) words)) }
    ensures lits { IfOk result (AreLits un.now.instants maker.new.vars) }
    ensures apart { IfOk result (λ hits. IsTrue (no_twice hits)) }
{
    let asserts = net.network().parts().asserts.as_slice();
    let mut hits = List::new(alloc);
    let mut lits = None;
    let mut adm = maker.yes();
    for t in 0..un.instants() {
        let now = met(alloc, maker, un, net, plan, duty, t, as_past(&lits))?;
        adm = admitted(alloc, maker, un, asserts, t, adm)?;
        let hit = maker.and_gate(alloc, adm, last(now.as_slice()))?;
        hits.add(hit)?;
        lits = Some(now);
    }
    Ok(hits)
}
