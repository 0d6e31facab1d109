//! The literals of an obligation at an instant.
ghost use Rattle.std.specs.Prelude.{◌≡◌, ◌+◌, ◌<◌, ◌≤◌, IfOk, length, slice_get};
ghost use Rattle.std.specs.Option.{option_map};
ghost use Rattle.bit_blast.specs.Made.{Adds, IfFull, Overfills};
ghost use Rattle.unroll_cnf.specs.Made.{word_at};
ghost use Rattle.dep_paths.specs.Activation.{first_pin as pin_of};
ghost use Rattle.goal_cnf.specs.Goal as spec;
ghost use Rattle.goal_cnf.specs.Made.{AreLits, ArePast, CanRead, IsListed, IsPlanIn, lits_of, path_lits};

use crate::observed::observation;
use crate::path::path;
use bit_blast::{BlastFault, Maker};
use cnf_form::Lit;
use cov_base::List;
use dep_paths::{Obligation, Pin, Plan};
use lus_causality::Ordered;
use std::alloc::Global;
use unroll_cnf::Unrolled;

/// The pin of an elementary condition: the path's first edge has this value.
fn first_pin(value: Option<bool>) -> Option<Pin>
    ensures { result ≡ pin_of value }
{
    match value {
        Some(value) => Some(Pin { place: 0, value }),
        None => None,
    }
}

/// The literals of the path at a place of a plan, with what is pinned.
fn activation(
    alloc: Global,
    maker: &mut Maker,
    un: &Unrolled,
    net: &Ordered,
    plan: &Plan,
    t: u32,
    place: u32,
    pin: Option<Pin>,
    before: Option<&[Lit]>,
) -> Result<List<Lit>, BlastFault>
    requires reads { CanRead net.now.network un.now t maker.old.vars }
    requires plan { IsPlanIn net.now.network plan.now }
    requires listed { place < length plan.now.paths }
    requires past { let past = option_map (λ ls. ls.now) before in
        ArePast (path_lits plan.now.paths place) maker.old.vars past }
    ensures made { let past = option_map (λ ls. ls.now) before.entry in
        let edges = net.now.network.edges in let now = word_at un.now.words t in
        IfOk result (Adds maker.old maker.new
        (λ n. spec.activation n edges plan.now.paths place pin now past)) }
    ensures full { let past = option_map (λ ls. ls.now) before.entry in
        let edges = net.now.network.edges in let now = word_at un.now.words t in
        IfFull result (Overfills maker.old
        (λ n. spec.activation n edges plan.now.paths place pin now past)) }
    ensures lits { IfOk result (AreLits (path_lits plan.now.paths place) maker.new.vars) }
    ensures more { maker.old.vars ≤ maker.new.vars }
{
    let parts = net.network().parts();
    let listed = &plan.paths()[place as usize];
    path(alloc, maker, un, parts, t, pin, listed, before)
}

/// The literals of the condition at a place of a plan, with a value.
fn observed(
    alloc: Global,
    maker: &mut Maker,
    un: &Unrolled,
    net: &Ordered,
    plan: &Plan,
    t: u32,
    place: u32,
    value: bool,
    before: Option<&[Lit]>,
) -> Result<List<Lit>, BlastFault>
    requires reads { CanRead net.now.network un.now t maker.old.vars }
    requires plan { IsPlanIn net.now.network plan.now }
    requires listed { place < length plan.now.conditions }
    requires past { let past = option_map (λ ls. ls.now) before in
        ArePast (length net.now.network.edges + 2) maker.old.vars past }
    ensures made { let past = option_map (λ ls. ls.now) before.entry in
        let parts = net.now.network in let now = word_at un.now.words t in
        let listed = slice_get plan.now.conditions place in let order = net.now.sequence in
        IfOk result (Adds maker.old maker.new
        (λ n. spec.observation_in n parts order value listed now past)) }
    ensures full { let past = option_map (λ ls. ls.now) before.entry in
        let parts = net.now.network in let now = word_at un.now.words t in
        let listed = slice_get plan.now.conditions place in let order = net.now.sequence in
        IfFull result (Overfills maker.old
        (λ n. spec.observation_in n parts order value listed now past)) }
    ensures lits { IfOk result (AreLits (length net.now.network.edges + 2) maker.new.vars) }
    ensures more { maker.old.vars ≤ maker.new.vars }
{
    let condition = plan.conditions()[place as usize];
    observation(alloc, maker, un, net, t, condition, value, before)
}

/// The literals of an obligation at an instant, behind those of the instant before. The last of
/// them tells whether it is met.
pub(crate) fn met(
    alloc: Global,
    maker: &mut Maker,
    un: &Unrolled,
    net: &Ordered,
    plan: &Plan,
    duty: Obligation,
    t: u32,
    before: Option<&[Lit]>,
) -> Result<List<Lit>, BlastFault>
    requires reads { CanRead net.now.network un.now t maker.old.vars }
    requires plan { IsPlanIn net.now.network plan.now }
    requires listed { IsListed plan.now duty }
    requires past { let past = option_map (λ ls. ls.now) before in
        ArePast (lits_of net.now.network plan.now duty) maker.old.vars past }
    ensures made { let past = option_map (λ ls. ls.now) before.entry in
        let parts = net.now.network in let now = word_at un.now.words t in
        let order = net.now.sequence in IfOk result (Adds maker.old maker.new
        (λ n. spec.met_circuit n parts order plan.now duty now past)) }
    ensures full { let past = option_map (λ ls. ls.now) before.entry in
        let parts = net.now.network in let now = word_at un.now.words t in
        let order = net.now.sequence in IfFull result (Overfills maker.old
        (λ n. spec.met_circuit n parts order plan.now duty now past)) }
    ensures lits { IfOk result (AreLits (lits_of net.now.network plan.now duty) maker.new.vars) }
    ensures more { maker.old.vars ≤ maker.new.vars }
{
    match duty {
        Obligation::Bc { path } => {
            activation(alloc, maker, un, net, plan, t, path, None, before)
        }
        Obligation::Ecc { path, value } => {
            activation(
                alloc,
                maker,
                un,
                net,
                plan,
                t,
                path,
                first_pin(value),
                before,
            )
        }
        Obligation::Mcc { path, pin } => {
            activation(alloc, maker, un, net, plan, t, path, pin, before)
        }
        Obligation::Omc { condition, value } => {
            observed(alloc, maker, un, net, plan, t, condition, value, before)
        }
    }
}
