//! The literals of a condition at an instant.
ghost use Rattle.std.specs.Prelude.{◌≡◌, ◌+◌, ◌<◌, ◌≤◌, All, length, replicate, slice_set, IfOk};
ghost use Rattle.std.specs.Option.{option_map};
ghost use Rattle.op_network.specs.declared.edge.EdgeId.{EdgeId as Id};
ghost use Rattle.op_network.specs.Operators.{operands_of};
ghost use Rattle.bit_blast.specs.Circuit.{no as negation};
ghost use Rattle.bit_blast.specs.Made.{Adds, IfFull, Overfills};
ghost use Rattle.unroll_cnf.specs.Made.{word_at};
ghost use Rattle.goal_cnf.specs.Made.{AreLits, ArePast, CanRead, HasConditionBits, HasPlace, tag_of};
ghost use Rattle.goal_cnf.specs.Observation as spec;

use crate::passage::{adds, passage, unmasked};
use crate::place::{bit, no};
use bit_blast::{BlastFault, Maker};
use cnf_form::Lit;
use cov_base::{List, Memory};
use dep_paths::Condition;
use lus_causality::Ordered;
use op_network::{EdgeId, Form, Network};
use std::alloc::Global;
use unroll_cnf::Unrolled;

/// The literal of an operand: that of the instant, and through `Pre` that of the instant before.
fn operand_tag(form: Form, tags: &[Lit], before: Option<&[Lit]>, a: EdgeId) -> Lit
    requires tags { a.0 < length tags.now }
    requires past { HasPlace (option_map (λ ls. ls.now) before) a.0 }
    ensures { let past = option_map (λ ls. ls.now) before.entry in
        result ≡ spec.operand_tag form tags.now (spec.past_in (length tags.now) past) a }
{
    match (form, before) {
        (Form::Pre(_), None) => no(),
        (Form::Pre(_), Some(lits)) => lits[a.0 as usize],
        _ => tags[a.0 as usize],
    }
}

/// The bit of the condition's operand, in the same way: it stands behind those of all edges.
fn operand_bit(form: Form, bit: Lit, before: Option<&[Lit]>, edges: usize) -> Lit
    requires { HasPlace (option_map (λ ls. ls.now) before) edges }
    ensures { let past = option_map (λ ls. ls.now) before.entry in
        result ≡ spec.operand_bit form bit (spec.past_in edges past) }
{
    match (form, before) {
        (Form::Pre(_), Some(lits)) => lits[edges],
        _ => bit,
    }
}

/// A port with its operand: `g` without a gate where it adds nothing.
fn port(
    alloc: Global,
    maker: &mut Maker,
    un: &Unrolled,
    t: u32,
    condition: Condition,
    value: bool,
    port: Condition,
    form: Form,
    bit: Lit,
    tags: &[Lit],
    before: Option<&[Lit]>,
    a: EdgeId,
    g: Lit,
) -> Result<Lit, BlastFault>
    requires some { 0 < maker.old.vars }
    requires grown { un.now.formula.vars ≤ maker.old.vars }
    requires ready { HasConditionBits un.now t un.now.formula.vars form }
    requires tags { AreLits (length tags.now) maker.old.vars tags.now }
    requires past { let past = option_map (λ ls. ls.now) before in
        ArePast (length tags.now + 2) maker.old.vars past }
    requires bit { bit.var < maker.old.vars }
    requires a { a.0 < length tags.now }
    requires g { g.var < maker.old.vars }
    ensures made { let now = word_at un.now.words t in
        let past = spec.past_in (length tags.now) (option_map (λ ls. ls.now) before.entry) in
        let tag = tag_of condition value in IfOk result (Adds maker.old maker.new
        (λ n. spec.port_circuit n tag port.edge form now bit tags.now past port.port a g)) }
    ensures full { let now = word_at un.now.words t in
        let past = spec.past_in (length tags.now) (option_map (λ ls. ls.now) before.entry) in
        let tag = tag_of condition value in IfFull result (Overfills maker.old
        (λ n. spec.port_circuit n tag port.edge form now bit tags.now past port.port a g)) }
    ensures below { IfOk result (λ lit. lit.var < maker.new.vars) }
    ensures more { maker.old.vars ≤ maker.new.vars }
{
    if !adds(form, port.port, before.is_none()) {
        return Ok(g);
    }
    let u = unmasked(un, t, form, port.port);
    let bit = operand_bit(form, bit, before, tags.len());
    let s = operand_tag(form, tags, before, a);
    passage(alloc, maker, condition, value, port, u, bit, s, g)
}

/// The literal of an edge, behind those of the edges before it in the order.
fn tag(
    alloc: Global,
    maker: &mut Maker,
    un: &Unrolled,
    network: &Network,
    t: u32,
    condition: Condition,
    value: bool,
    bit: Lit,
    tags: &[Lit],
    before: Option<&[Lit]>,
    e: EdgeId,
) -> Result<Lit, BlastFault>
    requires reads { CanRead network.now un.now t maker.old.vars }
    requires edge { e.0 < length network.now.edges }
    requires tags { AreLits (length network.now.edges) maker.old.vars tags.now }
    requires past { let past = option_map (λ ls. ls.now) before in
        ArePast (length network.now.edges + 2) maker.old.vars past }
    requires bit { bit.var < maker.old.vars }
    ensures made { let now = word_at un.now.words t in let edges = network.now.edges in
        let past = spec.past_in (length edges) (option_map (λ ls. ls.now) before.entry) in
        let tag = tag_of condition value in IfOk result (Adds maker.old maker.new
        (λ n. spec.tag_circuit n edges tag e now bit tags.now past)) }
    ensures full { let now = word_at un.now.words t in let edges = network.now.edges in
        let past = spec.past_in (length edges) (option_map (λ ls. ls.now) before.entry) in
        let tag = tag_of condition value in IfFull result (Overfills maker.old
        (λ n. spec.tag_circuit n edges tag e now bit tags.now past)) }
    ensures below { IfOk result (λ lit. lit.var < maker.new.vars) }
    ensures more { maker.old.vars ≤ maker.new.vars }
{
    let form = network.parts().edges.as_slice()[e.0 as usize].op.form();
    let mut g = no();
    for at in 0..network.ports(e) {
        let a = network.operand(e, at);
        let through = Condition { edge: e, port: at };
        g = port(
            alloc, maker, un, t, condition, value, through, form, bit, tags, before, a, g,
        )?;
    }
    Ok(g)
}

/// For each edge the literal that is false in every model.
fn no_tags(alloc: Global, edges: usize) -> Result<List<Lit>, Memory>
    ensures { IfOk result (λ tags. tags ≡ replicate edges (negation 0)) }
{
    let mut tags = List::new(alloc);
    for _edge in 0..edges {
        tags.add(no())?;
    }
    Ok(tags)
}

/// Sets the literal of an edge.
fn put(tags: &mut List<Lit>, e: EdgeId, tag: Lit)
    requires { e.0 < length tags.old }
    ensures { tags.new ≡ slice_set tags.old e.0 tag }
{
    tags.items_mut()[e.0 as usize] = tag;
}

/// The literals of all edges, in order.
fn tags(
    alloc: Global,
    maker: &mut Maker,
    un: &Unrolled,
    network: &Network,
    order: &[EdgeId],
    t: u32,
    condition: Condition,
    value: bool,
    bit: Lit,
    before: Option<&[Lit]>,
) -> Result<List<Lit>, BlastFault>
    requires reads { CanRead network.now un.now t maker.old.vars }
    requires order { All (λ (e : Id). e.0 < length network.now.edges) order.now }
    requires past { let past = option_map (λ ls. ls.now) before in
        ArePast (length network.now.edges + 2) maker.old.vars past }
    requires bit { bit.var < maker.old.vars }
    ensures made { let now = word_at un.now.words t in let edges = network.now.edges in
        let past = spec.past_in (length edges) (option_map (λ ls. ls.now) before.entry) in
        let none = replicate (length edges) (negation 0) in
        let tag = tag_of condition value in IfOk result (Adds maker.old maker.new
        (λ n. spec.tags_circuit n edges tag now bit past none order.now)) }
    ensures full { let now = word_at un.now.words t in let edges = network.now.edges in
        let past = spec.past_in (length edges) (option_map (λ ls. ls.now) before.entry) in
        let none = replicate (length edges) (negation 0) in
        let tag = tag_of condition value in IfFull result (Overfills maker.old
        (λ n. spec.tags_circuit n edges tag now bit past none order.now)) }
    ensures lits { IfOk result (AreLits (length network.now.edges) maker.new.vars) }
    ensures more { maker.old.vars ≤ maker.new.vars }
{
    let mut tags = no_tags(alloc, network.parts().edges.len())?;
    for e in order {
        let lit = tag(
            alloc,
            maker,
            un,
            network,
            t,
            condition,
            value,
            bit,
            tags.as_slice(),
            before,
            *e,
        )?;
        put(&mut tags, *e, lit);
    }
    Ok(tags)
}

/// The literal that one of the outputs is reached.
fn observed(
    alloc: Global,
    maker: &mut Maker,
    tags: &[Lit],
    outputs: &[EdgeId],
) -> Result<Lit, BlastFault>
    requires some { 0 < maker.old.vars }
    requires tags { AreLits (length tags.now) maker.old.vars tags.now }
    requires outputs { All (λ (e : Id). e.0 < length tags.now) outputs.now }
    ensures made { IfOk result (Adds maker.old maker.new
        (λ n. spec.outputs_circuit n tags.now (negation 0) outputs.now)) }
    ensures full { IfFull result (Overfills maker.old
        (λ n. spec.outputs_circuit n tags.now (negation 0) outputs.now)) }
    ensures below { IfOk result (λ lit. lit.var < maker.new.vars) }
    ensures more { maker.old.vars ≤ maker.new.vars }
{
    let mut met = no();
    for e in outputs {
        met = maker.or_gate(alloc, met, tags[e.0 as usize])?;
    }
    Ok(met)
}

/// The literals of a condition with a value at an instant, behind those of the instant before: for
/// each edge whether it is reached, the bit of the condition's operand, and whether the condition
/// is observed.
pub(crate) fn observation(
    alloc: Global,
    maker: &mut Maker,
    un: &Unrolled,
    net: &Ordered,
    t: u32,
    condition: Condition,
    value: bool,
    before: Option<&[Lit]>,
) -> Result<List<Lit>, BlastFault>
    requires reads { CanRead net.now.network un.now t maker.old.vars }
    requires edge { condition.edge.0 < length net.now.network.edges }
    requires port { condition.port < length (operands_of net.now.network.edges condition.edge) }
    requires past { let past = option_map (λ ls. ls.now) before in
        ArePast (length net.now.network.edges + 2) maker.old.vars past }
    ensures made { let now = word_at un.now.words t in let parts = net.now.network in
        let past = option_map (λ ls. ls.now) before.entry in let order = net.now.sequence in
        let tag = tag_of condition value in IfOk result (Adds maker.old maker.new
        (λ n. spec.observation n parts.edges order parts.outputs tag now past)) }
    ensures full { let now = word_at un.now.words t in let parts = net.now.network in
        let past = option_map (λ ls. ls.now) before.entry in let order = net.now.sequence in
        let tag = tag_of condition value in IfFull result (Overfills maker.old
        (λ n. spec.observation n parts.edges order parts.outputs tag now past)) }
    ensures lits { IfOk result (AreLits (length net.now.network.edges + 2) maker.new.vars) }
    ensures more { maker.old.vars ≤ maker.new.vars }
{
    let network = net.network();
    let order = net.sequence();
    let operand = network.operand(condition.edge, condition.port);
    let bit = bit(un, operand, t);
    let mut lits = tags(
        alloc, maker, un, network, order, t, condition, value, bit, before,
    )?;
    let outputs = network.parts().outputs.as_slice();
    let met = observed(alloc, maker, lits.as_slice(), outputs)?;
    lits.add(bit)?;
    lits.add(met)?;
    Ok(lits)
}
