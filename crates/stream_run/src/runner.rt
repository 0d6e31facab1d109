ghost use Rattle.std.specs.Prelude.{◌≡◌, ◌<◌, ◌≤◌, ◌+◌, ◌↔◌, [], length, true, All, IfOk, IsTrue};
ghost use Rattle.std.specs.Option.{option_map};
ghost use Rattle.op_network.specs.Admissible.{AssertsHold};
ghost use Rattle.op_network.specs.Operators.{at_edge};
ghost use Rattle.op_network.specs.Run.{IsFrame};
ghost use Rattle.op_network.specs.Values.{is_true as is_true_of};
ghost use Rattle.stream_run.specs.Runs.{Extends, IsComputed, StandsFor, past};

use cov_base::{List, Memory, Steps};
use lus_causality::Ordered;
use op_network::{Edge, EdgeId, Frame, LEAST_WIDTH, MOST_WIDTH, Value, is_true, operator_value};
use std::alloc::Global;
use std::marker::Model;
use std::mem;
use std::sync::ledger::Ledger;

/// The most instants that a `Runner` can do.
pub const MOST_INSTANTS: u32 = u32::MAX;

/// The run of a network, up to an instant. Of the frames it keeps the last, and room for another
/// one, by which the operands of `Pre` keep their values.
#[derive(Debug, Drop)]
pub struct Runner {
    frame: Frame,
    before: Frame,
    instant: u32,
}

impl Model for Runner {
    ghost use Rattle.std.specs.Prelude.{◌≡◌, length};
    ghost use Rattle.stream_run.specs.Runs.{Running};

    ghost Value = { Running };

    ghost view = { λ it. record { instant = it.instant; frame = it.frame } };

    ghost invariant = { λ it. length it.before ≡ length it.frame };
}

/// Computes the value of an edge in place.
pub(crate) fn compute_edge(
    width: u32,
    edges: &[Edge],
    e: EdgeId,
    before: Option<&[Value]>,
    inputs: &[Value],
    now: &mut Frame,
)
    requires narrowest { LEAST_WIDTH ≤ width }
    requires widest { width ≤ MOST_WIDTH }
    requires edge { e.0 < length edges.now }
    requires size { length now.old ≡ length edges.now }
    ensures set { let past = option_map (λ frame. frame.now) before.entry in
        IsComputed width edges.now e past inputs.now now.old now.new }
{
    let edge = &edges[e.0 as usize];
    let value = operator_value(width, edge.op, edge.ty, before, now.values(), inputs);
    now.set(e, value);
}

/// Computes the frame of an instant in place, edge by edge in order. Linear.
#[tactic(auto, using(crate::proofs::Computing::begun))]
fn compute_frame(net: &Ordered, before: Option<&[Value]>, inputs: &[Value], now: &mut Frame)
    requires size { length now.old ≡ length net.now.network.edges }
    ensures frame { let past = option_map (λ frame. frame.now) before.entry in
        IsFrame net.now.network.width net.now.network.edges past inputs.now now.new }
{
    let parts = net.network().parts();
    let width = parts.width;
    let edges = parts.edges.as_slice();
    for e in net.sequence() {
        compute_edge(width, edges, *e, before, inputs, now);
    }
}

/// A frame with a value for each edge.
pub(crate) fn blank(alloc: Global, count: usize) -> Result<Frame, Memory>
    ensures { IfOk result (λ frame. length frame ≡ count) }
{
    let mut values = List::new(alloc);
    for _place in 0..count {
        values.add(Value::Truth(false))?;
    }
    Ok(Frame::of(values))
}

/// The frame of the instant before, if there was one.
fn earlier(instant: u32, frame: &[Value]) -> Option<&[Value]>
    ensures { option_map (λ frame. frame.now) result ≡ past instant frame.now }
{
    if instant > 0 { Some(frame) } else { None }
}

/// Whether each of these edges is true in a frame.
fn all_true(edges: &[EdgeId], frame: &Frame) -> bool
    requires { All (λ e. e.0 < length frame.now) edges.now }
    ensures { IsTrue result ↔ All (λ e. is_true_of (at_edge frame.now e) ≡ true) edges.now }
{
    edges.iter().all(|e| is_true(frame.value(*e)))
}

impl Runner {
    /// Before instant 0. Takes memory for two frames, and keeps no borrow.
    #[tactic(auto, using(crate::proofs::Stepping::stands_for_none))]
    pub fn new(alloc: Global, net: &Ordered) -> Result<Runner, Memory>
        ensures stands { IfOk result (StandsFor net.now.network []) }
        ensures size { let edges = net.now.network.edges in
            IfOk result (λ runner. length runner.frame ≡ length edges) }
    {
        let count = net.network().parts().edges.len();
        Ok(Runner {
            frame: blank(alloc, count)?,
            before: blank(alloc, count)?,
            instant: 0,
        })
    }

    /// Computes the next instant over a row of inputs, one value for each; a value that is missing
    /// counts as false. One step of the count.
    /// Linear in the number of edges; takes no memory and can't be refused.
    #[tactic(auto, using(crate::proofs::Stepping::stands_for_more))]
    pub fn step<L: Ledger>(&mut self, net: &Ordered, inputs: &[Value], steps: &mut Steps<L>)
        requires size { length self.old.frame ≡ length net.now.network.edges }
        requires instants { self.old.instant < MOST_INSTANTS }
        ensures stands { Extends (StandsFor net.now.network) inputs.now self.old self.new }
        ensures size { length self.new.frame ≡ length net.now.network.edges }
        ensures instant { self.new.instant ≡ self.old.instant + 1 }
        ensures cost { steps.new ≡ steps.old + 1 }
    {
        steps.tick();
        mem::swap(&mut self.frame, &mut self.before);
        let past = earlier(self.instant, self.before.values());
        compute_frame(net, past, inputs, &mut self.frame);
        self.instant += 1;
    }

    /// The frame of the last instant. In constant time.
    pub fn frame(&self) -> &Frame
        requires { 0 < self.now.instant }
        ensures { result.now ≡ self.now.frame }
    {
        &self.frame
    }

    /// The number of instants done.
    pub fn instant(&self) -> u32
        ensures { result ≡ self.now.instant }
    {
        self.instant
    }

    /// Whether all assert edges are true in the frame of the last instant. Linear in their number.
    #[tactic(auto, using(crate::proofs::Asserting::asserts_within))]
    pub fn asserts_hold(&self, net: &Ordered) -> bool
        requires some { 0 < self.now.instant }
        requires size { length self.now.frame ≡ length net.now.network.edges }
        ensures { IsTrue result ↔ AssertsHold net.now.network self.now.frame }
    {
        all_true(net.network().parts().asserts.as_slice(), &self.frame)
    }
}
