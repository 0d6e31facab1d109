ghost use Rattle.std.specs.Prelude.{◌≡◌, ◌<◌, ◌↔◌, [], true, false, length, replicate, slice_index_or};
ghost use Rattle.std.specs.Prelude.{slice_set, IfOk, IfSome, IfNone, IsTrue};
ghost use Rattle.std.specs.Option.{option_map};
ghost use Rattle.op_network.specs.declared.edge.Parts.{Parts};
ghost use Rattle.lus_causality.specs.Causality.{HasNoCycle};
ghost use Rattle.lus_causality.specs.Marks.{AreAllMarked};
ghost use Rattle.stream_run.specs.Firings.{FiringStandsFor, HasFired, IsFinished, IsFiringOf, IsReady, IsValueFired};
ghost use Rattle.stream_run.specs.Firings.{IsValueOfRun, ended_frame};
ghost use Rattle.stream_run.specs.Runs.{Extends, Keeps};

use crate::runner::{blank, compute_edge};
use cov_base::{List, Memory};
use lus_causality::{first_unmarked, is_free, no_marks, set_mark, unset};
use op_network::{EdgeId, Frame, Network, Value};
use std::alloc::Global;
use std::marker::Model;
use std::mem;

/// The run of a network, up to an instant, in which any edge may be computed next whose operands
/// are.
#[derive(Debug, Drop)]
pub struct Firing {
    before: Frame,
    ended: bool,
    frame: Frame,
    marks: List<bool>,
    inputs: List<Value>,
    under_way: bool,
}

impl Model for Firing {
    ghost use Rattle.std.specs.Prelude.{◌≡◌, length};
    ghost use Rattle.stream_run.specs.Firings.{Fired, ended_frame};

    ghost Value = { Fired };

    ghost view = { λ it. record {
      ended = ended_frame it.ended it.before;
      under_way = it.under_way;
      inputs = it.inputs;
      values = it.frame;
      marks = it.marks;
    } };

    ghost invariant = { λ it.
        (length it.before ≡ length it.frame) × (length it.marks ≡ length it.frame) };
}

/// The frame of the last ended instant, if one ended.
fn last(ended: bool, frame: &[Value]) -> Option<&[Value]>
    ensures { option_map (λ frame. frame.now) result ≡ ended_frame ended frame.now }
{
    if ended { Some(frame) } else { None }
}

/// Whether all marks are set. Linear in their number.
#[tactic(auto, using(crate::proofs::Firings::not_all))]
fn are_set(marks: &[bool]) -> bool
    ensures { IsTrue result ↔ AreAllMarked marks.now }
{
    match first_unmarked(marks) {
        Some(_) => false,
        None => true,
    }
}

/// Whether the mark of an edge is set.
fn is_set(marks: &[bool], e: EdgeId) -> bool
    ensures is { result ≡ slice_index_or marks.now e.0 false }
    ensures within { IsTrue result → e.0 < length marks.now }
{
    (e.0 as usize) < marks.len() && marks[e.0 as usize]
}

/// Copies a row over another one of its length.
fn copy_row(row: &mut List<Value>, values: &[Value])
    requires { length row.old ≡ length values.now }
    ensures { row.new ≡ values.now }
{
    row.items_mut().copy_from_slice(values);
}

/// A row with a value for each input.
fn blank_row(alloc: Global, count: usize) -> Result<List<Value>, Memory>
    ensures { IfOk result (λ row. length row ≡ count) }
{
    let mut row = List::new(alloc);
    for _place in 0..count {
        row.add(Value::Truth(false))?;
    }
    Ok(row)
}

impl Firing {
    /// Before instant 0. Takes memory for two frames, a mark for each edge and a row of inputs.
    #[tactic(auto, using(crate::proofs::Firings::stands_for_none))]
    pub fn new(alloc: Global, net: &Network) -> Result<Firing, Memory>
        ensures stands { IfOk result (FiringStandsFor net.now []) }
        ensures of { IfOk result (IsFiringOf net.now) }
        ensures closed { IfOk result (λ firing. firing.under_way ≡ false) }
    {
        let count = net.parts().edges.len();
        Ok(Firing {
            before: blank(alloc, count)?,
            ended: false,
            frame: blank(alloc, count)?,
            marks: no_marks(alloc, count)?,
            inputs: blank_row(alloc, net.parts().inputs.len())?,
            under_way: false,
        })
    }

    /// Opens the next instant, over a value for each input. No edge is fired in it. Linear in the
    /// number of edges.
    #[tactic(auto, using(crate::proofs::Firings::stands_open))]
    pub fn begin(&mut self, net: &Network, inputs: &[Value])
        requires of { IsFiringOf net.now self.old }
        requires closed { self.old.under_way ≡ false }
        requires size { length inputs.now ≡ length net.now.inputs }
        ensures stands { HasNoCycle net.now.edges →
            Extends (FiringStandsFor net.now) inputs.now self.old self.new }
        ensures of { IsFiringOf net.now self.new }
        ensures under_way { self.new.under_way ≡ true }
        ensures unfired { self.new.marks ≡ replicate (length net.now.edges) false }
    {
        let _ = net.parts();
        copy_row(&mut self.inputs, inputs);
        unset(&mut self.marks);
        self.under_way = true;
    }

    /// Whether an instant is open, the edge isn't fired in it, and its operands are, but for that
    /// of a `Pre`. In constant time.
    pub fn ready(&self, net: &Network, e: EdgeId) -> bool
        requires { IsFiringOf net.now self.now }
        ensures { IsTrue result ↔ IsReady net.now.edges self.now e }
    {
        self.under_way
            && (e.0 as usize) < self.marks.len()
            && is_free(net, self.marks.as_slice(), e)
    }

    /// Computes the value of a ready edge. In constant time.
    #[tactic(auto, using(crate::proofs::Firings::stands_fired))]
    pub fn fire(&mut self, net: &Network, e: EdgeId)
        requires of { IsFiringOf net.now self.old }
        requires ready { IsReady net.now.edges self.old e }
        ensures stands { Keeps (FiringStandsFor net.now) self.old self.new }
        ensures of { IsFiringOf net.now self.new }
        ensures under_way { self.new.under_way ≡ true }
        ensures fired { self.new.marks ≡ slice_set self.old.marks e.0 true }
    {
        let parts = net.parts();
        let before = last(self.ended, self.before.values());
        let inputs = self.inputs.as_slice();
        compute_edge(
            parts.width,
            parts.edges.as_slice(),
            e,
            before,
            inputs,
            &mut self.frame,
        );
        set_mark(&mut self.marks, e);
    }

    /// Whether an instant is open, and all edges are fired in it. Linear in their number.
    pub fn finished(&self) -> bool
        ensures { IsTrue result ↔ IsFinished self.now }
    {
        self.under_way && are_set(self.marks.as_slice())
    }

    /// Closes the open instant, in which all edges are fired. In constant time.
    #[tactic(auto, using(crate::proofs::Firings::stands_closed))]
    pub fn end(&mut self)
        requires { IsFinished self.old }
        ensures stands { (parts : Parts) → Keeps (FiringStandsFor parts) self.old self.new }
        ensures of { (parts : Parts) → IsFiringOf parts self.old → IsFiringOf parts self.new }
        ensures closed { self.new.under_way ≡ false }
    {
        mem::swap(&mut self.before, &mut self.frame);
        self.ended = true;
        self.under_way = false;
    }

    /// The value of an edge that is fired in the open instant. `None` where it isn't, or where no
    /// instant is open. In constant time.
    pub fn value(&self, e: EdgeId) -> Option<Value>
        ensures some { IfSome result (IsValueFired self.now e) }
        ensures none { IfNone result (HasFired self.now e → ⊥) }
        ensures run { (parts : Parts) → IfSome result (IsValueOfRun parts self.now e) }
    {
        if !self.under_way {
            return None;
        }
        if is_set(self.marks.as_slice(), e) {
            Some(self.frame.value(e))
        } else {
            None
        }
    }
}
