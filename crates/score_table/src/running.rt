//! The run of a test.
ghost use Rattle.std.specs.Prelude.{◌≡◌, ◌≢◌, ◌≤◌, ◌<◌, ◌+◌, ◌*◌, ℕ, [], false, length, slice_index_or, IfOk};
ghost use Rattle.dep_paths.specs.Activation.{Frames};
ghost use Rattle.op_network.specs.declared.edge.Parts.{Parts};
ghost use Rattle.score_table.specs.Rows.{IsRowOf};
ghost use Rattle.score_table.specs.Watching.{IsWatchFor, IsWatchOver, MarksLast, Watches};

use crate::row::TestRow;
use crate::watch::Watch;
use cov_base::{BitRow, Memory, Steps};
use dep_paths::Plan;
use lus_causality::Ordered;
use op_network::Test;
use std::alloc::Global;
use std::sync::ledger::Ledger;
use stream_run::Runner;

/// Marks the obligation at a place of the plan where it is met at the last instant.
fn mark(watch: &Watch, plan: &Plan, o: u32, covered: &mut BitRow)
    requires made { IsWatchOver plan.now watch.now }
    requires within { o < length plan.now.duties }
    requires size { length covered.old ≡ length plan.now.duties }
    ensures size { length covered.new ≡ length plan.now.duties }
    ensures marked { (parts : Parts) (frames : Frames) → Watches parts plan.now frames watch.now →
        frames ≢ [] → let bit = slice_index_or covered.old o false in
        MarksLast parts plan.now frames o bit (slice_index_or covered.new o false) }
    ensures others { (k : ℕ) → k ≢ o →
        slice_index_or covered.new k false ≡ slice_index_or covered.old k false }
{
    if watch.is_met(plan, o) {
        covered.set(o);
    }
}

/// Marks each obligation that is met at the last instant. Linear in the number of obligations.
fn mark_all(watch: &Watch, plan: &Plan, covered: &mut BitRow)
    requires made { IsWatchOver plan.now watch.now }
    requires size { length covered.old ≡ length plan.now.duties }
    ensures size { length covered.new ≡ length plan.now.duties }
    ensures marked { (parts : Parts) (frames : Frames) → Watches parts plan.now frames watch.now →
        frames ≢ [] → (k : ℕ) → let bit = slice_index_or covered.old k false in
        MarksLast parts plan.now frames k bit (slice_index_or covered.new k false) }
{
    // what the plan says of itself is known once it is read
    let _ = plan.length();
    let count = plan.duties().len() as u32;
    for o in 0..count {
        mark(watch, plan, o, covered);
    }
}

/// Runs a test up to the first instant at which an assertion fails, and marks the obligations that
/// are met before it. Takes a step for each instant that it computes, and all memory before the
/// first. The watch may be at any instant of another run.
///
/// Linear in the instants times the paths' prefixes, the obligations, and the edges with the
/// conditions, 32 at a time. It keeps no frames but those of the runner.
pub(crate) fn run_test<L: Ledger>(
    alloc: Global,
    net: &Ordered,
    plan: &Plan,
    test: &Test,
    watch: &mut Watch,
    steps: &mut Steps<L>,
) -> Result<TestRow, Memory>
    requires made { IsWatchFor net.now.network plan.now watch.old }
    requires size { length test.now.values ≡ test.now.instants * length net.now.network.inputs }
    ensures row { IfOk result (IsRowOf net.now.network plan.now test.now) }
    ensures made { IsWatchFor net.now.network plan.now watch.new }
    ensures cost { steps.new ≤ steps.old + test.now.instants }
{
    // what the network and the plan say of themselves is known once they are read
    let width = net.network().parts().inputs.len();
    let _ = net.sequence();
    let mut runner = Runner::new(alloc, net)?;
    let _ = plan.length();
    let mut covered = BitRow::new(alloc, plan.duties().len() as u32)?;
    watch.restart();
    let mut rest = test.values.as_slice();
    for t in 0..test.instants {
        let (inputs, later) = rest.split_at(width);
        runner.step(net, inputs, steps);
        if !runner.asserts_hold(net) {
            return Ok(TestRow { covered, kept: t });
        }
        watch.step(net, plan, runner.frame());
        mark_all(watch, plan, &mut covered);
        rest = later;
    }
    Ok(TestRow {
        covered,
        kept: test.instants,
    })
}
