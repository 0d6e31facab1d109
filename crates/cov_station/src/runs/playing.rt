ghost use Rattle.std.specs.Prelude.{◌≡◌, ◌<◌, ◌-◌, ◌*◌, [], IfOk, OnOk, length};
ghost use Rattle.op_network.specs.Valid.{FitsTest};
ghost use Rattle.stream_run.specs.Runs.{Extends};
ghost use Rattle.cov_station.specs.NetworkText.{are_asserted, input_rows};
ghost use Rattle.cov_station.specs.Playing.{IsPlayed, failure_after};

use crate::runs::streams::{extend_streams, new_streams};
use cov_base::{List, Memory, Steps};
use lus_causality::{Ordered, one_run};
use op_network::{Test, Value};
use std::alloc::Global;
use std::sync::ledger::Ledger;
use stream_run::{MOST_INSTANTS, Runner};

/// The run of a test, up to an instant: of its frames the streams of the outputs are kept, and the
/// first instant at which an assertion fails.
#[derive(Debug, Drop)]
pub(crate) struct Playing {
    pub(crate) runner: Runner,
    pub(crate) streams: List<List<Value>>,
    pub(crate) failed: Option<u32>,
}

/// Before instant 0. Takes memory for two frames and a stream with no values for each output.
fn begin(alloc: Global, net: &Ordered) -> Result<Playing, Memory>
    ensures played { IfOk result (IsPlayed net.now.network []) }
    ensures size { let edges = net.now.network.edges in
        IfOk result (λ playing. length playing.runner.frame ≡ length edges) }
{
    Ok(Playing {
        runner: Runner::new(alloc, net)?,
        streams: new_streams(alloc, net.network().parts().outputs.as_slice())?,
        failed: None,
    })
}

/// The first instant at which an assertion fails, after the one that the runner did last. Once one
/// failed, no other is asked.
fn first_failed(net: &Ordered, runner: &Runner, failed: Option<u32>) -> Option<u32>
    requires some { 0 < runner.now.instant }
    requires size { length runner.now.frame ≡ length net.now.network.edges }
    ensures { let holds = are_asserted net.now.network runner.now.frame in
        result ≡ failure_after failed holds (runner.now.instant - 1) }
{
    match failed {
        Some(t) => Some(t),
        None => {
            if runner.asserts_hold(net) {
                None
            } else {
                Some(runner.instant() - 1)
            }
        }
    }
}

/// Does the next instant. Linear in the edges.
fn play_instant<L: Ledger>(
    playing: &mut Playing,
    net: &Ordered,
    inputs: &[Value],
    steps: &mut Steps<L>,
) -> Result<(), Memory>
    requires size { length playing.old.runner.frame ≡ length net.now.network.edges }
    requires streams { length playing.old.streams ≡ length net.now.network.outputs }
    requires instants { playing.old.runner.instant < MOST_INSTANTS }
    ensures played { let played = IsPlayed net.now.network in
        OnOk result (Extends played inputs.now playing.old playing.new) }
    ensures size { length playing.new.runner.frame ≡ length net.now.network.edges }
{
    one_run();
    // what the network says of itself is known once it is read
    let _ = net.sequence();
    let outputs = net.network().parts().outputs.as_slice();
    playing.runner.step(net, inputs, steps);
    playing.failed = first_failed(net, &playing.runner, playing.failed);
    extend_streams(playing.streams.items_mut(), outputs, playing.runner.frame())
}

/// The whole run of a test, also behind a failed assertion. Linear in instants times edges; two
/// frames are kept, and the values of the outputs at all instants.
pub(crate) fn play<L: Ledger>(
    alloc: Global,
    net: &Ordered,
    test: &Test,
    steps: &mut Steps<L>,
) -> Result<Playing, Memory>
    requires { FitsTest net.now.network test.now }
    ensures { let rows = input_rows net.now.network test.now in
        IfOk result (IsPlayed net.now.network rows) }
{
    let width = net.network().parts().inputs.len();
    let mut playing = begin(alloc, net)?;
    let mut rest = test.values.as_slice();
    for _instant in 0..test.instants {
        let (row, later) = rest.split_at(width);
        play_instant(&mut playing, net, row, steps)?;
        rest = later;
    }
    Ok(playing)
}
