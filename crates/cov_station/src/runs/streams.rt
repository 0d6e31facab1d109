//! The streams of a test's inputs and outputs, edge by edge.
ghost use Rattle.std.specs.Prelude.{◌≡◌, ◌<◌, ◌*◌, ◌++◌, [], ◌∷◌, All, IfOk, OnOk};
ghost use Rattle.std.specs.Prelude.{length, map, slice_get};
ghost use Rattle.op_network.specs.Run.{rows};
ghost use Rattle.cov_station.specs.NetworkText.{input_rows, stream_in};
ghost use Rattle.cov_station.specs.Playing.{AddsLines, GoOnBy, column, stream_lines};

use cov_base::{List, Memory};
use cov_report::stream_line;
use op_network::{EdgeId, Frame, Network, Test, Value};
use std::alloc::Global;

/// The values at one place of each row. The rows stand one after the other. Linear in their number.
fn values_at(
    alloc: Global,
    place: usize,
    width: usize,
    instants: u32,
    values: &[Value],
) -> Result<List<Value>, Memory>
    requires place { place < width }
    requires size { length values.now ≡ instants * width }
    ensures { IfOk result (λ stream. stream ≡ column place (rows width instants values.now)) }
{
    let mut stream = List::new(alloc);
    let mut rest = values;
    for _instant in 0..instants {
        let (row, later) = rest.split_at(width);
        stream.add(row[place])?;
        rest = later;
    }
    Ok(stream)
}

/// Adds the line of an input. Linear in the instants and in the line.
fn push_input(
    alloc: Global,
    net: &Network,
    test: &Test,
    place: usize,
    e: EdgeId,
    text: &mut List<u8>,
) -> Result<(), Memory>
    requires place { slice_get net.now.inputs place ≡ Some e }
    requires size { length test.now.values ≡ test.now.instants * length net.now.inputs }
    ensures { let rows = input_rows net.now test.now in
        OnOk result (AddsLines net.now rows (e ∷ []) text.old text.new) }
{
    let width = net.parts().inputs.len();
    let stream = values_at(alloc, place, width, test.instants, test.values.as_slice())?;
    stream_line(net, e, stream.as_slice(), text)
}

/// Adds the lines of the inputs. Linear in the values and in the lines; beside them it keeps one
/// input's values.
pub(crate) fn push_inputs(
    alloc: Global,
    net: &Network,
    test: &Test,
    text: &mut List<u8>,
) -> Result<(), Memory>
    requires { length test.now.values ≡ test.now.instants * length net.now.inputs }
    ensures { let rows = input_rows net.now test.now in
        OnOk result (AddsLines net.now rows net.now.inputs text.old text.new) }
{
    for (place, e) in net.parts().inputs.as_slice().iter().enumerate() {
        push_input(alloc, net, test, place, *e, text)?;
    }
    Ok(())
}

/// A stream with no values for each of these edges.
pub(crate) fn new_streams(alloc: Global, ids: &[EdgeId]) -> Result<List<List<Value>>, Memory>
    ensures { IfOk result (λ streams. streams ≡ map (stream_in []) ids.now) }
{
    let mut streams = List::new(alloc);
    for _e in ids {
        streams.add(List::new(alloc))?;
    }
    Ok(streams)
}

/// Adds the values of these edges in a frame to their streams. Linear in their number.
pub(crate) fn extend_streams(
    streams: &mut [List<Value>],
    ids: &[EdgeId],
    frame: &Frame,
) -> Result<(), Memory>
    requires streams { length streams.old ≡ length ids.now }
    requires edges { All (λ (e : EdgeId). e.0 < length frame.now) ids.now }
    ensures { OnOk result (GoOnBy frame.now ids.now streams.old streams.new) }
{
    for (place, e) in ids.iter().enumerate() {
        streams[place].add(frame.value(*e))?;
    }
    Ok(())
}

/// Adds the lines of the outputs, each with the values of its stream. Linear in the lines.
pub(crate) fn push_outputs(
    net: &Network,
    streams: &[List<Value>],
    text: &mut List<u8>,
) -> Result<(), Memory>
    requires { length streams.now ≡ length net.now.outputs }
    ensures { let lines = stream_lines net.now net.now.outputs streams.now in
        OnOk result (text.new ≡ text.old ++ lines) }
{
    for (place, e) in net.parts().outputs.as_slice().iter().enumerate() {
        stream_line(net, *e, streams[place].as_slice(), text)?;
    }
    Ok(())
}
