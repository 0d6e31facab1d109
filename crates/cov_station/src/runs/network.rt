ghost use Rattle.std.specs.Prelude.{◌≡◌, ◌<◌, ◌++◌, ◌∷◌, [], All, IfOk, OnOk, codes, decimal};
ghost use Rattle.op_network.specs.Valid.{FitsTest};
ghost use Rattle.cov_station.specs.Failures.{failure_line};
ghost use Rattle.cov_station.specs.NetworkText.{NetworkText};
ghost use Rattle.cov_station.specs.Playing.{IsTestBehind};

use crate::runs::playing::play;
use crate::runs::streams::{push_inputs, push_outputs};
use cov_base::{List, Memory, Steps, push_decimal};
use lus_causality::Ordered;
use op_network::Test;
use std::alloc::Global;
use std::marker::Brand;
use std::sync::ledger::{Blank, Ledger};

/// Adds the line with the name of a test.
fn push_name(text: &mut List<u8>, name: &[u8]) -> Result<(), Memory>
    ensures { OnOk result (text.new ≡ text.old ++ (codes "test " ++ (name.now ++ 10 ∷ []))) }
{
    text.extend_from_slice(b"test ")?;
    text.extend_from_slice(name)?;
    text.add(b'\n')
}

/// Adds a number in decimal digits.
fn push_number(text: &mut List<u8>, n: u32) -> Result<(), Memory>
    ensures { OnOk result (text.new ≡ text.old ++ decimal n) }
{
    push_decimal(text, i64::from(n))
}

/// Adds the line that names the first instant at which an assertion fails, if one does.
fn push_failure(text: &mut List<u8>, failed: Option<u32>) -> Result<(), Memory>
    ensures { OnOk result (text.new ≡ text.old ++ failure_line failed) }
{
    match failed {
        Some(t) => {
            text.extend_from_slice(b"assertion fails at ")?;
            push_number(text, t)?;
            text.add(b'\n')?;
            Ok(())
        }
        None => Ok(()),
    }
}

/// Adds the text of a test.
fn push_test<L: Ledger>(
    alloc: Global,
    net: &Ordered,
    test: &Test,
    text: &mut List<u8>,
    steps: &mut Steps<L>,
) -> Result<(), Memory>
    requires { FitsTest net.now.network test.now }
    ensures { OnOk result (IsTestBehind net.now.network test.now text.old text.new) }
{
    push_name(text, test.name.bytes())?;
    push_inputs(alloc, net.network(), test, text)?;
    let playing = play(alloc, net, test, steps)?;
    push_outputs(net.network(), playing.streams.as_slice(), text)?;
    push_failure(text, playing.failed)?;
    Ok(())
}

/// The text of all tests, with a count of steps.
fn text_of<L: Ledger>(
    alloc: Global,
    net: &Ordered,
    tests: &[Test],
    blank: Blank,
) -> Result<List<u8>, Memory>
    requires fit { All (FitsTest net.now.network) tests.now }
    requires name { blank.name ≡ L.name }
    requires parts { blank.parts ≡ L.parts }
    requires some { 0 < blank.parts }
    ensures { IfOk result (NetworkText net.now.network tests.now) }
{
    let mut steps = Steps::<L>::new(blank);
    let mut text = List::new(alloc);
    for test in tests {
        push_test(alloc, net, test, &mut text, &mut steps)?;
    }
    Ok(text)
}

/// The text of a network's runs over tests that fit it. For each test it has the test's name, a
/// line for each input and for each output with its values over all instants of the test, and,
/// where an assertion fails, the first instant at which one does. Answers `Memory` for want of it.
///
/// Linear in the instants times the edges, and in the length of the text. Beside the text it keeps
/// two frames and the values of one test's outputs at all its instants, and while the lines of
/// inputs are added, the values of one input.
pub(crate) fn network_text(alloc: Global, net: &Ordered, tests: &[Test]) -> Result<List<u8>, Memory>
    requires { All (FitsTest net.now.network) tests.now }
    ensures { IfOk result (NetworkText net.now.network tests.now) }
{
    text_of::<Brand>(alloc, net, tests, Blank::new(1))
}
