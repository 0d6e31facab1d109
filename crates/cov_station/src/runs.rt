ghost use Rattle.std.specs.Prelude.{All, IfOk};
ghost use Rattle.op_network.specs.Valid.{FitsTest};
ghost use Rattle.cov_station.specs.RunText.{RunText};
ghost use Rattle.cov_station.specs.Sources.{Source};
ghost use Rattle.cov_station.specs.Views.{IsNetworkOf};

mod network;
mod playing;
mod streams;
#[cfg(test)]
mod tests;

use cov_base::{List, Memory};
use lus_causality::Ordered;
use network::network_text;
use op_network::Test;
use std::alloc::Global;

/// The text of a source's runs over tests that fit its network. Linear in the instants times the
/// edges, and in the length of the text.
pub(crate) fn run_text(alloc: Global, net: &Ordered, tests: &[Test]) -> Result<List<u8>, Memory>
    requires { All (FitsTest net.now.network) tests.now }
    ensures { (source : Source) → IsNetworkOf source net.now →
        IfOk result (RunText source tests.now) }
{
    // what the network says of itself is known once it is read
    let _ = net.network().parts();
    network_text(alloc, net, tests)
}
