ghost use Rattle.node_expand.specs.Law.{IsShallow, KeepsStreams, MainHasItsStreams};
ghost use Rattle.node_expand.specs.Ports.{HasMainPorts};

use lus_types::{Typed, typed_program};
use op_network::one_word;

/// Expansion keeps the streams: a program whose calls are nested at most `MOST_DEPTH` deep runs
/// exactly where its network does. Does nothing: its clause is the law.
pub fn expansion_keeps_streams(typed: &Typed)
    ensures { IsShallow typed.now → KeepsStreams typed.now }
{
    typed_program(typed);
}

/// In each run of its network, the main node of a program whose calls are nested at most
/// `MOST_DEPTH` deep runs with the streams of its variables' edges. Does nothing: its clause is the
/// law.
pub fn main_has_its_streams(typed: &Typed)
    ensures { IsShallow typed.now → MainHasItsStreams typed.now }
{
    typed_program(typed);
}

/// The inputs and the outputs of the network of a program, whose calls are nested at most
/// `MOST_DEPTH` deep, have the names and the types of the main node's inputs and outputs, in the
/// same order. Does nothing: its clause is the law.
pub fn network_has_main_ports(typed: &Typed)
    ensures { IsShallow typed.now → HasMainPorts typed.now }
{
    typed_program(typed);
    one_word();
}
