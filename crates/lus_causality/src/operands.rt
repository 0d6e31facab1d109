ghost use Rattle.std.specs.Prelude.{◌≡◌, ◌<◌, Some, length, slice_get};
ghost use Rattle.op_network.specs.declared.edge.EdgeId.{EdgeId as Id};
ghost use Rattle.lus_causality.specs.Causality.{is_pre as is_pre_of, operands_now};

use op_network::{EdgeId, Form, Network};

/// Whether an operator reads the instant before.
fn is_pre(form: Form) -> bool
    ensures { result ≡ is_pre_of form }
{
    matches!(form, Form::Pre(_))
}

/// The number of operands of an edge at the instant itself.
pub(crate) fn count_now(network: &Network, e: EdgeId) -> u8
    requires { e.0 < length network.now.edges }
    ensures { result ≡ length (operands_now network.now.edges e) }
{
    if is_pre(network.parts().edges.as_slice()[e.0 as usize].op.form()) {
        0
    } else {
        network.ports(e)
    }
}

/// An operand of an edge at the instant itself.
pub(crate) fn operand_now(network: &Network, e: EdgeId, port: u8) -> EdgeId
    requires edge { e.0 < length network.now.edges }
    requires port { port < length (operands_now network.now.edges e) }
    ensures operand { slice_get (operands_now network.now.edges e) port ≡ Some result }
    ensures edge { result.0 < length network.now.edges }
{
    network.operand(e, port)
}
