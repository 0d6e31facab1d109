ghost use Rattle.std.specs.Prelude.{◌≡◌, ◌<◌, ◌≤◌, ◌*◌, ◌+◌, ◌↔◌, true, Some, length, slice_get, IsTrue};
ghost use Rattle.op_network.specs.declared.value.Value.TheVariants.{Truth};
ghost use Rattle.op_network.specs.Operators.{at_edge};
ghost use Rattle.omcdc_tags.specs.Ports.{ArePorts};
ghost use Rattle.omcdc_tags.specs.Rows.{ValuesBelow};
ghost use Rattle.omcdc_tags.specs.Tags.{AreValues, OperandHas};

use crate::limits::MOST_PORTS;
use crate::rows::add_if;
use cov_base::BitRow;
use dep_paths::Condition;
use op_network::{EdgeId, Network, Value};

/// Whether an edge has this truth, in constant time. An edge that has no value is false.
fn has_truth(frame: &[Value], e: EdgeId, truth: bool) -> bool
    ensures { IsTrue result ↔ (at_edge frame.now e ≡ Truth truth) }
{
    match frame.get(e.0 as usize) {
        Some(Value::Truth(value)) => *value == truth,
        Some(Value::Word(_)) => false,
        Some(Value::Choice(_)) => false,
        None => !truth,
    }
}

/// Whether the operand of a port has a value. It has none where the edge lacks the port.
fn operand_has(net: &Network, frame: &[Value], port: Condition, value: bool) -> bool
    requires { port.edge.0 < length net.now.edges }
    ensures { (result ≡ true) ↔ OperandHas net.now.edges frame.now value port }
{
    if port.port < net.ports(port.edge) {
        has_truth(frame, net.operand(port.edge, port.port), value)
    } else {
        false
    }
}

/// The port at a place.
fn port_at(ports: &[Condition], i: u32) -> Condition
    requires { i < length ports.now }
    ensures { slice_get ports.now i ≡ Some result }
{
    ports[i as usize]
}

/// Notes the value of the operand of the port at a place.
#[tactic(auto, using(crate::proofs::Starting::next_start))]
fn put_value(net: &Network, ports: &[Condition], frame: &[Value], i: u32, values: &mut BitRow)
    requires within { ArePorts (length net.now.edges) ports.now }
    requires few { length ports.now ≤ MOST_PORTS }
    requires place { i < length ports.now }
    requires size { length values.old ≡ 2 * length ports.now }
    requires done { ValuesBelow net.now.edges ports.now frame.now i values.old }
    ensures size { length values.new ≡ 2 * length ports.now }
    ensures done { ValuesBelow net.now.edges ports.now frame.now (i + 1) values.new }
{
    let port = port_at(ports, i);
    let is_true = operand_has(net, frame, port, true);
    let is_false = operand_has(net, frame, port, false);
    add_if(values, 2 * i, is_true);
    add_if(values, 2 * i + 1, is_false);
}

/// Notes the value of the operand of each port. Linear in the number of ports.
#[tactic(auto, using(crate::proofs::Starting::no_starts, crate::proofs::Starting::whole_starts))]
pub(crate) fn put_values(net: &Network, ports: &[Condition], frame: &[Value], values: &mut BitRow)
    requires within { ArePorts (length net.now.edges) ports.now }
    requires few { length ports.now ≤ MOST_PORTS }
    requires size { length values.old ≡ 2 * length ports.now }
    ensures size { length values.new ≡ 2 * length ports.now }
    ensures values { AreValues net.now.edges ports.now frame.now values.new }
{
    values.clear();
    for i in 0..ports.len() as u32 {
        put_value(net, ports, frame, i, values);
    }
}
