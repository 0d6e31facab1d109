ghost use Rattle.std.specs.Prelude.{◌≡◌, ◌<◌, ◌++◌, ◌∷◌, [], cond, length, IfOk, OnOk};
ghost use Rattle.std.specs.List.{filter};
ghost use Rattle.op_network.specs.Operators.{operands_of};
ghost use Rattle.dep_paths.specs.Conditions as spec;

use crate::path::Condition;
use crate::truths::is_truth_edge;
use cov_base::{List, Memory};
use op_network::{Binary, Edge, EdgeId, Form, Network, Unary};
use std::alloc::Global;

#[cfg(test)]
mod tests;

fn is_constant(form: Form) -> bool
    ensures { result ≡ spec.is_constant form }
{
    matches!(form, Form::Const(_))
}

fn is_unary_link(op: Unary) -> bool
    ensures { result ≡ spec.is_unary_link op }
{
    matches!(op, Unary::Not)
}

fn is_binary_link(op: Binary, truths: bool) -> bool
    ensures { result ≡ spec.is_binary_link op truths }
{
    match op {
        Binary::And | Binary::Or | Binary::Xor | Binary::Imp => true,
        Binary::Eq | Binary::Ne => truths,
        _ => false,
    }
}

/// Whether an operator makes a truth from truths.
fn is_link(edges: &[Edge], form: Form) -> bool
    ensures { result ≡ spec.is_link edges.now form }
{
    match form {
        Form::One(op, _) => is_unary_link(op),
        Form::Two(op, a, b) => {
            is_binary_link(op, is_truth_edge(edges, a) && is_truth_edge(edges, b))
        }
        _ => false,
    }
}

/// Whether an operand is a Truth, no constant, and no link without a name of its own.
fn counts_operand(edges: &[Edge], a: EdgeId) -> bool
    requires { a.0 < length edges.now }
    ensures { result ≡ spec.counts_operand edges.now a }
{
    let edge = &edges[a.0 as usize];
    let form = edge.op.form();
    is_truth_edge(edges, a) && !is_constant(form) && (edge.named || !is_link(edges, form))
}

fn is_asserted(edges: &[Edge], e: EdgeId) -> bool
    requires { e.0 < length edges.now }
    ensures { result ≡ spec.is_asserted edges.now e }
{
    edges[e.0 as usize].asserted
}

/// Whether a port is a condition. In constant time.
fn is_condition(net: &Network, port: Condition) -> bool
    requires edge { port.edge.0 < length net.now.edges }
    requires port { port.port < length (operands_of net.now.edges port.edge) }
    ensures { result ≡ spec.is_condition net.now.edges port }
{
    let edges = net.parts().edges.as_slice();
    !is_asserted(edges, port.edge) && counts_operand(edges, net.operand(port.edge, port.port))
}

/// Adds a port if it is a condition.
fn add_condition(net: &Network, port: Condition, found: &mut List<Condition>) -> Result<(), Memory>
    requires edge { port.edge.0 < length net.now.edges }
    requires port { port.port < length (operands_of net.now.edges port.edge) }
    ensures { OnOk result (found.new
        ≡ found.old ++ cond (spec.is_condition net.now.edges port) (port ∷ []) []) }
{
    if is_condition(net, port) {
        found.add(port)
    } else {
        Ok(())
    }
}

/// Adds the conditions among the ports of an edge.
fn add_conditions(net: &Network, edge: EdgeId, found: &mut List<Condition>) -> Result<(), Memory>
    requires { edge.0 < length net.now.edges }
    ensures { OnOk result (found.new ≡ found.old
        ++ filter (spec.is_condition net.now.edges) (spec.ports_of net.now.edges edge)) }
{
    for port in 0..net.ports(edge) {
        add_condition(net, Condition { edge, port }, found)?;
    }
    Ok(())
}

/// The conditions of a network, by edge and port: the ports of edges that don't stem from an
/// assertion, whose operand is a Truth. An operand that is a constant doesn't count, nor one
/// without a name of its own that makes a truth from truths: a `Not`, `And`, `Or`, `Xor` or `Imp`,
/// or an `Eq` or `Ne` of truths.
///
/// `Memory` comes for want of it alone. Linear in the number of edges.
pub fn conditions(alloc: Global, net: &Network) -> Result<List<Condition>, Memory>
    ensures { IfOk result (λ found. found ≡ spec.conditions net.now.edges) }
{
    let mut found = List::new(alloc);
    for e in 0..net.parts().edges.len() {
        add_conditions(net, EdgeId(e as u32), &mut found)?;
    }
    Ok(found)
}
