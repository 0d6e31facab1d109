//! How many variables the formula of a goal takes at most.
ghost use Rattle.std.specs.Prelude.{◌≡◌, ◌≤◌, ◌*◌};
ghost use Rattle.op_network.specs.declared.limits.TheConstants.{MOST_EDGES as most_edges, MOST_WIDTH as widest};
ghost use Rattle.unroll_cnf.specs.Sizes as spec;

use crate::widths::{bits_of, edge_bits};
use op_network::{Binary, Edge, EdgeId, Form, Network, Parts, Unary};

/// What a sum takes, for each bit.
const SUM_BIT: u64 = 6;

/// What a product takes, for each two bits.
const PRODUCT_BIT: u64 = 8;

/// What an equality takes, for each bit.
const EQUALITY_BIT: u64 = 3;

/// What an order takes, for each bit.
const ORDER_BIT: u64 = 6;

/// What a condition takes for each port and each edge at an instant.
const MARKS: u64 = 4;

/// What a path takes at an instant.
const PATH: u64 = 260;

fn unary_cost(op: Unary, bits: u64) -> u64
    requires { bits ≤ widest }
    ensures value { result ≡ spec.unary_cost op bits }
    ensures few { result ≤ spec.most_cost }
{
    match op {
        Unary::Id | Unary::Not => bits,
        Unary::Neg => SUM_BIT * bits,
    }
}

/// The cost of an operator over a result of so many bits and a first operand of so many.
fn binary_cost(op: Binary, bits: u64, operand: u64) -> u64
    requires bits { bits ≤ widest }
    requires operand { operand ≤ widest }
    ensures value { result ≡ spec.binary_cost op bits operand }
    ensures few { result ≤ spec.most_cost }
{
    match op {
        Binary::And | Binary::Or | Binary::Xor | Binary::Imp => bits,
        Binary::Eq | Binary::Ne => EQUALITY_BIT * operand + 1,
        Binary::Lt | Binary::Le | Binary::Gt | Binary::Ge => ORDER_BIT * operand + 1,
        Binary::Add | Binary::Sub => SUM_BIT * bits,
        Binary::Mul => PRODUCT_BIT * (bits * bits),
    }
}

/// The cost of an edge at an instant.
fn cost(parts: &Parts, edge: &Edge) -> u64
    requires { parts.now.width ≤ widest }
    ensures value { result ≡ spec.cost_of parts.now edge.now }
    ensures few { result ≤ spec.most_cost }
{
    let bits = u64::from(bits_of(parts, edge.ty));
    match edge.op.form() {
        Form::One(op, _) => unary_cost(op, bits),
        Form::Two(op, a, _) => binary_cost(op, bits, u64::from(edge_bits(parts, a))),
        Form::Input(_) | Form::Const(_) | Form::Ite(_, _, _) | Form::Arrow(_, _) | Form::Pre(_) =>
            bits,
    }
}

/// The cost of all edges at an instant.
#[tactic(auto, using(crate::proofs::Totals::total_start, crate::proofs::Totals::total_step, crate::proofs::Totals::total_end))]
fn costs(net: &Network) -> u64
    ensures value { result ≡ spec.costs net.now }
    ensures few { result ≤ most_edges * spec.most_cost }
{
    let parts = net.parts();
    let mut total = 0;
    for edge in parts.edges.as_slice() {
        total += cost(parts, edge);
    }
    total
}

/// How many ports there are.
#[tactic(auto, using(crate::proofs::Totals::total_start, crate::proofs::Totals::ports_step, crate::proofs::Totals::total_end))]
fn ports(net: &Network) -> u64
    ensures value { result ≡ spec.ports net.now }
    ensures few { result ≤ most_edges * 255 }
{
    let mut total = 0;
    for e in 0..net.parts().edges.len() {
        total += u64::from(net.ports(EdgeId(e as u32)));
    }
    total
}

/// How many variables the formula of a goal over `k` instants takes at most: 1, and at each instant
/// the costs of all edges, 4 for each port, 4 for each edge and 260. An edge costs its bits; an
/// equality 3 for each bit of an operand and 1, an order 6 and 1, a sum, a difference and a
/// negation 6 for each bit, and a product 8 times the square of its bits. `k` is 1 to 32. Takes no
/// memory. The cost is linear in the number of edges.
pub fn size(net: &Network, k: u32) -> u64
    requires some { 1 ≤ k }
    requires few { k ≤ 32 }
    ensures { result ≡ spec.size_of net.now k }
{
    let edges = net.parts().edges.len() as u64;
    1 + u64::from(k) * (costs(net) + MARKS * ports(net) + MARKS * edges + PATH)
}
