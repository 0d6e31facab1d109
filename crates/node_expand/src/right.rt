ghost use Rattle.std.specs.Prelude.{◌≡◌, ◌+◌, ◌≤◌, ◌∷◌, [], List as Seq, map, All, ℕ, IfOk, option_map};
ghost use Rattle.std.specs.Borrow.{Bor};
ghost use Rattle.op_network.specs.declared.limits.TheConstants.{MOST_EDGES};
ghost use Rattle.node_expand.specs.Fragments.{first_place};
ghost use Rattle.node_expand.specs.Known as known;
ghost use Rattle.node_expand.specs.Making as look;
ghost use Rattle.node_expand.specs.Making.{AreKnown, IsRight};

use crate::limits::MANY;
use crate::making::{Operand, Scope, Work, make, results_at};
use crate::parts::{Call, Gate};
use cov_base::{List, Memory};
use lus_syntax::{Expr, ExprKind};
use std::alloc::Global;

/// What stands for a right side: the edges of its values, its own edges, and its calls.
#[derive(Debug, Drop)]
pub(crate) struct Right {
    pub(crate) values: List<u32>,
    pub(crate) gates: List<Gate>,
    pub(crate) calls: List<Call>,
}

/// These edges, each behind so many others.
fn shifted(alloc: Global, edges: &[u32], start: u32) -> Result<List<u32>, Memory>
    requires start { start ≤ MOST_EDGES }
    requires small { All (λ k. k ≤ MANY) edges.now }
    ensures { IfOk result (λ list. list ≡ map (λ k. start + k) edges.now) }
{
    let mut list = List::new(alloc);
    for edge in edges {
        list.add(start + *edge)?;
    }
    Ok(list)
}

fn one_value(alloc: Global, value: u32) -> Result<List<u32>, Memory>
    ensures { IfOk result (λ list. list ≡ value ∷ []) }
{
    let mut values = List::new(alloc);
    values.add(value)?;
    Ok(values)
}

/// The node that an expression calls, where it is a call as a whole.
fn called(expr: &Expr) -> Option<&[u8]>
    ensures { option_map (λ (name : Bor (Seq ℕ)). name.now) result ≡ known.called expr.now }
{
    match &expr.kind {
        ExprKind::Call(name, _) => Some(name.bytes()),
        ExprKind::Name(_) => None,
        ExprKind::Number(_) => None,
        ExprKind::Truth(_) => None,
        ExprKind::One(_, _) => None,
        ExprKind::Two(_, _, _) => None,
        ExprKind::Cond(_, _, _) => None,
    }
}

/// The edges of the values of a right side, the instances of whose calls begin at `inner`: of a
/// call one for each result, of any other expression one, which is given.
fn values_of(
    alloc: Global,
    scope: &Scope,
    expr: &Expr,
    first: u32,
    inner: u32,
) -> Result<List<u32>, Memory>
    requires { inner ≤ MOST_EDGES }
    ensures { (at : ℕ) → first ≡ first_place (look.placing scope.now expr.now at inner).values
        → IfOk result (λ values. values ≡ (look.placing scope.now expr.now at inner).values) }
{
    match called(expr) {
        Some(name) => {
            let results = results_at(scope.tables, scope.typed.node_named(name));
            shifted(alloc, results, inner)
        }
        None => one_value(alloc, first),
    }
}

/// Makes what stands for a right side whose own edges begin at `at`, and the instances of whose
/// calls begin at `inner`.
pub(crate) fn make_right(
    alloc: Global,
    scope: &Scope,
    expr: &Expr,
    at: u32,
    inner: u32,
) -> Result<Right, Memory>
    requires known { AreKnown scope.now.typed.now scope.now.tables.now }
    requires room { at + look.own scope.now expr.now ≤ MOST_EDGES }
    requires inner { inner + look.inner scope.now expr.now ≤ MOST_EDGES }
    ensures { IfOk result (IsRight (look.placing scope.now expr.now at inner)) }
{
    let mut work = Work {
        gates: List::new(alloc),
        calls: List::new(alloc),
        inner,
    };
    let operand = make(alloc, scope, expr, at, &mut work)?;
    let values = values_of(alloc, scope, expr, operand.edge, inner)?;
    let Work { gates, calls, .. } = work;
    Ok(Right {
        values,
        gates,
        calls,
    })
}
