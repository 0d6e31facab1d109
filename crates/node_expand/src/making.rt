ghost use Rattle.std.specs.Prelude.{◌≡◌, ◌+◌, ◌-◌, ◌≤◌, ◌<◌, ◌^◌, ◌++◌, [], ◌∷◌, length, map, slice_set, option_copied, pos, OnOk, IfOk};
ghost use Rattle.op_network.specs.declared.limits.TheConstants.{MOST_EDGES};
ghost use Rattle.op_network.specs.Values.{wrap};
ghost use Rattle.lus_types.specs.Names.{globals};
ghost use Rattle.lus_types.specs.Programs.{or_truth, type_of_name};
ghost use Rattle.node_expand.specs.Fragments as spec;
ghost use Rattle.node_expand.specs.Headers as heads;
ghost use Rattle.node_expand.specs.Known as known;
ghost use Rattle.node_expand.specs.Law.{program_in};
ghost use Rattle.node_expand.specs.Making as look;
ghost use Rattle.node_expand.specs.Making.{AreKnown, IsMade};
ghost use Rattle.node_expand.specs.Names as names;
ghost use Rattle.node_expand.specs.Outlines.{callee, measure_at, number_of};

use crate::counts::{constant_in, type_of_name};
use crate::header::Header;
use crate::measures::{Measure, measure_at};
use crate::names::table::NameTable;
use crate::operators::{op_of_one, op_of_two, type_of_if, type_of_one, type_of_two};
use crate::parts::{Call, Gate};
use crate::roots::place_of;
use crate::tables::Tables;
use cov_base::{List, Memory, Text};
use lus_syntax::{BinOp, Expr, ExprKind, UnOp};
use lus_types::{Constant, Typed};
use op_network::{EdgeId, Op, Ty, Value, wrapped};
use std::alloc::Global;

/// What the names of an expression mean, in an instance of a node.
#[derive(Clone, Copy)]
pub(crate) struct Scope<'a, 'v> {
    pub(crate) typed: &'a Typed,
    pub(crate) tables: &'a Tables,
    /// The variables of the node.
    pub(crate) header: &'a Header,
    /// Their edges.
    pub(crate) places: &'v NameTable<u32>,
}

/// The edge that stands for an expression, and its type.
#[derive(Clone, Copy, Debug, PartialEq, Eq)]
pub(crate) struct Operand {
    pub(crate) edge: u32,
    pub(crate) ty: Ty,
}

/// What is made so far of an item: its own edges, its calls, and the edge behind their instances.
#[derive(Debug, Drop)]
pub(crate) struct Work {
    pub(crate) gates: List<Gate>,
    pub(crate) calls: List<Call>,
    pub(crate) inner: u32,
}

/// Adds a gate behind the others. Its edge is the answer, where the first has the edge `base`.
fn add(gates: &mut List<Gate>, base: u32, gate: Gate) -> Result<u32, Memory>
    requires { base + length gates.old < 2 ^ 32 }
    ensures edge { IfOk result (λ edge. edge ≡ base + length gates.old) }
    ensures gates { OnOk result (gates.new ≡ gates.old ++ gate ∷ []) }
{
    let edge = base + gates.len() as u32;
    gates.add(gate)?;
    Ok(edge)
}

/// Sets the gate of an edge.
fn put(gates: &mut List<Gate>, base: u32, edge: u32, gate: Gate)
    requires from { base ≤ edge }
    requires to { edge < base + length gates.old }
    ensures { gates.new ≡ slice_set gates.old (edge - base) gate }
{
    let place = (edge - base) as usize;
    gates.items_mut()[place] = gate;
}

/// Sets a call in its place.
fn put_call(calls: &mut List<Call>, place: usize, call: Call)
    requires { place < length calls.old }
    ensures { calls.new ≡ slice_set calls.old place call }
{
    calls.items_mut()[place] = call;
}

/// A gate that stands where another one is put later.
const LATER: Gate = Gate {
    op: Op::Const(Value::Truth(false)),
    ty: Ty::Truth,
};

/// How many edges an instance of a called node has.
fn size_at(sizes: &[Measure], callee: Option<u32>) -> u32
    ensures { result ≡ number_of (measure_at sizes.now callee) }
{
    match measure_at(sizes, callee) {
        Some(size) => size,
        None => 0,
    }
}

/// The edges of the results of the instance of a called node that begins at an edge.
pub(crate) fn results_at<'a>(tables: &'a Tables, callee: Option<u32>) -> &'a [u32]
    ensures { result.now ≡ known.results_at tables.now.results callee }
{
    match callee {
        None => &[],
        Some(place) => match tables.results.as_slice().get(place as usize) {
            None => &[],
            Some(results) => results.as_slice(),
        },
    }
}

/// The header of a called node.
fn header_at<'a>(tables: &'a Tables, callee: Option<u32>) -> Option<&'a Header>
    ensures { option_copied result ≡ heads.header_at tables.now.headers callee }
{
    match callee {
        None => None,
        Some(place) => tables.headers.as_slice().get(place as usize),
    }
}

/// The type of the first output of a node.
fn output_type(header: &Header) -> Ty
    ensures { result ≡ heads.first_output header.now.outputs }
{
    match header.outputs.as_slice() {
        [] => Ty::Truth,
        [output, ..] => output.ty,
    }
}

/// The type of the first result of a called node.
#[tactic(auto, using(crate::proofs::HeadersKnown::result_type_known))]
fn result_type(scope: &Scope, name: &[u8]) -> Ty
    requires known { AreKnown scope.now.typed.now scope.now.tables.now }
    ensures { result ≡ spec.result_type ((look.program_of scope.now).node name.now) }
{
    match header_at(scope.tables, scope.typed.node_named(name)) {
        None => Ty::Truth,
        Some(header) => output_type(header),
    }
}

/// The value of a literal: a word of the program's width.
fn literal(typed: &Typed, n: u128) -> Value
    ensures { result ≡ Value.Word (wrap typed.now.width (pos n)) }
{
    Value::Word(wrapped(n, typed.width()))
}

/// A constant or a literal: one edge.
fn make_const(value: Value, ty: Ty, base: u32, work: &mut Work) -> Result<Operand, Memory>
    requires { base + length work.old.gates ≤ MOST_EDGES }
    ensures { (callees : spec.Callees) → IfOk result
        (λ o. IsMade callees (look.const_at value ty base work.old) work.old work.new o) }
{
    let gate = Gate {
        op: Op::Const(value),
        ty,
    };
    let edge = add(&mut work.gates, base, gate)?;
    Ok(Operand { edge, ty })
}

/// A name: a variable has its edge, a constant one of its own.
fn make_name(scope: &Scope, name: &[u8], base: u32, work: &mut Work) -> Result<Operand, Memory>
    requires { base + length work.old.gates ≤ MOST_EDGES }
    ensures { (callees : spec.Callees) → IfOk result (λ o. IsMade callees
        (look.name_placing scope.now name.now (base + length work.old.gates)) work.old work.new o) }
{
    match constant_in(scope.typed, scope.header, name) {
        Some(constant) => make_const(constant.value, constant.ty, base, work),
        None => Ok(Operand {
            edge: place_of(scope.places, name),
            ty: type_of_name(scope.typed, scope.header, name),
        }),
    }
}

/// An operator with one operand: its own edge stands before those of the operand.
#[cycle(making)]
fn make_one(
    alloc: Global,
    scope: &Scope,
    op: UnOp,
    a: &Expr,
    base: u32,
    work: &mut Work,
) -> Result<Operand, Memory>
    requires known { AreKnown scope.now.typed.now scope.now.tables.now }
    requires room { base + length work.old.gates + look.own scope.now a.now < MOST_EDGES }
    requires inner { work.old.inner + look.inner scope.now a.now ≤ MOST_EDGES }
    ensures made { IfOk result (look.Makes scope.now (look.unary_placing scope.now op a.now) base
        work.old work.new) }
    ensures long { OnOk result (look.IsLonger work.old work.new (look.own scope.now a.now + 1)) }
    ensures behind { OnOk result (look.IsFurther work.old work.new (look.inner scope.now a.now)) }
{
    let root = add(&mut work.gates, base, LATER)?;
    let a = make(alloc, scope, a, base, work)?;
    let ty = type_of_one(op, a.ty);
    let gate = Gate {
        op: op_of_one(op, EdgeId(a.edge)),
        ty,
    };
    put(&mut work.gates, base, root, gate);
    Ok(Operand { edge: root, ty })
}

/// An operator with two operands: its own edge stands before those of the operands.
#[cycle(making)]
fn make_two(
    alloc: Global,
    scope: &Scope,
    op: BinOp,
    a: &Expr,
    b: &Expr,
    base: u32,
    work: &mut Work,
) -> Result<Operand, Memory>
    requires known { AreKnown scope.now.typed.now scope.now.tables.now }
    requires room { base + length work.old.gates + look.own_of_two scope.now a.now b.now
        < MOST_EDGES }
    requires inner { work.old.inner + look.inner_of_two scope.now a.now b.now ≤ MOST_EDGES }
    ensures made { IfOk result (look.Makes scope.now (look.binary_placing scope.now op a.now b.now)
        base work.old work.new) }
    ensures long { OnOk result (look.IsLonger work.old work.new
        (look.own_of_two scope.now a.now b.now + 1)) }
    ensures behind { OnOk result (look.IsFurther work.old work.new
        (look.inner_of_two scope.now a.now b.now)) }
{
    let root = add(&mut work.gates, base, LATER)?;
    let a = make(alloc, scope, a, base, work)?;
    let b = make(alloc, scope, b, base, work)?;
    let ty = type_of_two(op, a.ty, b.ty);
    let gate = Gate {
        op: op_of_two(op, EdgeId(a.edge), EdgeId(b.edge)),
        ty,
    };
    put(&mut work.gates, base, root, gate);
    Ok(Operand { edge: root, ty })
}

/// `if`: its own edge stands before those of the operands.
#[cycle(making)]
fn make_if(
    alloc: Global,
    scope: &Scope,
    a: &Expr,
    b: &Expr,
    c: &Expr,
    base: u32,
    work: &mut Work,
) -> Result<Operand, Memory>
    requires known { AreKnown scope.now.typed.now scope.now.tables.now }
    requires room { base + length work.old.gates + look.own_of_three scope.now a.now b.now c.now
        < MOST_EDGES }
    requires inner { work.old.inner + look.inner_of_three scope.now a.now b.now c.now ≤ MOST_EDGES }
    ensures made { IfOk result (look.Makes scope.now (look.if_placing scope.now a.now b.now c.now)
        base work.old work.new) }
    ensures long { OnOk result (look.IsLonger work.old work.new
        (look.own_of_three scope.now a.now b.now c.now + 1)) }
    ensures behind { OnOk result (look.IsFurther work.old work.new
        (look.inner_of_three scope.now a.now b.now c.now)) }
{
    let root = add(&mut work.gates, base, LATER)?;
    let a = make(alloc, scope, a, base, work)?;
    let b = make(alloc, scope, b, base, work)?;
    let c = make(alloc, scope, c, base, work)?;
    let ty = type_of_if(a.ty, b.ty, c.ty);
    let gate = Gate {
        op: Op::Ite(EdgeId(a.edge), EdgeId(b.edge), EdgeId(c.edge)),
        ty,
    };
    put(&mut work.gates, base, root, gate);
    Ok(Operand { edge: root, ty })
}

/// Arguments of a call, one behind the other, whose first edges go behind `values`.
#[cycle(making)]
fn make_args(
    alloc: Global,
    scope: &Scope,
    args: &[Expr],
    base: u32,
    work: &mut Work,
    values: &mut List<u32>,
) -> Result<(), Memory>
    requires known { AreKnown scope.now.typed.now scope.now.tables.now }
    requires room { base + length work.old.gates + look.own_of_all scope.now args.now ≤ MOST_EDGES }
    requires inner { work.old.inner + look.inner_of_all scope.now args.now ≤ MOST_EDGES }
    ensures made { OnOk result (look.MakesAll scope.now args.now base work.old work.new values.old
        values.new) }
    ensures long { OnOk result (look.IsLonger work.old work.new
        (look.own_of_all scope.now args.now)) }
    ensures behind { OnOk result (look.IsFurther work.old work.new
        (look.inner_of_all scope.now args.now)) }
{
    match args {
        [] => Ok(()),
        [arg, rest @ ..] => {
            let a = make(alloc, scope, arg, base, work)?;
            values.add(a.edge)?;
            make_args(alloc, scope, rest, base, work, values)
        }
    }
}

/// The first result of the instance of a called node that begins at an edge, or 0.
fn first_result(tables: &Tables, callee: Option<u32>, start: u32) -> u32
    requires { start ≤ MOST_EDGES }
    ensures { result ≡ spec.first_place (map (λ k. start + k)
        (known.results_at tables.now.results callee)) }
{
    match results_at(tables, callee) {
        [] => 0,
        [result, ..] => start + *result,
    }
}

/// A call: its instance stands before those of its arguments.
#[cycle(making)]
fn make_call(
    alloc: Global,
    scope: &Scope,
    name: &[u8],
    args: &[Expr],
    base: u32,
    work: &mut Work,
) -> Result<Operand, Memory>
    requires known { AreKnown scope.now.typed.now scope.now.tables.now }
    requires room { base + length work.old.gates + look.own_of_all scope.now args.now ≤ MOST_EDGES }
    requires inner { work.old.inner + look.inner_of_call scope.now name.now args.now ≤ MOST_EDGES }
    ensures made { IfOk result (look.Makes scope.now (look.call_placing scope.now name.now args.now)
        base work.old work.new) }
    ensures long { OnOk result (look.IsLonger work.old work.new
        (look.own_of_all scope.now args.now)) }
    ensures behind { OnOk result (look.IsFurther work.old work.new
        (look.inner_of_call scope.now name.now args.now)) }
{
    let start = work.inner;
    let place = work.calls.len();
    let callee = scope.typed.node_named(name);
    let later = Call {
        node: Text::from_bytes(alloc, name)?,
        args: List::new(alloc),
    };
    work.calls.add(later)?;
    work.inner = start + size_at(scope.tables.sizes.as_slice(), callee);
    let mut values = List::new(alloc);
    make_args(alloc, scope, args, base, work, &mut values)?;
    let call = Call {
        node: Text::from_bytes(alloc, name)?,
        args: values,
    };
    put_call(&mut work.calls, place, call);
    Ok(Operand {
        edge: first_result(scope.tables, callee, start),
        ty: result_type(scope, name),
    })
}

/// Adds what stands for an expression behind what was made before, and answers its first edge.
#[cycle(making)]
pub(crate) fn make(
    alloc: Global,
    scope: &Scope,
    expr: &Expr,
    base: u32,
    work: &mut Work,
) -> Result<Operand, Memory>
    requires known { AreKnown scope.now.typed.now scope.now.tables.now }
    requires room { base + length work.old.gates + look.own scope.now expr.now ≤ MOST_EDGES }
    requires inner { work.old.inner + look.inner scope.now expr.now ≤ MOST_EDGES }
    ensures made { IfOk result (look.Makes scope.now (look.placing scope.now expr.now) base work.old
        work.new) }
    ensures long { OnOk result (look.IsLonger work.old work.new (look.own scope.now expr.now)) }
    ensures behind { OnOk result (look.IsFurther work.old work.new (look.inner scope.now
        expr.now)) }
{
    match &expr.kind {
        ExprKind::Name(name) => make_name(scope, name.bytes(), base, work),
        ExprKind::Number(n) => make_const(literal(scope.typed, *n), Ty::Word, base, work),
        ExprKind::Truth(truth) => make_const(Value::Truth(*truth), Ty::Truth, base, work),
        ExprKind::One(op, a) => make_one(alloc, scope, *op, a.get(), base, work),
        ExprKind::Two(op, a, b) => make_two(alloc, scope, *op, a.get(), b.get(), base, work),
        ExprKind::Cond(a, b, c) => { make_if(alloc, scope, a.get(), b.get(), c.get(), base, work) }
        ExprKind::Call(name, args) => {
            make_call(alloc, scope, name.bytes(), args.as_slice(), base, work)
        }
    }
}
