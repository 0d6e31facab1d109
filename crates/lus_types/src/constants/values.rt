ghost use Rattle.std.specs.Prelude.{◌≡◌, ℕ, ◌≤◌, ◌<◌, [], Some, IfErr, IfOk};
ghost use Rattle.lus_types.specs.NameTables.{HasSmallChoices};
ghost use Rattle.lus_types.specs.Types as types;
ghost use Rattle.lus_types.specs.Values as spec;
ghost use Rattle.lus_types.specs.Views.{globals_seen};

use crate::expressions::operators::{ordinary_binary, ordinary_unary};
use crate::fault::TypeFault;
use crate::names::table::NameTable;
use crate::nodes::header::meaning_in;
use crate::types::Meaning;
use cov_base::List;
use lus_syntax::{BinOp, Decl, Expr, ExprKind, UnOp};
use op_network::{
    LEAST_WIDTH, MOST_NAMES, MOST_WIDTH, Value, binary_value, if_value, unary_value, wrapped,
};
use std::alloc::Global;

/// The value of the constant at a place, of those that are known.
fn value_at(known: &[Value], place: u32) -> Value
    ensures { result ≡ spec.value_meant known.now (Some (Meaning.Constant place)) }
{
    match known.get(place as usize) {
        Some(value) => *value,
        None => Value::Truth(false),
    }
}

/// The value of what a global name means.
pub(crate) fn value_meant(known: &[Value], meaning: Option<Meaning>) -> Value
    requires { (ty i : ℕ) → meaning ≡ Some (Meaning.Enumerator ty i) → i < MOST_NAMES }
    ensures { result ≡ spec.value_meant known.now meaning }
{
    match meaning {
        Some(Meaning::Enumerator(_, i)) => Value::Choice(i as u8),
        Some(Meaning::Constant(place)) => value_at(known, place),
        Some(Meaning::Enumeration(_)) => Value::Truth(false),
        Some(Meaning::Node(_)) => Value::Truth(false),
        None => Value::Truth(false),
    }
}

/// The value of an operator with one operand at instant 0.
fn unary_at_start(width: u32, op: UnOp, a: Value) -> Value
    requires narrowest { LEAST_WIDTH ≤ width }
    requires widest { width ≤ MOST_WIDTH }
    ensures { result ≡ spec.unary_at_start width (types.ordinary_unary op) a }
{
    match ordinary_unary(op) {
        Some(ordinary) => unary_value(width, ordinary, a),
        None => a,
    }
}

/// The value of an operator with two operands at instant 0.
fn binary_at_start(width: u32, op: BinOp, a: Value, b: Value) -> Value
    requires narrowest { LEAST_WIDTH ≤ width }
    requires widest { width ≤ MOST_WIDTH }
    ensures { result ≡ spec.binary_at_start width (types.ordinary_binary op) a b }
{
    match ordinary_binary(op) {
        Some(ordinary) => binary_value(width, ordinary, a, b),
        None => a,
    }
}

/// The value of a constant's expression at instant 0, over the values of the constants before it.
/// The cost is linear in the expression and in the lengths of the names that it has.
fn value_of(width: u32, globals: &NameTable<Meaning>, known: &[Value], expr: &Expr) -> Value
    requires narrowest { LEAST_WIDTH ≤ width }
    requires widest { width ≤ MOST_WIDTH }
    requires small { HasSmallChoices (globals_seen globals.now) }
    ensures { result ≡ spec.value width (globals_seen globals.now) known.now expr.now }
{
    match &expr.kind {
        ExprKind::Name(name) => value_meant(known, meaning_in(globals, name.bytes())),
        ExprKind::Number(n) => Value::Word(wrapped(*n, width)),
        ExprKind::Truth(truth) => Value::Truth(*truth),
        ExprKind::One(op, a) => {
            let a = value_of(width, globals, known, a.get());
            unary_at_start(width, *op, a)
        }
        ExprKind::Two(op, a, b) => {
            let a = value_of(width, globals, known, a.get());
            let b = value_of(width, globals, known, b.get());
            binary_at_start(width, *op, a, b)
        }
        ExprKind::Cond(a, b, c) => {
            let a = value_of(width, globals, known, a.get());
            let b = value_of(width, globals, known, b.get());
            let c = value_of(width, globals, known, c.get());
            if_value(a, b, c)
        }
        ExprKind::Call(_, _) => Value::Truth(false),
    }
}

/// The value of a declared constant, over the values of those before it.
fn constant_value(width: u32, globals: &NameTable<Meaning>, known: &[Value], decl: &Decl) -> Value
    requires narrowest { LEAST_WIDTH ≤ width }
    requires widest { width ≤ MOST_WIDTH }
    requires small { HasSmallChoices (globals_seen globals.now) }
    ensures { result ≡ spec.constant_value width (globals_seen globals.now) known.now decl.now }
{
    match decl {
        Decl::ConstDecl {
            value: Some(expr),
            ..
        } => value_of(width, globals, known, expr),
        Decl::ConstDecl { value: None, .. } => Value::Truth(false),
        Decl::TypeDecl { .. } => Value::Truth(false),
        Decl::NodeDecl { .. } => Value::Truth(false),
    }
}

/// The values of the constants, by the places of the declarations.
pub(crate) fn values_of(
    alloc: Global,
    width: u32,
    globals: &NameTable<Meaning>,
    decls: &[Decl],
) -> Result<List<Value>, TypeFault>
    requires narrowest { LEAST_WIDTH ≤ width }
    requires widest { width ≤ MOST_WIDTH }
    requires small { HasSmallChoices (globals_seen globals.now) }
    ensures ok { IfOk result (λ values. values
        ≡ spec.values_from width (globals_seen globals.now) [] decls.now) }
    ensures err { IfErr result (λ fault. fault ≡ TypeFault.Memory) }
{
    let mut values = List::new(alloc);
    for decl in decls {
        let value = constant_value(width, globals, values.as_slice(), decl);
        values.add(value)?;
    }
    Ok(values)
}
