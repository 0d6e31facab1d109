ghost use Rattle.std.specs.Prelude.{◌≡◌, slice_get, option_copied};
ghost use Rattle.lus_types.specs.Occurrences as spec;
ghost use Rattle.lus_types.specs.Views.{scope_seen};

use crate::names::table::NameTable;
use crate::types::Meaning;
use cov_base::List;
use op_network::Ty;

/// The types of a node's parameters and results, in their order. A part whose own declaration is
/// faulty has none.
#[derive(Drop)]
pub(crate) struct Signature {
    pub(crate) params: List<Option<Ty>>,
    pub(crate) results: List<Option<Ty>>,
}

/// A variable of a node. It has no type where its own declaration is faulty.
#[derive(Clone, Copy, Debug, PartialEq, Eq)]
pub(crate) struct Variable {
    pub(crate) ty: Option<Ty>,
    pub(crate) is_input: bool,
}

/// What the names of an expression mean.
#[derive(Clone, Copy)]
pub(crate) struct Scope<'a, 'v> {
    pub(crate) width: u32,
    pub(crate) globals: &'a NameTable<Meaning>,
    /// By the places of the declarations: the signature of a node.
    pub(crate) signatures: &'a [Option<Signature>],
    /// By the places of the declarations: the type of a constant, of those that may be used here.
    pub(crate) constants: &'a [Option<Ty>],
    /// By the places of the declarations: a number that two nodes share where each reaches the
    /// other by calls.
    pub(crate) cycles: &'a [u32],
    /// The declaration that the expression stands in.
    pub(crate) place: u32,
    /// The variables of the node. There are none in the declaration of a constant.
    pub(crate) variables: Option<&'v NameTable<Variable>>,
}

/// Whether an expression stands in the declaration of a constant.
pub(crate) fn in_constant(scope: &Scope) -> bool
    ensures { result ≡ spec.in_constant (scope_seen scope.now) }
{
    match scope.variables {
        None => true,
        Some(_) => false,
    }
}

/// The variable of the node that has a name.
fn variable_named(scope: &Scope, name: &[u8]) -> Option<Variable>
    ensures { result ≡ spec.variable_named (scope_seen scope.now).variables name.now }
{
    match scope.variables {
        None => None,
        Some(variables) => match variables.get(name) {
            None => None,
            Some(variable) => Some(*variable),
        },
    }
}

/// What a global name means.
pub(crate) fn meaning_of(scope: &Scope, name: &[u8]) -> Option<Meaning>
    ensures { result ≡ (scope_seen scope.now).globals name.now }
{
    match scope.globals.get(name) {
        None => None,
        Some(meaning) => Some(*meaning),
    }
}

/// The type of the constant at a place, if it may be used here.
fn constant_at(scope: &Scope, place: u32) -> Option<Option<Ty>>
    ensures { result ≡ slice_get (scope_seen scope.now).constants place }
{
    match scope.constants.get(place as usize) {
        None => None,
        Some(ty) => Some(*ty),
    }
}

/// The type of what a global name means, if it means a value.
fn global_value(scope: &Scope, meaning: Option<Meaning>) -> Option<Option<Ty>>
    ensures { result ≡ spec.global_value (scope_seen scope.now).constants meaning }
{
    match meaning {
        Some(Meaning::Enumerator(ty, _)) => Some(Some(Ty::Choice(ty))),
        Some(Meaning::Constant(place)) => constant_at(scope, place),
        Some(Meaning::Enumeration(_)) => None,
        Some(Meaning::Node(_)) => None,
        None => None,
    }
}

/// The type of what a name in an expression means, if it means a value: a variable of the node
/// before a constant or an enumerator.
pub(crate) fn value_named(scope: &Scope, name: &[u8]) -> Option<Option<Ty>>
    ensures { result ≡ spec.value_named (scope_seen scope.now) name.now }
{
    match variable_named(scope, name) {
        Some(variable) => Some(variable.ty),
        None => global_value(scope, meaning_of(scope, name)),
    }
}

/// The signature of the node that is declared at a place.
pub(crate) fn signature_at<'a>(scope: &Scope<'a, '_>, place: u32) -> Option<&'a Signature>
    ensures { option_copied result ≡ spec.flat (slice_get (scope_seen scope.now).signatures place) }
{
    match scope.signatures.get(place as usize) {
        Some(Some(signature)) => Some(signature),
        Some(None) => None,
        None => None,
    }
}

/// The signature of the node that a name means.
pub(crate) fn signature_named<'a>(scope: &Scope<'a, '_>, name: &[u8]) -> Option<&'a Signature>
    ensures { option_copied result ≡ spec.signature_named (scope_seen scope.now) name.now }
{
    match meaning_of(scope, name) {
        Some(Meaning::Node(place)) => signature_at(scope, place),
        Some(Meaning::Enumeration(_)) => None,
        Some(Meaning::Constant(_)) => None,
        Some(Meaning::Enumerator(_, _)) => None,
        None => None,
    }
}
