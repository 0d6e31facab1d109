ghost use Rattle.std.specs.Prelude.{◌≡◌};
ghost use Rattle.lus_types.specs.Names.{Name, entry_of};
ghost use Rattle.node_expand.specs.Variables.{type_among};

use crate::names::table::NameTable;
use cov_base::{List, Text};
use op_network::Ty;

/// A variable of a node, with its type.
#[derive(Debug, Drop)]
pub(crate) struct Variable {
    pub(crate) name: Text,
    pub(crate) ty: Ty,
}

/// The variables of a node, in the order of the text, and the types of all of them by their names.
#[derive(Drop)]
pub(crate) struct Header {
    pub(crate) inputs: List<Variable>,
    pub(crate) outputs: List<Variable>,
    pub(crate) locals: List<Variable>,
    pub(crate) types: NameTable<Ty>,
    ghost types_are: { (x : Name) → entry_of types x ≡ type_among inputs outputs locals x },
}
