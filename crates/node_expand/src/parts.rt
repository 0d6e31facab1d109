use cov_base::{List, Text};
use op_network::{Op, Ty};

/// An edge without its name.
#[derive(Clone, Copy, Debug, PartialEq, Eq)]
pub(crate) struct Gate {
    pub(crate) op: Op,
    pub(crate) ty: Ty,
}

/// A call of a node, with the places of the edges that are its arguments.
#[derive(Debug, Drop)]
pub(crate) struct Call {
    pub(crate) node: Text,
    pub(crate) args: List<u32>,
}
