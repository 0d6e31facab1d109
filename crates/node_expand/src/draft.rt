use cov_base::List;
use op_network::{Edge, EdgeId};

/// The edges of a network that are made so far, and which of them are the roots of assertions.
#[derive(Debug, Drop)]
pub(crate) struct Draft {
    pub(crate) edges: List<Edge>,
    pub(crate) asserts: List<EdgeId>,
}
