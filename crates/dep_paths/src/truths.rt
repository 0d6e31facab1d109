ghost use Rattle.std.specs.Prelude.{◌≡◌};
ghost use Rattle.dep_paths.specs.Conditions.{is_truth_edge as truth_edge};

use op_network::{Edge, EdgeId, Ty};

/// Whether an edge is a Truth. In constant time.
pub(crate) fn is_truth_edge(edges: &[Edge], e: EdgeId) -> bool
    ensures { result ≡ truth_edge edges.now e }
{
    match edges.get(e.0 as usize) {
        Some(edge) => match edge.ty {
            Ty::Truth => true,
            Ty::Word => false,
            Ty::Choice(_) => false,
        },
        None => false,
    }
}
