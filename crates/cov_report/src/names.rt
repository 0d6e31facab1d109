//! The names of edges and of criteria.
ghost use Rattle.std.specs.Prelude.{◌≡◌, [], ◌∷◌, ◌++◌, OnOk};
ghost use Rattle.std.specs.Io.{StartsWith};
ghost use Rattle.op_network.specs.Valid.{name_at};
ghost use Rattle.cov_report.specs.Scores.{criterion_name as name_of};

use cov_base::{List, Memory};
use dep_paths::Criterion;
use op_network::{Edge, EdgeId};

/// The name of an edge, or nothing where there is no such edge.
pub(crate) fn edge_name(edges: &[Edge], e: EdgeId) -> &[u8]
    ensures { result.now ≡ name_at edges.now e.0 }
{
    match edges.get(e.0 as usize) {
        Some(edge) => edge.name.bytes(),
        None => b"",
    }
}

/// The name of a criterion.
pub(crate) fn criterion_name(criterion: Criterion) -> &'static str
    ensures { result.now ≡ name_of criterion }
{
    match criterion {
        Criterion::Bc => "BC",
        Criterion::Ecc => "ECC",
        Criterion::Mcc => "MCC",
        Criterion::Omcdc => "OMCDC",
    }
}

/// Adds the name of a criterion and a space.
#[tactic(auto, using(crate::proofs::Starts::starts))]
pub(crate) fn push_criterion(text: &mut List<u8>, criterion: Criterion) -> Result<(), Memory>
    ensures ok { OnOk result (text.new ≡ text.old ++ (name_of criterion ++ 32 ∷ [])) }
    ensures kept { StartsWith text.new text.old }
{
    text.extend_from_slice(criterion_name(criterion).as_bytes())?;
    text.extend_from_slice(b" ")
}
