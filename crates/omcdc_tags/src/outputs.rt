ghost use Rattle.std.specs.Prelude.{◌≡◌, ◌<◌, length};
ghost use Rattle.std.specs.List.{All};
ghost use Rattle.op_network.specs.declared.edge.EdgeId.{EdgeId as Id};
ghost use Rattle.omcdc_tags.specs.Rows.{JoinsRows};
ghost use Rattle.omcdc_tags.specs.Tags.{row_at};

use crate::rows::add_row;
use cov_base::BitRow;
use op_network::EdgeId;

/// Joins the rows of the outputs. Linear in their number and in the words of a row.
#[tactic(auto, using(crate::proofs::Joining::none_joined, crate::proofs::Joining::one_joined, crate::proofs::Joining::all_joined))]
pub(crate) fn join_outputs(outputs: &[EdgeId], rows: &[BitRow], joined: &mut BitRow)
    requires outputs { All (λ (e : Id). e.0 < length rows.now) outputs.now }
    requires size { (e : Id) → e.0 < length rows.now →
        length (row_at rows.now e) ≡ length joined.old }
    ensures joins { JoinsRows outputs.now rows.now joined.new }
    ensures size { length joined.new ≡ length joined.old }
{
    joined.clear();
    for output in outputs {
        add_row(joined, &rows[output.0 as usize]);
    }
}
