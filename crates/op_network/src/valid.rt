ghost use Rattle.std.specs.Prelude.{◌≡◌, ◌≤◌, ◌↔◌, length, IsTrue, All};
ghost use Rattle.op_network.specs.Valid.{IsInRange, IsChoice};

mod names;
mod places;
mod types;

use crate::edge::{Choice, Parts};
use crate::limits::{LEAST_WIDTH, MOST_EDGES, MOST_WIDTH};
use names::{are_choices, have_different_names, have_names};
use places::{are_edges, are_truths, differ, has_inputs};
use types::{are_well_typed, have_types};
pub(crate) use types::{has_type, type_of};

/// Whether the width and the number of edges are in their ranges.
fn is_in_range(parts: &Parts) -> bool
    ensures { IsTrue result ↔ IsInRange parts.now }
{
    parts.width >= LEAST_WIDTH && parts.width <= MOST_WIDTH && parts.edges.len() <= MOST_EDGES
}

impl Parts {
    ghost use Rattle.op_network.specs.Valid.{IsValid};

    /// Whether these are the parts of a valid network: the width and the numbers of edges and of
    /// enumerators are within the limits; operands, outputs and asserts are edges; each operator is
    /// well typed, and each assert a truth; names have one or more printable bytes that are no
    /// blanks, and those of edges differ, as those of one choice do; the inputs are the edges
    /// `Input`, in order; and no output or assert stands twice. Takes no memory. The cost is linear
    /// but for n log n comparisons of the edges' names.
    pub fn valid(&self) -> bool
        ensures { IsTrue result ↔ IsValid self.now }
    {
        if !is_in_range(self) {
            return false;
        }
        are_choices(self.choices.as_slice())
            && have_types(self)
            && are_well_typed(self)
            && have_names(self.edges.as_slice())
            && have_different_names(self.edges.as_slice())
            && has_inputs(self.edges.as_slice(), self.inputs.as_slice())
            && are_edges(self.edges.as_slice(), self.outputs.as_slice())
            && differ(self.edges.as_slice(), self.outputs.as_slice())
            && are_truths(self.edges.as_slice(), self.asserts.as_slice())
            && differ(self.edges.as_slice(), self.asserts.as_slice())
    }
}
