ghost use Rattle.std.specs.Prelude.{◌≤◌};
ghost use Rattle.std.specs.List.{AllByRecursion};
ghost use Rattle.node_expand.specs.Small.{AreSmall};

use crate::header::Header;
use crate::measures::Measure;
use crate::outlines::Outline;
use cov_base::List;

/// What is known of the declarations of a program, by their places, before edges are made.
#[derive(Drop)]
pub(crate) struct Tables {
    /// How deep calls may be nested.
    pub(crate) depth: u32,
    pub(crate) headers: List<Header>,
    pub(crate) outlines: List<List<Outline>>,
    /// How many edges an instance has.
    pub(crate) sizes: List<Measure>,
    /// The edges of the results of an instance, counted from its first edge.
    pub(crate) results: List<List<u32>>,
    ghost small: { AreSmall results },
}
