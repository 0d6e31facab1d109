ghost use Rattle.std.specs.Prelude.{◌≡◌, ◌++◌, map, OnOk};
ghost use Rattle.std.specs.List.{range_with_len};
ghost use Rattle.dep_paths.specs.declared.path.Obligation.TheVariants.{Bc};

use crate::path::Obligation;
use cov_base::{List, Memory};

/// Adds basic coverage of so many paths.
pub(crate) fn add_basic_coverage(count: u32, duties: &mut List<Obligation>) -> Result<(), Memory>
    ensures { OnOk result (duties.new ≡ duties.old ++ map Bc (range_with_len 0 count)) }
{
    for path in 0..count {
        duties.add(Obligation::Bc { path })?;
    }
    Ok(())
}
