ghost use Rattle.std.specs.Prelude.{◌≡◌, ◌++◌, OnOk};
ghost use Rattle.dep_paths.specs.Duties.{condition_duties, observable_conditions};

use crate::path::Obligation;
use cov_base::{List, Memory};

/// Adds the obligations on the condition at a place.
fn add_condition(condition: u32, duties: &mut List<Obligation>) -> Result<(), Memory>
    ensures { OnOk result (duties.new ≡ duties.old ++ condition_duties condition) }
{
    let both = [true, false].map(|value| Obligation::Omc { condition, value });
    duties.extend_from_slice(&both)
}

/// Adds the obligations on so many conditions.
pub(crate) fn add_observable_conditions(
    count: u32,
    duties: &mut List<Obligation>,
) -> Result<(), Memory>
    ensures { OnOk result (duties.new ≡ duties.old ++ observable_conditions count) }
{
    for condition in 0..count {
        add_condition(condition, duties)?;
    }
    Ok(())
}
