//! The bits of a full trail.
ghost use Rattle.std.specs.Prelude.{◌≡◌, ◌<◌, ℕ, false, length, slice_index_or, IfOk};
ghost use Rattle.sat_core.specs.Bits.{Agree};
ghost use Rattle.sat_core.specs.Trail.{lit_at, Apart};

use crate::trail::Entry;
use cov_base::{BitRow, Memory};
use std::alloc::Global;

/// A bit for each variable, true where its positive literal was set. The cost is linear in the
/// variables.
pub(crate) fn bits_of(alloc: Global, vars: u32, trail: &[Entry]) -> Result<BitRow, Memory>
    requires within { (k : ℕ) → k < length trail.now → (lit_at trail.now k).var < vars }
    requires apart { Apart (lit_at trail.now) (length trail.now) }
    ensures whole { IfOk result (λ bits. length bits ≡ vars) }
    ensures agree { IfOk result (λ bits. Agree bits trail.now (length trail.now)) }
{
    let mut bits = BitRow::new(alloc, vars)?;
    for entry in trail {
        if entry.lit.positive {
            bits.set(entry.lit.var);
        }
    }
    Ok(bits)
}
