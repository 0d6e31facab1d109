//! The names of the tests that are kept.
ghost use Rattle.std.specs.Prelude.{◌≡◌, List as Seq, ℕ, true, false, if◌then◌else◌, OnOk, OnErr};
ghost use Rattle.std.specs.Str.{bytes_eq};
ghost use Rattle.score_table.specs.Names.{holds};

use cov_base::Memory;
use std::alloc::Global;
use std::collections::BTreeSet;

/// Adds a name, or answers `Memory` for want of it: then nothing changes. The cost is logarithmic
/// in the number of names.
pub(crate) fn keep_name(
    alloc: Global,
    names: &mut BTreeSet<Vec<u8>>,
    name: &[u8],
) -> Result<(), Memory>
    ensures ok { OnOk result ((other : Seq ℕ) →
        holds names.new other
        ≡ (if bytes_eq name.now other then true else holds names.old other)) }
    ensures err { OnErr result ((other : Seq ℕ) → holds names.new other ≡ holds names.old other) }
{
    let Ok(key) = Vec::from_slice(alloc, name) else {
        return Err(Memory);
    };
    let Ok(_) = names.insert(key) else {
        return Err(Memory);
    };
    Ok(())
}

/// Takes a name out. The cost is logarithmic in the number of names.
pub(crate) fn drop_name(names: &mut BTreeSet<Vec<u8>>, name: &[u8])
    ensures { (other : Seq ℕ) →
        holds names.new other
        ≡ (if bytes_eq name.now other then false else holds names.old other) }
{
    let _was = names.remove(name);
}
