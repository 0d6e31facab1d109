ghost use Rattle.std.specs.Prelude.{◌≡◌, List as Seq};
ghost use Rattle.cov_base.specs.Files.{NeverFall};
ghost use Rattle.cov_station.specs.Files.{Counted, Reads};
ghost use Rattle.cov_station.specs.Steps.{Does, Same};

use crate::refusal::{Quantity, Refusal};
use cov_base::{List, Store, StoreFault, Text};
use std::alloc::Global;

/// Reads a file of at most `most` bytes.
pub(crate) fn read_file<S: Store>(
    alloc: Global,
    store: &mut S,
    name: &str,
    most: u32,
) -> Result<List<u8>, Refusal>
    ensures answer { Does (Reads (S.files store.old) name.now most) Same result }
    ensures counts { Counted result (S.counts store.old) (S.counts store.new) }
    ensures never_fall { NeverFall (S.counts store.old) (S.counts store.new) }
    ensures files { S.files store.new ≡ S.files store.old }
{
    let mut bytes = List::new(alloc);
    match store.read(name, most as usize, &mut bytes) {
        Ok(()) if bytes.len() > most as usize => Err(Refusal::OverLimit(Quantity::Bytes, most)),
        Ok(()) => Ok(bytes),
        Err(StoreFault::Missing) => Err(Refusal::NoFile(Text::from_bytes(alloc, name.as_bytes())?)),
        Err(StoreFault::Failed) => Err(Refusal::CannotRead(Text::from_bytes(
            alloc,
            name.as_bytes(),
        )?)),
        Err(StoreFault::Memory) => Err(Refusal::Memory),
    }
}
