ghost use Rattle.std.specs.Prelude.{◌≡◌, [], not, is_some, IfOk, OnOk};
ghost use Rattle.suite_file.specs.NameTables.{Adds, Keeps};
ghost use Rattle.suite_file.specs.Tables.{number_of};

use cov_base::Memory;
use indexmap::IndexMap;
use std::alloc::Global;
use std::collections::BTreeSet;
use std::marker::Model;

/// Names with numbers, in the order in which they were added. A name is found by its hash; since
/// the names are those of a network's inputs, they are few even where their hashes agree.
#[derive(Drop)]
pub(crate) struct NameTable {
    entries: IndexMap<Vec<u8>, u32>,
}

impl Model for NameTable {
    ghost use Rattle.std.specs.Prelude.{ℕ, List};
    ghost use Rattle.suite_file.specs.NameTables.{entries_seen};

    ghost Value = { List (List ℕ × ℕ) };

    ghost view = { λ t. entries_seen t.entries.entries };
}

impl NameTable {
    pub(crate) fn new(alloc: Global) -> NameTable
        ensures { result ≡ [] }
    {
        NameTable {
            entries: IndexMap::new(alloc),
        }
    }

    /// The number of a name, if the table has it.
    pub(crate) fn number(&self, name: &[u8]) -> Option<u32>
        ensures { result ≡ number_of self.now name.now }
    {
        match self.entries.get(name) {
            Some(number) => Some(*number),
            None => None,
        }
    }

    /// Adds a name with its number, unless the table has the name: then nothing changes, and the
    /// answer is false.
    pub(crate) fn add(&mut self, alloc: Global, name: &[u8], number: u32) -> Result<bool, Memory>
        ensures new { IfOk result (λ new. new ≡ not (is_some (number_of self.old name.now))) }
        ensures added { IfOk result (λ new. Adds new self.old self.new name.now number) }
    {
        if self.number(name).is_some() {
            return Ok(false);
        }
        let Ok(key) = Vec::from_slice(alloc, name) else {
            return Err(Memory);
        };
        let Ok(_) = self.entries.insert(key, number) else {
            return Err(Memory);
        };
        Ok(true)
    }
}

/// Adds a name to a set, unless the set has it. The cost is logarithmic in the number of names,
/// also where a text's author chose them.
pub(crate) fn keep_name(
    alloc: Global,
    names: &mut BTreeSet<Vec<u8>>,
    name: &[u8],
) -> Result<(), Memory>
    ensures { OnOk result (Keeps names.old names.new name.now) }
{
    let Ok(key) = Vec::from_slice(alloc, name) else {
        return Err(Memory);
    };
    let Ok(_) = names.insert(key) else {
        return Err(Memory);
    };
    Ok(())
}
