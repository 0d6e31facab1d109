ghost use Rattle.std.specs.Prelude.{◌≡◌, [], OnOk, OnErr, option_copied};
ghost use Rattle.lus_types.specs.Names.{entry_of};
ghost use Rattle.node_expand.specs.NameTables.{with_name};

use cov_base::Memory;
use indexmap::IndexMap;
use std::alloc::Global;
use std::marker::Model;

/// Names with what they mean, in the order in which they were added. A name is found by its hash.
#[derive(Drop)]
pub(crate) struct NameTable<V> {
    entries: IndexMap<Vec<u8>, V>,
}

impl<V> Model for NameTable<V> {
    ghost use Rattle.std.specs.Prelude.{ℕ, List};
    ghost use Rattle.std.specs.Coded.{coded_list, coded×, coded_ℕ};
    ghost use Rattle.lus_types.specs.Tables.{entries_seen};

    ghost Value = { List (List ℕ × V) };

    ghost coded = { coded_list (coded× (coded_list coded_ℕ) V.code) };

    ghost view = { λ t. entries_seen t.entries.entries };
}

impl<V: Drop> NameTable<V> {
    pub(crate) fn new(alloc: Global) -> NameTable<V>
        ensures { result ≡ [] }
    {
        NameTable {
            entries: IndexMap::new(alloc),
        }
    }

    /// What a name means.
    pub(crate) fn get(&self, name: &[u8]) -> Option<&V>
        ensures { option_copied result ≡ entry_of self.now name.now }
    {
        self.entries.get(name)
    }

    /// Adds a name, unless the table has it: then nothing changes. Constant time over many calls,
    /// but for the length of the name.
    pub(crate) fn add(&mut self, alloc: Global, name: &[u8], meaning: V) -> Result<(), Memory>
        ensures ok { OnOk result (self.new ≡ with_name self.old name.now meaning) }
        ensures err { OnErr result (self.new ≡ self.old) }
    {
        if self.entries.contains_key(name) {
            return Ok(());
        }
        let Ok(key) = Vec::from_slice(alloc, name) else {
            return Err(Memory);
        };
        match self.entries.insert(key, meaning) {
            Ok(_) => Ok(()),
            Err(_) => Err(Memory),
        }
    }
}
