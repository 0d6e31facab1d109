ghost use Rattle.std.specs.Prelude.{◌≡◌, ◌++◌, [], ◌∷◌, Ok, true, false, OnErr};
ghost use Rattle.lus_types.specs.Names.{is_among};

use cov_base::Memory;
use indexmap::IndexSet;
use std::alloc::Global;
use std::marker::Model;

/// Names in the order in which they were added. A name is found by its hash.
#[derive(Drop)]
pub(crate) struct NameSet {
    names: IndexSet<Vec<u8>>,
}

impl Model for NameSet {
    ghost use Rattle.std.specs.Prelude.{ℕ, List};
    ghost use Rattle.lus_types.specs.Tables.{names_seen};

    ghost Value = { List (List ℕ) };

    ghost view = { λ s. names_seen s.names.keys };
}

impl NameSet {
    /// The set without a name.
    pub(crate) fn new(alloc: Global) -> NameSet
        ensures { result ≡ [] }
    {
        NameSet {
            names: IndexSet::new(alloc),
        }
    }

    /// Whether a name is in the set. The cost is linear in the name.
    pub(crate) fn has(&self, name: &[u8]) -> bool
        ensures { result ≡ is_among name.now self.now }
    {
        self.names.contains(name)
    }

    /// Adds a name, unless the set has it: then nothing changes, and the answer is false.
    pub(crate) fn add(&mut self, alloc: Global, name: &[u8]) -> Result<bool, Memory>
        ensures added { result ≡ Ok true → (is_among name.now self.old ≡ false)
            × (self.new ≡ self.old ++ name.now ∷ []) }
        ensures there { result ≡ Ok false → (is_among name.now self.old ≡ true)
            × (self.new ≡ self.old) }
        ensures err { OnErr result (self.new ≡ self.old) }
    {
        if self.has(name) {
            return Ok(false);
        }
        let Ok(key) = Vec::from_slice(alloc, name) else {
            return Err(Memory);
        };
        match self.names.insert(key) {
            Ok(_) => Ok(true),
            Err(_) => Err(Memory),
        }
    }
}
