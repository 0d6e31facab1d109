ghost use Rattle.std.specs.Prelude.{◌≡◌, ◌↔◌, ◌+◌, OnOk, OnErr, IsErrOf, IfSome, take};
ghost use Rattle.std.specs.BTreeMap.{get_by_text};
ghost use Rattle.std.specs.Option.{option_map};
ghost use Rattle.cov_base.specs.Files.{Reads, Lacks, Writes, KeepsOthers, BothTold, NeverFall, OnlyMissingRose, OnlyReadsRose, OnlyWritesRose};
ghost use Rattle.cov_base.specs.Plans.{FailsNext, after_call};

use crate::count::one_more;
use crate::list::List;
use crate::plan::CallPlan;
use crate::store::{Store, StoreFault};
use crate::text::Text;
use std::alloc::Global;
use std::collections::BTreeMap;

/// A store in memory, which tells its files and fails the calls that it is told to fail.
#[derive(Drop)]
pub struct MemStore {
    alloc: Global,
    files: BTreeMap<String, Text>,
    plan: CallPlan,
    missing: u64,
    reads: u64,
    writes: u64,
}

impl MemStore {
    ghost use Rattle.cov_base.specs.MemStore.{files_of, counts_of, plan_of};

    /// A store of these files, which fails the calls of these numbers: reads and writes are counted
    /// together, from 0, and from 2^32 - 1 on the number stays. Constant time.
    pub fn new(alloc: Global, files: BTreeMap<String, Text>, failing: List<u32>) -> MemStore
        ensures files { files_of result ≡ Some (λ name. get_by_text files name) }
        ensures counts { counts_of result ≡ record { missing = 0; reads = 0; writes = 0 } }
        ensures plan { plan_of result ≡ record { failing = failing; next = 0 } }
    {
        MemStore {
            alloc,
            files,
            plan: CallPlan::new(failing),
            missing: 0,
            reads: 0,
            writes: 0,
        }
    }

    /// The bytes of the file that has this name, or `None` where no file has it. The cost is that
    /// of one look-up in a map.
    pub fn file(&self, name: &str) -> Option<&[u8]>
        ensures { IfSome (files_of self.now)
            (λ told. option_map (λ bytes. bytes.now) result ≡ told name.now) }
    {
        match self.files.get(name) {
            Some(text) => Some(text.bytes()),
            None => None,
        }
    }
}

impl Store for MemStore {
    ghost use Rattle.cov_base.specs.MemStore.{files_of, counts_of, plan_of};

    ghost files = { files_of };

    ghost counts = { counts_of };

    fn read(&mut self, name: &str, max: usize, into: &mut List<u8>) -> Result<(), StoreFault>
        // What each store promises, repeated since a method with clauses of its own shows these
        // alone.
        ensures ok { OnOk result (Reads (files_of self.old) name.now max into.old into.new) }
        ensures err { OnErr result (into.new ≡ into.old) }
        ensures missing { IsErrOf result StoreFault.Missing → Lacks (files_of self.old) name.now }
        ensures files { files_of self.new ≡ files_of self.old }
        ensures ok_counts { OnOk result (counts_of self.new ≡ counts_of self.old) }
        ensures missing_counts { IsErrOf result StoreFault.Missing →
            OnlyMissingRose (counts_of self.old) (counts_of self.new) }
        ensures failed_counts { IsErrOf result StoreFault.Failed →
            OnlyReadsRose (counts_of self.old) (counts_of self.new) }
        ensures memory_counts { IsErrOf result StoreFault.Memory →
            counts_of self.new ≡ counts_of self.old }
        ensures never_fall { NeverFall (counts_of self.old) (counts_of self.new) }

        // Beside it: which calls fail, and that a file that is not there is missing.
        ensures absent { Lacks (files_of self.old) name.now → ¬ FailsNext (plan_of self.old) →
            IsErrOf result StoreFault.Missing }
        ensures fails { IsErrOf result StoreFault.Failed ↔ FailsNext (plan_of self.old) }
        ensures plan { plan_of self.new ≡ after_call (plan_of self.old) }
    {
        if self.plan.fails() {
            self.reads = one_more(self.reads);
            return Err(StoreFault::Failed);
        }
        let Some(text) = self.files.get(name) else {
            self.missing = one_more(self.missing);
            return Err(StoreFault::Missing);
        };
        into.extend_from_slice(first(text.bytes(), max))?;
        Ok(())
    }

    fn write(&mut self, name: &str, bytes: &[u8]) -> Result<(), StoreFault>
        // What each store promises, repeated since a method with clauses of its own shows these
        // alone.
        ensures ok { OnOk result
            (BothTold (files_of self.old) (files_of self.new) (Writes name.now bytes.now)) }
        ensures failed { IsErrOf result StoreFault.Failed →
            BothTold (files_of self.old) (files_of self.new) (KeepsOthers name.now) }
        ensures memory { IsErrOf result StoreFault.Memory → files_of self.new ≡ files_of self.old }
        ensures never_missing { IsErrOf result StoreFault.Missing → ⊥ }
        ensures ok_counts { OnOk result (counts_of self.new ≡ counts_of self.old) }
        ensures failed_counts { IsErrOf result StoreFault.Failed →
            OnlyWritesRose (counts_of self.old) (counts_of self.new) }
        ensures memory_counts { IsErrOf result StoreFault.Memory →
            counts_of self.new ≡ counts_of self.old }
        ensures never_fall { NeverFall (counts_of self.old) (counts_of self.new) }

        // Beside it: which calls fail, and that a refusal changes no file.
        ensures unchanged { OnErr result (files_of self.new ≡ files_of self.old) }
        ensures fails { IsErrOf result StoreFault.Failed ↔ FailsNext (plan_of self.old) }
        ensures plan { plan_of self.new ≡ after_call (plan_of self.old) }
    {
        if self.plan.fails() {
            self.writes = one_more(self.writes);
            return Err(StoreFault::Failed);
        }
        let key = String::from_str(self.alloc, name)?;
        let text = Text::from_bytes(self.alloc, bytes)?;
        match self.files.insert(key, text) {
            Ok(_) => Ok(()),
            Err(_) => Err(StoreFault::Memory),
        }
    }
}

/// The first `max + 1` bytes, or all.
fn first(bytes: &[u8], max: usize) -> &[u8]
    ensures { result.now ≡ take (max + 1) bytes.now }
{
    if max < bytes.len() {
        &bytes[..max + 1]
    } else {
        bytes
    }
}
