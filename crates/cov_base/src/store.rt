ghost use Rattle.std.specs.Prelude.{◌≡◌, OnOk, OnErr, IsErrOf, Option};
ghost use Rattle.cov_base.specs.Files.{Files, Counts, Reads, Lacks, Writes, KeepsOthers, BothTold, NeverFall, OnlyMissingRose, OnlyReadsRose, OnlyWritesRose};

use crate::list::List;
use crate::memory::Memory;
use std::alloc::AllocError;
use thiserror::Error;

/// Why a store refuses.
#[derive(Clone, Copy, Debug, PartialEq, Eq, Error)]
pub enum StoreFault {
    /// It has no file of this name.
    #[error("there is no such file")]
    Missing,
    /// It could not read or write.
    #[error("the store failed")]
    Failed,
    /// There was too little memory.
    #[error("out of memory")]
    Memory,
}

impl From<Memory> for StoreFault {
    ghost use Rattle.cov_base.specs.declared.store.StoreFault.{StoreFault};

    ghost from_gives = { λ _ fault. fault ≡ StoreFault.Memory };

    fn from(_memory: Memory) -> StoreFault {
        StoreFault::Memory
    }
}

impl From<AllocError> for StoreFault {
    ghost use Rattle.cov_base.specs.declared.store.StoreFault.{StoreFault};

    ghost from_gives = { λ _ fault. fault ≡ StoreFault.Memory };

    fn from(_error: AllocError) -> StoreFault {
        StoreFault::Memory
    }
}

/// Files, each a row of bytes under a name.
pub trait Store {
    /// The files, where the store tells them: it does so always or never.
    ghost files: { Self → Option Files };

    /// How often a file was missing, a read failed and a write failed, each up to 2^64 - 1.
    ghost counts: { Self → Counts };

    /// Adds the first `max + 1` bytes of a file to `into`, or all where it has no more: a caller
    /// that takes at most `max` bytes then sees that there are too many. Answers `Missing` where
    /// there is no such file, `Failed` where it cannot be read, and `Memory`, at any time, for want
    /// of it. The cost is linear in the bytes that are added.
    fn read(&mut self, name: &str, max: usize, into: &mut List<u8>) -> Result<(), StoreFault>
        ensures ok { OnOk result (Reads (files self.old) name.now max into.old into.new) }
        ensures err { OnErr result (into.new ≡ into.old) }
        ensures missing { IsErrOf result StoreFault.Missing → Lacks (files self.old) name.now }
        ensures files { files self.new ≡ files self.old }

        // A call raises the count of its own answer, and no other.
        ensures ok_counts { OnOk result (counts self.new ≡ counts self.old) }
        ensures missing_counts { IsErrOf result StoreFault.Missing →
            OnlyMissingRose (counts self.old) (counts self.new) }
        ensures failed_counts { IsErrOf result StoreFault.Failed →
            OnlyReadsRose (counts self.old) (counts self.new) }
        ensures memory_counts { IsErrOf result StoreFault.Memory →
            counts self.new ≡ counts self.old }
        ensures never_fall { NeverFall (counts self.old) (counts self.new) };

    /// Makes a file hold these bytes, in the place of those that it held. Answers `Failed` where it
    /// cannot be written, and what this one file holds is then open; and `Memory`, at any time, for
    /// want of it. The cost is linear in the bytes.
    fn write(&mut self, name: &str, bytes: &[u8]) -> Result<(), StoreFault>
        ensures ok { OnOk result
            (BothTold (files self.old) (files self.new) (Writes name.now bytes.now)) }
        ensures failed { IsErrOf result StoreFault.Failed →
            BothTold (files self.old) (files self.new) (KeepsOthers name.now) }
        ensures memory { IsErrOf result StoreFault.Memory → files self.new ≡ files self.old }
        ensures never_missing { IsErrOf result StoreFault.Missing → ⊥ }

        // A call raises the count of its own answer, and no other.
        ensures ok_counts { OnOk result (counts self.new ≡ counts self.old) }
        ensures failed_counts { IsErrOf result StoreFault.Failed →
            OnlyWritesRose (counts self.old) (counts self.new) }
        ensures memory_counts { IsErrOf result StoreFault.Memory →
            counts self.new ≡ counts self.old }
        ensures never_fall { NeverFall (counts self.old) (counts self.new) };
}
