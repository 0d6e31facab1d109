ghost use Rattle.std.specs.Prelude.{◌≡◌, ◌↔◌, ◌+◌, ◌≤◌, None, length, take, IfOk, IfSome};

use crate::count::one_more;
use cov_base::{List, Store, StoreFault};
use std::alloc::Global;
use std::fs;
use std::io::{self, ErrorKind, Read, Write};
use std::rt::Files;

/// The files of the system, under their paths: one that does not begin with `/` begins at the
/// current folder. It makes no folder.
///
/// This is the trusted edge: it tells nothing of what the files hold. That a file of the system
/// holds what was written to it, and that a read gives what it holds, is not proved.
#[derive(Drop)]
pub(crate) struct DirStore<R: Files + Drop> {
    rt: R,
    alloc: Global,
    missing: u64,
    reads: u64,
    writes: u64,
}

impl<R: Files + Drop> DirStore<R> {
    /// The files of this runtime, with no fault counted so far. Constant time.
    pub(crate) fn new(rt: R, alloc: Global) -> DirStore<R>
        ensures missing { result.missing ≡ 0 }
        ensures reads { result.reads ≡ 0 }
        ensures writes { result.writes ≡ 0 }
    {
        DirStore {
            rt,
            alloc,
            missing: 0,
            reads: 0,
            writes: 0,
        }
    }

    /// How often a file was missing, a read failed and a write failed. Constant time.
    #[cfg(test)]
    pub(crate) fn counts(&self) -> (u64, u64, u64)
        ensures { result ≡ (self.now.missing, self.now.reads, self.now.writes) }
    {
        (self.missing, self.reads, self.writes)
    }

    /// The same files, with each count at the greatest number.
    #[cfg(test)]
    pub(crate) fn with_full_counts(self) -> DirStore<R> {
        let DirStore { rt, alloc, .. } = self;
        DirStore {
            rt,
            alloc,
            missing: u64::MAX,
            reads: u64::MAX,
            writes: u64::MAX,
        }
    }

    fn read_file(&self, name: &str, max: usize) -> Result<List<u8>, StoreFault>
        ensures { IfOk result (λ bytes. length bytes ≤ max + 1) }
    {
        match fs::open(&self.rt, name) {
            Ok(file) => match read_first(self.alloc, file, max) {
                Ok(bytes) => Ok(bytes),
                Err(error) => Err(read_fault(error.kind())),
            },
            Err(error) => Err(read_fault(error.kind())),
        }
    }

    /// Makes a new file, or empties the one that is there, and writes the bytes. It answers
    /// `Memory` only where the file is as before.
    fn write_file(&self, name: &str, bytes: &[u8]) -> Result<(), StoreFault> {
        match fs::create(&self.rt, name) {
            Ok(mut file) => match file.write_all(bytes) {
                Ok(()) => Ok(()),
                Err(_) => Err(StoreFault::Failed),
            },
            Err(error) => match error.kind() {
                ErrorKind::OutOfMemory => Err(StoreFault::Memory),
                _ => Err(StoreFault::Failed),
            },
        }
    }
}

/// The first `max + 1` bytes that a reader gives, or all where it has no more. An interrupted read
/// is tried again.
pub(crate) fn read_first<F: Read + Drop>(alloc: Global, file: F, max: usize) -> io::Result<List<u8>>
    ensures within { IfOk result (λ bytes. length bytes ≤ max + 1) }
    ensures first { IfOk result
        (λ bytes. IfSome (F.remaining file) (λ left. bytes ≡ take (max + 1) left)) }
{
    let limit = max.saturating_add(1);
    let mut bytes = Vec::new(alloc);
    file.take(limit as u64).read_to_end(&mut bytes)?;
    // Nothing else bounds what comes from a reader that does not tell its bytes.
    bytes.truncate(limit);
    Ok(List::from_vec(bytes))
}

/// What the store answers where a read fails like this: only a file that was not found is missing.
fn read_fault(kind: ErrorKind) -> StoreFault
    ensures missing { result ≡ StoreFault.Missing ↔ kind ≡ ErrorKind.NotFound }
    ensures memory { result ≡ StoreFault.Memory ↔ kind ≡ ErrorKind.OutOfMemory }
{
    match kind {
        ErrorKind::NotFound => StoreFault::Missing,
        ErrorKind::OutOfMemory => StoreFault::Memory,
        _ => StoreFault::Failed,
    }
}

impl<R: Files + Drop> Store for DirStore<R> {
    ghost files = { λ s. None };

    ghost counts = { λ s. record { missing = s.missing; reads = s.reads; writes = s.writes } };

    fn read(&mut self, name: &str, max: usize, into: &mut List<u8>) -> Result<(), StoreFault> {
        match self.read_file(name, max) {
            Ok(bytes) => match into.extend_from_slice(bytes.as_slice()) {
                Ok(()) => Ok(()),
                Err(_) => Err(StoreFault::Memory),
            },
            Err(StoreFault::Missing) => {
                self.missing = one_more(self.missing);
                Err(StoreFault::Missing)
            }
            Err(StoreFault::Failed) => {
                self.reads = one_more(self.reads);
                Err(StoreFault::Failed)
            }
            Err(StoreFault::Memory) => Err(StoreFault::Memory),
        }
    }

    fn write(&mut self, name: &str, bytes: &[u8]) -> Result<(), StoreFault> {
        match self.write_file(name, bytes) {
            Ok(()) => Ok(()),
            Err(StoreFault::Memory) => Err(StoreFault::Memory),
            Err(_) => {
                self.writes = one_more(self.writes);
                Err(StoreFault::Failed)
            }
        }
    }
}
