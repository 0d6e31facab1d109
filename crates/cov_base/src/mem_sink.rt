ghost use Rattle.std.specs.Prelude.{◌≡◌, ◌≤◌, ◌<◌, ◌⊎◌, ◌↔◌, [], IfOk, OnOk, OnErr, IsErr, take, length, min, vec_len, vec_capacity};
ghost use Rattle.cov_base.specs.Files.{Rose};
ghost use Rattle.cov_base.specs.Bytes.{Appends, SameTold};
ghost use Rattle.cov_base.specs.Plans.{FailsNext, after_call};

use crate::count::one_more;
use crate::list::List;
use crate::memory::Memory;
use crate::plan::CallPlan;
use crate::sink::{Sink, SinkFailed};
use std::alloc::Global;

/// The greatest number of bytes that a `MemSink` holds: 16 MiB.
const ROOM: usize = 0x100_0000;

/// A sink in memory, which tells its bytes. It fails the puts that it is told to fail, and each put
/// once it holds 16 MiB. A put of an empty piece is not counted.
#[derive(Drop)]
pub struct MemSink {
    bytes: Vec<u8>,
    chunk: usize,
    plan: CallPlan,
    faults: u64,
    ghost fits: { vec_len bytes ≤ 0x100_0000 },
    ghost roomy: { 0x100_0000 ≤ vec_capacity bytes },
    ghost chunked: { 1 ≤ chunk },
}

impl MemSink {
    ghost use Rattle.cov_base.specs.MemSink.{written_of, faults_of, chunk_of, plan_of};

    /// An empty sink that takes at most `chunk` bytes in one put, and fails the puts of these
    /// numbers, from 0; from 2^32 - 1 on the number stays. All its memory, 16 MiB, is taken here,
    /// or the answer is `Memory`; a put takes none.
    pub fn new(alloc: Global, chunk: usize, failing: List<u32>) -> Result<MemSink, Memory>
        requires { 1 ≤ chunk }
        ensures written { IfOk result (λ sink. written_of sink ≡ Some []) }
        ensures faults { IfOk result (λ sink. faults_of sink ≡ 0) }
        ensures chunk { IfOk result (λ sink. chunk_of sink ≡ chunk) }
        ensures plan { IfOk result (λ sink. plan_of sink ≡ record { failing = failing; next = 0 }) }
    {
        Ok(MemSink {
            bytes: Vec::with_capacity(alloc, ROOM)?,
            chunk,
            plan: CallPlan::new(failing),
            faults: 0,
        })
    }

    /// The bytes that it took so far, in constant time.
    pub fn written(&self) -> &[u8]
        ensures { written_of self.now ≡ Some result.now }
    {
        self.bytes.as_slice()
    }
}

impl Sink for MemSink {
    ghost use Rattle.cov_base.specs.MemSink.{written_of, faults_of, chunk_of, room_of, plan_of};

    ghost written = { written_of };

    ghost faults = { faults_of };

    fn put(&mut self, piece: &[u8]) -> Result<usize, SinkFailed>
        // What each sink promises, repeated since a method with clauses of its own shows these
        // alone.
        ensures empty { piece.now ≡ [] → result ≡ Ok 0 }
        ensures some { IfOk result (λ n. 0 < length piece.now → 0 < n) }
        ensures within { IfOk result (λ n. n ≤ length piece.now) }
        ensures written { IfOk result
            (λ n. Appends (written_of self.old) (take n piece.now) (written_of self.new)) }
        ensures kept { OnErr result (written_of self.new ≡ written_of self.old) }
        ensures told { SameTold (written_of self.old) (written_of self.new) }
        ensures well { OnOk result (faults_of self.new ≡ faults_of self.old) }
        ensures failed { OnErr result (Rose (faults_of self.old) (faults_of self.new)) }
        ensures never_fall { faults_of self.old ≤ faults_of self.new }

        // Beside it: which puts fail, and how much the others take.
        ensures fails { IsErr result ↔
            (0 < length piece.now) × (FailsNext (plan_of self.old) ⊎ (room_of self.old ≡ 0)) }
        ensures takes { IfOk result
            (λ n. n ≡ min (length piece.now) (min (chunk_of self.old) (room_of self.old))) }
        ensures chunk { chunk_of self.new ≡ chunk_of self.old }
        ensures plan_at_empty { piece.now ≡ [] → plan_of self.new ≡ plan_of self.old }
        ensures plan { 0 < length piece.now → plan_of self.new ≡ after_call (plan_of self.old) }
    {
        if piece.is_empty() {
            return Ok(0);
        }
        let planned = self.plan.fails();
        let room = ROOM - self.bytes.len();
        let n = piece.len().min(self.chunk).min(room);
        if planned || n == 0 {
            self.faults = one_more(self.faults);
            return Err(SinkFailed);
        }
        match self.bytes.extend_from_slice(&piece[..n]) {
            Ok(()) => Ok(n),
            Err(_) => unreachable!(),
        }
    }
}
