ghost use Rattle.std.specs.Prelude.{◌≡◌, ◌≤◌, None, length, take, IfOk, OnErr};
ghost use Rattle.std.specs.Io.KnownBytes.{Appends, Keeps};

use crate::count::one_more;
use cov_base::{Sink, SinkFailed};
use std::io::{self, ErrorKind, Write};

/// A writer that keeps nothing back, as standard output is: what it takes is out when the put ends,
/// so nothing is flushed.
///
/// This is the trusted edge: it tells nothing of what it took. That the bytes get to a reader is
/// not proved.
#[derive(Drop)]
pub(crate) struct StdSink<W: Write + Drop> {
    out: W,
    faults: u64,
}

impl<W: Write + Drop> StdSink<W> {
    /// The sink over this writer, with no fault counted so far. Constant time.
    pub(crate) fn new(out: W) -> StdSink<W>
        ensures { result ≡ record { out = out; faults = 0 } }
    {
        StdSink { out, faults: 0 }
    }

    /// How often a put failed. Constant time.
    #[cfg(test)]
    pub(crate) fn faults(&self) -> u64
        ensures { result ≡ self.now.faults }
    {
        self.faults
    }
}

/// Writes some bytes from the front of a piece, and answers how many. An interrupted write is tried
/// again.
fn write_some<W: Write>(out: &mut W, piece: &[u8]) -> io::Result<usize>
    ensures within { IfOk result (λ n. n ≤ length piece.now) }
    ensures written { IfOk result
        (λ n. Appends (W.contents out.old) (W.contents out.new) (take n piece.now)) }
    ensures kept { OnErr result (Keeps (W.contents out.old) (W.contents out.new)) }
{
    for _ in 0..u64::MAX {
        match out.write(piece) {
            Err(error) if error.kind() == ErrorKind::Interrupted => {}
            answer => return answer,
        }
    }
    Err(ErrorKind::Interrupted.into())
}

impl<W: Write + Drop> Sink for StdSink<W> {
    ghost written = { λ s. None };

    ghost faults = { λ s. s.faults };

    fn put(&mut self, piece: &[u8]) -> Result<usize, SinkFailed> {
        if piece.is_empty() {
            return Ok(0);
        }
        match write_some(&mut self.out, piece) {
            Ok(taken) if taken > 0 => Ok(taken),
            _ => {
                self.faults = one_more(self.faults);
                Err(SinkFailed)
            }
        }
    }
}
