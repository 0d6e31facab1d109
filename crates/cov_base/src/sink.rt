ghost use Rattle.std.specs.Prelude.{◌≡◌, ℕ, ◌<◌, ◌≤◌, [], List as Seq, Option, length, take, IfOk, OnOk, OnErr};
ghost use Rattle.cov_base.specs.Files.{Rose};
ghost use Rattle.cov_base.specs.Bytes.{Appends, BreaksOff, SameTold};

use thiserror::Error;

/// A sink took nothing.
#[derive(Clone, Copy, Debug, PartialEq, Eq, Error)]
#[error("the output failed")]
pub struct SinkFailed;

/// A place where bytes go.
pub trait Sink {
    /// The bytes that it took so far, where it tells them: it does so always or never.
    ghost written: { Self → Option (Seq ℕ) };

    /// How often it failed, up to 2^64 - 1.
    ghost faults: { Self → ℕ };

    /// Takes one or more bytes from the front of a piece, and answers how many; of an empty piece
    /// it takes 0. Answers `SinkFailed` where it cannot, and has then taken none. The cost is
    /// linear in the bytes that it takes.
    fn put(&mut self, piece: &[u8]) -> Result<usize, SinkFailed>
        ensures empty { piece.now ≡ [] → result ≡ Ok 0 }
        ensures some { IfOk result (λ n. 0 < length piece.now → 0 < n) }
        ensures within { IfOk result (λ n. n ≤ length piece.now) }
        ensures written { IfOk result
            (λ n. Appends (written self.old) (take n piece.now) (written self.new)) }
        ensures kept { OnErr result (written self.new ≡ written self.old) }
        ensures told { SameTold (written self.old) (written self.new) }

        ensures well { OnOk result (faults self.new ≡ faults self.old) }
        ensures failed { OnErr result (Rose (faults self.old) (faults self.new)) }
        ensures never_fall { faults self.old ≤ faults self.new };
}

/// Puts the whole piece, by at most as many puts as it has bytes. Answers `SinkFailed` where a put
/// fails, and a front of the piece is then put, but not all. The cost is that of the puts.
#[tactic(auto, using(crate::proofs::Puts::more_put))]
pub fn put_all<O: Sink>(out: &mut O, piece: &[u8]) -> Result<(), SinkFailed>
    ensures written { OnOk result (Appends (O.written out.old) piece.now (O.written out.new)) }
    ensures well { OnOk result (O.faults out.new ≡ O.faults out.old) }
    ensures failed { OnErr result (BreaksOff (O.written out.old) (O.written out.new)
        (O.faults out.old) (O.faults out.new) piece.now) }
    ensures told { SameTold (O.written out.old) (O.written out.new) }
    ensures never_fall { O.faults out.old ≤ O.faults out.new }
{
    let mut done = 0;
    while done < piece.len() {
        let (_, rest) = piece.split_at(done);
        done += out.put(rest)?;
    }
    Ok(())
}
