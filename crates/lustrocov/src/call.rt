ghost use Rattle.std.specs.Prelude.{◌≡◌, [], drop, map, string_bytes, IfOk, IfErr};
ghost use Rattle.std.specs.Process.{exit_status};
ghost use Rattle.std.specs.Vec.Iter.{into_iter_items};
ghost use Rattle.cov_station.specs.Codes.{code_of};
ghost use Rattle.cov_station.specs.Outcomes.{outside};
ghost use Rattle.lustrocov.specs.Calls.{IsCall};

use crate::words::words_of;
use cov_base::{Sink, Store};
use cov_station::{Status, station};
use std::alloc::Global;
use std::env::Args;
use std::io;
use std::process::ExitCode;

/// How the program ends.
fn end(status: Status) -> ExitCode
    ensures { exit_status result ≡ code_of status }
{
    ExitCode::from(status.code())
}

/// Does what the words behind the program's own name ask for, over the files of a store, and ends
/// with the number of the station's status. Words that are not text are as none.
pub(crate) fn call_station<S: Store, O: Sink>(
    alloc: Global,
    args: io::Result<Args>,
    store: &mut S,
    out: &mut O,
) -> ExitCode
    ensures words { IfOk args (λ args. IsCall (map string_bytes (drop 1 (into_iter_items args)))
        (outside (S.files store.old) (S.counts store.old) (O.written out.old) (O.faults out.old))
        (outside (S.files store.new) (S.counts store.new) (O.written out.new) (O.faults out.new))
        (exit_status result)) }
    ensures no_text { IfErr args (λ error. IsCall []
        (outside (S.files store.old) (S.counts store.old) (O.written out.old) (O.faults out.old))
        (outside (S.files store.new) (S.counts store.new) (O.written out.new) (O.faults out.new))
        (exit_status result)) }
{
    match words_of(alloc, args) {
        Ok(words) => end(station(alloc, words.as_slice(), store, out)),
        Err(_) => end(Status::Memory),
    }
}
