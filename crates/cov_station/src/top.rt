ghost use Rattle.std.specs.Prelude.{◌≤◌, map, string_bytes};
ghost use Rattle.cov_base.specs.Bytes.{SameTold};
ghost use Rattle.cov_station.specs.Commands.{station};
ghost use Rattle.cov_station.specs.Outcomes.{Ends, IsDue, IsPut, Keeps, outside};

use crate::commands::answer;
use crate::status::Status;
use cov_base::{Sink, Store, put_all};
use std::alloc::Global;

/// Puts a text, and answers the status that is then due, or that it could not be put.
fn finish<O: Sink>(out: &mut O, text: &[u8], due: Status) -> Status
    ensures put { IsPut (O.written out.old) (O.written out.new)
        (O.faults out.old) (O.faults out.new) text.now due result }
    ensures told { SameTold (O.written out.old) (O.written out.new) }
    ensures never_fall { O.faults out.old ≤ O.faults out.new }
{
    match put_all(out, text) {
        Ok(()) => due,
        Err(_) => Status::WriteFault,
    }
}

/// Does the command that the arguments ask for, over the files of a store, and puts its text; or
/// puts the line of its first refusal. The arguments don't begin with the program's name.
///
/// The command's text is made whole before any of it is put. For want of memory the answer is
/// `Memory`, at any time, and nothing is put. The cost is that of the command's steps.
pub fn station<S: Store, O: Sink>(
    alloc: Global,
    args: &[String],
    store: &mut S,
    out: &mut O,
) -> Status
    // The command ends with its answer, and puts its text or the line of its first refusal, unless
    // the put breaks off or memory is short.
    ensures ends { Ends (station (map string_bytes args.now) (S.files store.old))
        (outside (S.files store.old) (S.counts store.old) (O.written out.old) (O.faults out.old))
        (outside (S.files store.new) (S.counts store.new) (O.written out.new) (O.faults out.new))
        result }

    // Where the store tells its files, what is due comes, unless a read or a put fails or memory is
    // short.
    ensures due { IsDue (station (map string_bytes args.now)) (S.files store.old) result }

    // At every status all files are as before, no count falls, and the sink tells its bytes just if
    // it did before.
    ensures keeps { Keeps
        (outside (S.files store.old) (S.counts store.old) (O.written out.old) (O.faults out.old))
        (outside (S.files store.new) (S.counts store.new) (O.written out.new) (O.faults out.new)) }
{
    match answer(alloc, args, store) {
        Ok(text) => finish(out, text.as_slice(), Status::Done),
        Err(why) => match why.line(alloc) {
            Ok(line) => finish(out, line.as_slice(), why.status()),
            Err(_) => Status::Memory,
        },
    }
}
