ghost use Rattle.std.specs.Prelude.{◌≡◌, ◌≢◌, [], drop, IfOk, IfErr, IsErr, Ok};
ghost use Rattle.std.specs.Vec.Iter.{into_iter_items};
ghost use Rattle.std.specs.IoError.{error_kind};

use cov_base::{List, Memory};
use std::alloc::Global;
use std::env::Args;
use std::io::{self, ErrorKind};

/// The words behind the program's own name. Where they are not text there are none: they are then
/// no command, as no words are. Answers `Memory` for want of it. The cost is linear in the number
/// of words.
pub(crate) fn words_of(alloc: Global, args: io::Result<Args>) -> Result<List<String>, Memory>
    ensures words { IfOk args (λ args.
        IfOk result (λ words. words ≡ drop 1 (into_iter_items args))) }
    ensures no_text { IfErr args (λ error. error_kind error ≢ ErrorKind.OutOfMemory →
        result ≡ Ok []) }
    ensures memory { IfErr args (λ error. error_kind error ≡ ErrorKind.OutOfMemory → IsErr result) }
{
    match args {
        Ok(args) => behind_name(alloc, args),
        Err(error) => match error.kind() {
            ErrorKind::OutOfMemory => Err(Memory),
            _ => Ok(List::new(alloc)),
        },
    }
}

/// All but the first, which is the program's own name.
fn behind_name(alloc: Global, mut args: Args) -> Result<List<String>, Memory>
    ensures { IfOk result (λ words. words ≡ drop 1 (into_iter_items args)) }
{
    let mut words = List::new(alloc);
    let _name = args.next();
    while let Some(word) = args.next() {
        if words.push(word).is_err() {
            return Err(Memory);
        }
    }
    Ok(words)
}
