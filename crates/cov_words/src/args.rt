ghost use Rattle.std.specs.Prelude.{◌≡◌, ◌≢◌, ◌⊎◌, map, string_bytes, true, false, None, Some, IfOk, OnOk, IsErrOf};
ghost use Rattle.clap.specs.Words.{kind_of};
ghost use Rattle.clap.specs.declared.error.kind.ErrorKind.TheVariants as kind;
ghost use Rattle.cov_words.specs.Jobs.{IsInRange, rows_in, asked, meaning, is_taken, matches as matches_of};

use crate::commands::{command, verb_of};
use crate::job::{Job, Verb, job_of};
use clap::error::ErrorKind;
use clap::{ArgMatches, Error};
use std::alloc::Global;

/// Why a command line names no job.
#[derive(Clone, Copy, Debug, PartialEq, Eq)]
pub enum WordsFault {
    /// It is empty, its first word is no command, or the others aren't what that command takes.
    Usage,
    /// There was too little memory.
    Memory,
}

/// Whether a command line was refused, or memory was short.
fn fault_of(error: &Error) -> WordsFault
    ensures { (result ≡ WordsFault.Memory) ⊎ (kind_of error.now ≢ kind.OutOfMemory) }
{
    if error.kind() == ErrorKind::OutOfMemory {
        WordsFault::Memory
    } else {
        WordsFault::Usage
    }
}

/// What `clap` finds in the command line of a command.
fn parse<'a>(alloc: Global, verb: Verb, args: &'a [String]) -> Result<ArgMatches<'a>, WordsFault>
    ensures taken { OnOk result (is_taken verb (map string_bytes args.now) ≡ true) }
    ensures ok { IfOk result (λ m. rows_in m ≡ matches_of verb (map string_bytes args.now)) }
    ensures usage { IsErrOf result WordsFault.Usage
        → is_taken verb (map string_bytes args.now) ≡ false }
{
    let Ok(command) = command(alloc, verb) else {
        return Err(WordsFault::Memory);
    };
    match command.try_get_matches_from(args) {
        Ok(matches) => Ok(matches),
        Err(error) => Err(fault_of(&error)),
    }
}

/// Reads a command line, without the name of the program: its first word is the command, byte by
/// byte, and the others are the files, numbers and options that `clap` reads for that command.
/// `Usage` comes exactly where the command line names no job, and `Memory`, at any time, for want
/// of it. The cost is that of `clap`.
pub fn read_words<'a>(alloc: Global, args: &'a [String]) -> Result<Job<'a>, WordsFault>
    ensures ok { IfOk result (λ job. meaning (map string_bytes args.now) ≡ Some (asked job)) }
    ensures ranges { IfOk result (λ job. IsInRange (asked job)) }
    ensures usage { IsErrOf result WordsFault.Usage → meaning (map string_bytes args.now) ≡ None }
{
    let Some(name) = args.first() else {
        return Err(WordsFault::Usage);
    };
    let Some(verb) = verb_of(name.as_str()) else {
        return Err(WordsFault::Usage);
    };
    let matches = parse(alloc, verb, args)?;
    match job_of(verb, &matches) {
        Some(job) => Ok(job),
        None => Err(WordsFault::Usage),
    }
}
