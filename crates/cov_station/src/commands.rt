ghost use Rattle.std.specs.Prelude.{◌≡◌, map, string_bytes};
ghost use Rattle.cov_base.specs.Files.{NeverFall};
ghost use Rattle.cov_station.specs.Chains.{Answers};
ghost use Rattle.cov_station.specs.Commands.{station};
ghost use Rattle.cov_station.specs.Files.{Counted};
ghost use Rattle.cov_station.specs.Steps.{Does, Same};

mod run;
mod score;
mod verify;

use crate::refusal::Refusal;
use crate::words::job_of;
use cov_base::{List, Store};
use cov_words::Verb;
use run::run_command;
use score::score_command;
use std::alloc::Global;
use verify::verify_command;

/// The text that the arguments ask for.
pub(crate) fn answer<S: Store>(
    alloc: Global,
    args: &[String],
    store: &mut S,
) -> Result<List<u8>, Refusal>
    ensures answer { Does
        (Answers (station (map string_bytes args.now) (S.files store.old))) Same result }
    ensures counts { Counted result (S.counts store.old) (S.counts store.new) }
    ensures never_fall { NeverFall (S.counts store.old) (S.counts store.new) }
    ensures files { S.files store.new ≡ S.files store.old }
{
    let job = job_of(alloc, args)?;
    let (first, second) = (job.first, job.second);
    match job.verb {
        Verb::Run => run_command(alloc, store, first, second, job.width, job.main),
        Verb::Score => {
            let (width, main, length) = (job.width, job.main, job.length);
            score_command(alloc, store, first, second, width, main, length, job.json)
        }
        Verb::Verify => verify_command(alloc, store, first, second),
        Verb::Session => unreachable!(),
        Verb::Generate => unreachable!(),
        Verb::Certify => unreachable!(),
        Verb::Make => unreachable!(),
    }
}
