ghost use Rattle.std.specs.Prelude.{◌≡◌, true, map, string_bytes, IfOk};
ghost use Rattle.cov_words.specs.Jobs.{IsInRange, asked};
ghost use Rattle.cov_station.specs.Steps.{Does};
ghost use Rattle.cov_station.specs.Views.{IsJobOf};
ghost use Rattle.cov_station.specs.Words.{Asks, is_served};

use crate::refusal::Refusal;
use cov_words::{Job, Verb, WordsFault, read_words};
use std::alloc::Global;

/// Whether a command is done as yet.
fn is_served(verb: Verb) -> bool
    ensures { result ≡ is_served verb }
{
    match verb {
        Verb::Run | Verb::Score | Verb::Verify => true,
        Verb::Session | Verb::Generate | Verb::Certify | Verb::Make => false,
    }
}

/// The job that the arguments name, if it is done as yet.
pub(crate) fn job_of<'a>(alloc: Global, args: &'a [String]) -> Result<Job<'a>, Refusal>
    ensures answer { Does (Asks (map string_bytes args.now)) IsJobOf result }
    ensures served { IfOk result (λ job. is_served job.verb ≡ true) }
    ensures ranges { IfOk result (λ job. IsInRange (asked job)) }
{
    match read_words(alloc, args) {
        Ok(job) => {
            if is_served(job.verb) {
                Ok(job)
            } else {
                Err(Refusal::Usage)
            }
        }
        Err(WordsFault::Usage) => Err(Refusal::Usage),
        Err(WordsFault::Memory) => Err(Refusal::Memory),
    }
}
