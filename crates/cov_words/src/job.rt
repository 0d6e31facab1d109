ghost use Rattle.std.specs.Prelude.{◌≡◌, ◌≤◌, None, Some, IfNone, IfSome, IfOk, IfErr};
ghost use Rattle.cov_words.specs.Jobs.{rows_in, text_in as text_within, number_within, number_in as number_among, is_set as is_given, most_number as most_of, job_of as job_among, asked};

use crate::limits::{
    DEFAULT_BUDGET, DEFAULT_K, DEFAULT_LENGTH, DEFAULT_WIDTH, LEAST_K, LEAST_LENGTH, LEAST_NUMBER,
    LEAST_WIDTH, MOST_BUDGET, MOST_K, MOST_LENGTH, MOST_OBLIGATION, MOST_SIZE, MOST_WIDTH,
};
use clap::ArgMatches;

/// A command.
#[derive(Clone, Copy, Debug, PartialEq, Eq)]
pub enum Verb {
    /// `run SOURCE SUITE`
    Run,
    /// `score SOURCE SUITE`
    Score,
    /// `session SOURCE SUITE SCRIPT`
    Session,
    /// `generate SOURCE SUITE`
    Generate,
    /// `verify CNF PROOF`
    Verify,
    /// `certify SOURCE OBLIGATION K PROOF`
    Certify,
    /// `make N`
    Make,
}

/// What a command line asks for. A number that isn't given, also one that the command doesn't take,
/// has its default.
#[derive(Clone, Copy, Debug, PartialEq, Eq)]
pub struct Job<'a> {
    /// The command: the first word.
    pub verb: Verb,
    /// The first positional argument that is no number: SOURCE, or CNF for `verify`; the empty text
    /// for `make`, which has none.
    pub first: &'a str,
    /// The second one: SUITE, or PROOF for `verify` and `certify`; else the empty text.
    pub second: &'a str,
    /// The third one: SCRIPT for `session`; else the empty text.
    pub third: &'a str,
    /// The fourth one, which no command has: the empty text.
    pub fourth: &'a str,
    /// The obligation that `certify` is asked for, from 1, or the size of what `make` makes, 1 to
    /// 1000; 0 for the other commands.
    pub number: u32,
    /// The name of the main node; without it the last node is main.
    pub main: Option<&'a str>,
    /// The bits of a word, 2 to 32.
    pub width: u32,
    /// The most edges of a path, 1 to 64.
    pub length: u32,
    /// The most instants of a sequence that is searched for, 1 to 32.
    pub k: u32,
    /// The most clauses that a search may learn, up to 100,000.
    pub budget: u64,
    /// The folder for what is written, whose name isn't empty.
    pub out: Option<&'a str>,
    /// Whether the score is to be printed as JSON.
    pub json: bool,
}

/// The text of an argument, or the empty text.
#[tactic(auto, using(crate::proofs::Found::first_value_is))]
fn text_in<'a>(matches: &ArgMatches<'a>, id: &str) -> &'a str
    ensures { result.now ≡ text_within (rows_in matches.now) id.now }
{
    match matches.get_str(id) {
        Some(text) => text,
        None => "",
    }
}

/// The number that a text names, if it lies in a range.
#[tactic(auto, using(crate::proofs::Numbers::inside, crate::proofs::Numbers::below, crate::proofs::Numbers::above, crate::proofs::Numbers::no_number))]
fn number_of(text: &str, least: u32, most: u32) -> Option<u32>
    ensures { result ≡ number_within least most text.now }
{
    match text.parse::<u32>() {
        Ok(number) => {
            if number < least {
                return None;
            }
            if number > most {
                return None;
            }
            Some(number)
        }
        Err(_) => None,
    }
}

/// The number of an argument, or its default where it isn't given, if it lies in a range.
#[tactic(auto, using(crate::proofs::Found::first_value_is))]
fn number_in(matches: &ArgMatches<'_>, id: &str, least: u32, most: u32, default: u32) -> Option<u32>
    ensures { result ≡ number_among (rows_in matches.now) id.now least most default }
{
    match matches.get_str(id) {
        Some(text) => number_of(text, least, most),
        None => Some(default),
    }
}

/// Whether a flag was given.
#[tactic(auto, using(crate::proofs::Found::first_value_is))]
fn is_set(matches: &ArgMatches<'_>, id: &str) -> bool
    ensures { result ≡ is_given (rows_in matches.now) id.now }
{
    match matches.get_str(id) {
        Some(text) => text == "true",
        None => false,
    }
}

/// The most that OBLIGATION or N may be.
fn most_number(verb: Verb) -> u32
    ensures { result ≡ most_of verb }
{
    match verb {
        Verb::Make => MOST_SIZE,
        Verb::Run | Verb::Score | Verb::Session | Verb::Generate | Verb::Verify | Verb::Certify => {
            MOST_OBLIGATION
        }
    }
}

/// The job that matches give to a command, if each number lies in its range.
#[tactic(auto, using(crate::proofs::Found::first_value_is))]
pub(crate) fn job_of<'a>(verb: Verb, matches: &ArgMatches<'a>) -> Option<Job<'a>>
    ensures some { IfSome result (λ job. job_among verb (rows_in matches.now) ≡ Some (asked job)) }
    ensures none { IfNone result (job_among verb (rows_in matches.now) ≡ None) }
{
    let number = number_in(matches, "number", LEAST_NUMBER, most_number(verb), 0)?;
    let width = number_in(matches, "width", LEAST_WIDTH, MOST_WIDTH, DEFAULT_WIDTH)?;
    let length = number_in(matches, "length", LEAST_LENGTH, MOST_LENGTH, DEFAULT_LENGTH)?;
    let k = number_in(matches, "k", LEAST_K, MOST_K, DEFAULT_K)?;
    let budget = number_in(matches, "budget", 0, MOST_BUDGET, DEFAULT_BUDGET)?;
    Some(Job {
        verb,
        first: text_in(matches, "first"),
        second: text_in(matches, "second"),
        third: text_in(matches, "third"),
        fourth: "",
        number,
        main: matches.get_str("main"),
        width,
        length,
        k,
        budget: u64::from(budget),
        out: matches.get_str("out"),
        json: is_set(matches, "json"),
    })
}
