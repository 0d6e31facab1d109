//! The commands, each as `clap` parses it.
ghost use Rattle.std.specs.Prelude.{◌≡◌, ◌≤◌, ◌<◌, pos, false, codes, IfOk};
ghost use Rattle.clap.specs.Words.{app_of, rule_of, with_rule};
ghost use Rattle.cov_words.specs.Commands.{app as app_of_verb, bare as bare_app, with_rules, verb_of as verb_named, text as text_rule, numeral as numeral_rule, named_text as named_text_rule, named_some_text as named_some_text_rule, named_number as named_number_rule, named_wide_number as named_wide_number_rule, flag as flag_rule};
ghost use Rattle.clap.specs.declared.builder.value_parser.ValueParser.TheVariants as reader;
ghost use Rattle.cov_words.specs.Commands as the;
ghost use Rattle.cov_words.specs.declared.job.Verb.TheVariants as verb;

use crate::job::Verb;
use crate::limits::{
    LEAST_K, LEAST_LENGTH, LEAST_NUMBER, LEAST_WIDTH, MOST_BUDGET, MOST_K, MOST_LENGTH,
    MOST_OBLIGATION, MOST_SIZE, MOST_WIDTH,
};
use clap::builder::ValueParser;
use clap::{Arg, ArgAction, Command};
use std::alloc::{AllocError, Global};

/// A positional text.
fn text<'a>(alloc: Global, id: &'a str) -> Arg<'a>
    ensures rule { rule_of result ≡ text_rule id.entry.now }
    ensures local { result.global ≡ false }
{
    Arg::new(alloc, id).required(true)
}

/// `--NAME TEXT`.
fn named_text<'a>(alloc: Global, id: &'a str) -> Arg<'a>
    ensures rule { rule_of result ≡ named_text_rule id.entry.now }
    ensures local { result.global ≡ false }
{
    Arg::new(alloc, id).long(id)
}

/// `--NAME TEXT`, where the text isn't empty.
fn named_some_text<'a>(alloc: Global, id: &'a str) -> Arg<'a>
    ensures rule { rule_of result ≡ named_some_text_rule id.entry.now }
    ensures local { result.global ≡ false }
{
    Arg::new(alloc, id)
        .long(id)
        .value_parser(ValueParser::NonEmptyString)
}

/// `--NAME`.
fn flag<'a>(alloc: Global, id: &'a str) -> Arg<'a>
    ensures rule { rule_of result ≡ flag_rule id.entry.now }
    ensures local { result.global ≡ false }
{
    Arg::new(alloc, id).long(id).action(ArgAction::SetTrue)
}

/// The reader of numbers of 32 bits within a range.
fn within<'a>(least: u32, most: u32) -> ValueParser<'a>
    ensures { result ≡ reader.Signed (pos least) (pos most) }
{
    clap::value_parser!(u32).range(i64::from(least)..=i64::from(most))
}

/// The reader of numbers of 64 bits up to one.
fn wide_up_to<'a>(most: u32) -> ValueParser<'a>
    ensures { result ≡ reader.Unsigned 0 most }
{
    clap::value_parser!(u64).range(0..=i64::from(most))
}

/// A positional number of 32 bits within a range.
fn numeral<'a>(alloc: Global, id: &'a str, least: u32, most: u32) -> Arg<'a>
    ensures rule { rule_of result ≡ numeral_rule id.entry.now least most }
    ensures local { result.global ≡ false }
{
    Arg::new(alloc, id)
        .required(true)
        .value_parser(within(least, most))
}

/// `--NAME NUMBER`, with a number of 32 bits within a range.
fn named_number<'a>(alloc: Global, id: &'a str, least: u32, most: u32) -> Arg<'a>
    ensures rule { rule_of result ≡ named_number_rule id.entry.now least most }
    ensures local { result.global ≡ false }
{
    Arg::new(alloc, id)
        .long(id)
        .value_parser(within(least, most))
}

/// `--NAME NUMBER`, with a number of 64 bits up to one.
fn named_wide_number<'a>(alloc: Global, id: &'a str, most: u32) -> Arg<'a>
    ensures rule { rule_of result ≡ named_wide_number_rule id.entry.now most }
    ensures local { result.global ≡ false }
{
    Arg::new(alloc, id).long(id).value_parser(wide_up_to(most))
}

/// A command without help and version flags.
fn bare<'a>(alloc: Global, name: &'a str) -> Command<'a>
    ensures { app_of result ≡ bare_app name.entry.now }
{
    Command::new(alloc, name)
        .disable_help_flag(true)
        .disable_version_flag(true)
}

fn first<'a>(alloc: Global) -> Arg<'a>
    ensures rule { rule_of result ≡ the.first }
    ensures local { result.global ≡ false }
{
    text(alloc, "first")
}

fn second<'a>(alloc: Global) -> Arg<'a>
    ensures rule { rule_of result ≡ the.second }
    ensures local { result.global ≡ false }
{
    text(alloc, "second")
}

fn main<'a>(alloc: Global) -> Arg<'a>
    ensures rule { rule_of result ≡ the.main }
    ensures local { result.global ≡ false }
{
    named_text(alloc, "main")
}

fn width<'a>(alloc: Global) -> Arg<'a>
    ensures rule { rule_of result ≡ the.width }
    ensures local { result.global ≡ false }
{
    named_number(alloc, "width", LEAST_WIDTH, MOST_WIDTH)
}

fn most_edges<'a>(alloc: Global) -> Arg<'a>
    ensures rule { rule_of result ≡ the.most_edges }
    ensures local { result.global ≡ false }
{
    named_number(alloc, "length", LEAST_LENGTH, MOST_LENGTH)
}

fn most_instants<'a>(alloc: Global) -> Arg<'a>
    ensures rule { rule_of result ≡ the.most_instants }
    ensures local { result.global ≡ false }
{
    named_number(alloc, "k", LEAST_K, MOST_K)
}

fn budget<'a>(alloc: Global) -> Arg<'a>
    ensures rule { rule_of result ≡ the.budget }
    ensures local { result.global ≡ false }
{
    named_wide_number(alloc, "budget", MOST_BUDGET)
}

/// A command with two files.
fn of_files<'a>(alloc: Global, name: &'a str) -> Result<Command<'a>, AllocError>
    ensures { IfOk result (λ c. app_of c ≡ with_rules (bare_app name.entry.now) the.files) }
{
    bare(alloc, name).arg(first(alloc))?.arg(second(alloc))
}

/// Adds what a command that reads a source takes.
fn with_source<'a>(alloc: Global, command: Command<'a>) -> Result<Command<'a>, AllocError>
    ensures { IfOk result (λ c. app_of c ≡ with_rules (app_of command.entry) the.source_options) }
{
    command.arg(main(alloc))?.arg(width(alloc))
}

/// Adds what a command that searches takes.
fn with_search<'a>(alloc: Global, command: Command<'a>) -> Result<Command<'a>, AllocError>
    ensures { IfOk result (λ c. app_of c ≡ with_rules (app_of command.entry) the.search_options) }
{
    command.arg(most_instants(alloc))?.arg(budget(alloc))
}

fn run<'a>(alloc: Global) -> Result<Command<'a>, AllocError>
    ensures { IfOk result (λ c. app_of c ≡ app_of_verb verb.Run) }
{
    with_source(alloc, of_files(alloc, "run")?)
}

fn score<'a>(alloc: Global) -> Result<Command<'a>, AllocError>
    ensures { IfOk result (λ c. app_of c ≡ app_of_verb verb.Score) }
{
    with_source(alloc, of_files(alloc, "score")?)?
        .arg(most_edges(alloc))?
        .arg(flag(alloc, "json"))
}

fn session<'a>(alloc: Global) -> Result<Command<'a>, AllocError>
    ensures { IfOk result (λ c. app_of c ≡ app_of_verb verb.Session) }
{
    let files = of_files(alloc, "session")?.arg(text(alloc, "third"))?;
    with_source(alloc, files)?.arg(most_edges(alloc))
}

fn generate<'a>(alloc: Global) -> Result<Command<'a>, AllocError>
    ensures { IfOk result (λ c. app_of c ≡ app_of_verb verb.Generate) }
{
    let scored = with_source(alloc, of_files(alloc, "generate")?)?.arg(most_edges(alloc))?;
    with_search(alloc, scored)?.arg(named_some_text(alloc, "out"))
}

fn verify<'a>(alloc: Global) -> Result<Command<'a>, AllocError>
    ensures { IfOk result (λ c. app_of c ≡ app_of_verb verb.Verify) }
{
    of_files(alloc, "verify")
}

/// `certify` with its positional arguments.
fn certified<'a>(alloc: Global) -> Result<Command<'a>, AllocError>
    ensures { IfOk result (λ c. app_of c ≡ with_rules (bare_app (codes "certify")) the.certified) }
{
    bare(alloc, "certify")
        .arg(first(alloc))?
        .arg(numeral(alloc, "number", LEAST_NUMBER, MOST_OBLIGATION))?
        .arg(numeral(alloc, "k", LEAST_K, MOST_K))?
        .arg(second(alloc))
}

fn certify<'a>(alloc: Global) -> Result<Command<'a>, AllocError>
    ensures { IfOk result (λ c. app_of c ≡ app_of_verb verb.Certify) }
{
    with_source(alloc, certified(alloc)?)?.arg(most_edges(alloc))
}

fn make<'a>(alloc: Global) -> Result<Command<'a>, AllocError>
    ensures { IfOk result (λ c. app_of c ≡ app_of_verb verb.Make) }
{
    let sized = bare(alloc, "make")
        .arg(numeral(alloc, "number", LEAST_NUMBER, MOST_SIZE))?
        .arg(most_edges(alloc))?;
    with_search(alloc, sized)
}

/// The command, as `clap` parses it.
pub(crate) fn command<'a>(alloc: Global, verb: Verb) -> Result<Command<'a>, AllocError>
    ensures { IfOk result (λ c. app_of c ≡ app_of_verb verb) }
{
    match verb {
        Verb::Run => run(alloc),
        Verb::Score => score(alloc),
        Verb::Session => session(alloc),
        Verb::Generate => generate(alloc),
        Verb::Verify => verify(alloc),
        Verb::Certify => certify(alloc),
        Verb::Make => make(alloc),
    }
}

/// The command of a name.
pub(crate) fn verb_of(name: &str) -> Option<Verb>
    ensures { result ≡ verb_named name.now }
{
    if name == "run" {
        return Some(Verb::Run);
    }
    if name == "score" {
        return Some(Verb::Score);
    }
    if name == "session" {
        return Some(Verb::Session);
    }
    if name == "generate" {
        return Some(Verb::Generate);
    }
    if name == "verify" {
        return Some(Verb::Verify);
    }
    if name == "certify" {
        return Some(Verb::Certify);
    }
    if name == "make" {
        return Some(Verb::Make);
    }
    None
}
