ghost use Rattle.std.specs.Prelude.{◌≡◌, ◌≤◌};
ghost use Rattle.cov_base.specs.Files.{NeverFall};
ghost use Rattle.lus_types.specs.Views.{name_given};
ghost use Rattle.cov_station.specs.Chains.{Answers};
ghost use Rattle.cov_station.specs.Commands.{score};
ghost use Rattle.cov_station.specs.Files.{Counted};
ghost use Rattle.cov_station.specs.Steps.{Does, Same};

use crate::plans::plan_of;
use crate::refusal::Refusal;
use crate::scores::score_text;
use crate::source::read_source;
use crate::suite::read_tests;
use cov_base::{List, Store};
use dep_paths::MOST_LENGTH;
use op_network::{LEAST_WIDTH, MOST_WIDTH};
use std::alloc::Global;

/// What `score` prints: the tests, how many of the obligations they cover, over the paths of at
/// most `most_edges` edges, and those that they don't; as text, or as one line of JSON.
pub(crate) fn score_command<S: Store>(
    alloc: Global,
    store: &mut S,
    source: &str,
    suite: &str,
    width: u32,
    main: Option<&str>,
    most_edges: u32,
    json: bool,
) -> Result<List<u8>, Refusal>
    requires narrowest { LEAST_WIDTH ≤ width }
    requires widest { width ≤ MOST_WIDTH }
    requires positive { 1 ≤ most_edges }
    requires small { most_edges ≤ MOST_LENGTH }
    ensures answer { Does
        (Answers (score (S.files store.old) source.now suite.now width (name_given main.entry)
        most_edges json)) Same result }
    ensures counts { Counted result (S.counts store.old) (S.counts store.new) }
    ensures never_fall { NeverFall (S.counts store.old) (S.counts store.new) }
    ensures files { S.files store.new ≡ S.files store.old }
{
    let net = read_source(alloc, store, source, width, main)?;
    let plan = plan_of(alloc, net.network(), most_edges)?;
    let tests = read_tests(alloc, store, suite, net.network())?;
    Ok(score_text(alloc, net, plan, tests, json)?)
}
