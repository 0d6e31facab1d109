ghost use Rattle.std.specs.Prelude.{◌≡◌, ◌≤◌};
ghost use Rattle.cov_base.specs.Files.{NeverFall};
ghost use Rattle.lus_types.specs.Views.{name_given};
ghost use Rattle.cov_station.specs.Chains.{Answers};
ghost use Rattle.cov_station.specs.Commands.{run};
ghost use Rattle.cov_station.specs.Files.{Counted};
ghost use Rattle.cov_station.specs.Steps.{Does, Same};

use crate::refusal::Refusal;
use crate::runs::run_text;
use crate::source::read_source;
use crate::suite::read_tests;
use cov_base::{List, Store};
use op_network::{LEAST_WIDTH, MOST_WIDTH};
use std::alloc::Global;

/// What `run` prints: the streams of main's inputs and outputs in each test.
pub(crate) fn run_command<S: Store>(
    alloc: Global,
    store: &mut S,
    source: &str,
    suite: &str,
    width: u32,
    main: Option<&str>,
) -> Result<List<u8>, Refusal>
    requires narrowest { LEAST_WIDTH ≤ width }
    requires widest { width ≤ MOST_WIDTH }
    ensures answer { Does
        (Answers (run (S.files store.old) source.now suite.now width (name_given main.entry)))
        Same result }
    ensures counts { Counted result (S.counts store.old) (S.counts store.new) }
    ensures never_fall { NeverFall (S.counts store.old) (S.counts store.new) }
    ensures files { S.files store.new ≡ S.files store.old }
{
    let net = read_source(alloc, store, source, width, main)?;
    let tests = read_tests(alloc, store, suite, net.network())?;
    Ok(run_text(alloc, &net, tests.as_slice())?)
}
