ghost use Rattle.std.specs.Prelude.{◌≡◌, All, IfOk};
ghost use Rattle.cov_base.specs.Files.{NeverFall};
ghost use Rattle.op_network.specs.Valid.{FitsTest};
ghost use Rattle.suite_file.specs.Suites.{AreOfSuite};
ghost use Rattle.cov_station.specs.Files.{Counted};
ghost use Rattle.cov_station.specs.Steps.{Does, Same};
ghost use Rattle.cov_station.specs.Suites.{HoldsTests, ReadsSuite};

use crate::files::read_file;
use crate::limits::MOST_FILE_BYTES;
use crate::refusal::{Quantity, Refusal};
use cov_base::{List, Store};
use op_network::{Network, Test};
use std::alloc::Global;
use suite_file::{MOST_INSTANTS, MOST_TESTS, SuiteFault, read_suite};

/// The tests that bytes hold for a network.
fn tests_of(alloc: Global, bytes: &[u8], net: &Network) -> Result<List<Test>, Refusal>
    ensures answer { Does (HoldsTests net.now bytes.now) Same result }
    ensures fits { IfOk result (λ tests. All (FitsTest net.now) tests) }
    ensures of_suite { IfOk result (AreOfSuite net.now) }
{
    match read_suite(alloc, bytes, net) {
        Ok(tests) => Ok(tests),
        Err(
            SuiteFault::Bad {
                row,
                column: _,
                kind,
            },
        ) => Err(Refusal::Suite(kind, row)),
        Err(SuiteFault::Tests) => Err(Refusal::OverLimit(Quantity::Tests, MOST_TESTS as u32)),
        Err(SuiteFault::Instants) => { Err(Refusal::OverLimit(Quantity::Instants, MOST_INSTANTS)) }
        Err(SuiteFault::Memory) => Err(Refusal::Memory),
    }
}

/// Reads a suite: the tests that it holds for a network.
pub(crate) fn read_tests<S: Store>(
    alloc: Global,
    store: &mut S,
    name: &str,
    net: &Network,
) -> Result<List<Test>, Refusal>
    ensures answer { Does (ReadsSuite (S.files store.old) name.now net.now) Same result }
    ensures fits { IfOk result (λ tests. All (FitsTest net.now) tests) }
    ensures of_suite { IfOk result (AreOfSuite net.now) }
    ensures counts { Counted result (S.counts store.old) (S.counts store.new) }
    ensures never_fall { NeverFall (S.counts store.old) (S.counts store.new) }
    ensures files { S.files store.new ≡ S.files store.old }
{
    let bytes = read_file(alloc, store, name, MOST_FILE_BYTES)?;
    tests_of(alloc, bytes.as_slice(), net)
}
