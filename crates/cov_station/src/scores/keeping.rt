//! A table that keeps the tests of a suite.
ghost use Rattle.std.specs.Prelude.{◌≡◌, ◌<◌, [], None, IfOk, OnOk};
ghost use Rattle.dep_paths.specs.Duties.{IsPlanOf};
ghost use Rattle.op_network.specs.Valid.{FitsTest};
ghost use Rattle.score_table.specs.Tables.{first_refusal, with_test};
ghost use Rattle.suite_file.specs.Suites.{AreOfSuite};

use cov_base::{List, Memory, Steps};
use dep_paths::Plan;
use lus_causality::Ordered;
use op_network::Test;
use score_table::{AddCause, Table};
use std::alloc::Global;
use std::marker::Brand;
use std::sync::ledger::{Blank, Ledger};

/// Keeps one more test, where nothing but want of memory is in the way.
fn keep_test<L: Ledger>(
    alloc: Global,
    table: &mut Table,
    test: Test,
    steps: &mut Steps<L>,
) -> Result<(), Memory>
    requires fits { FitsTest table.old.network.network test }
    requires accepted { first_refusal table.old.tests test ≡ None }
    ensures { OnOk result (table.new ≡ with_test table.old test) }
{
    match table.add(alloc, test, steps) {
        Ok(_) => Ok(()),
        Err(fault) => match fault.cause {
            AddCause::Memory => Err(Memory),
            AddCause::AlreadyKept => unreachable!(),
            AddCause::Full => unreachable!(),
            AddCause::Instants => unreachable!(),
        },
    }
}

/// Keeps the tests of a suite, in order, in a table that keeps none yet. Takes at most as many
/// steps as the tests have instants.
fn keep_tests<L: Ledger>(
    alloc: Global,
    table: &mut Table,
    tests: List<Test>,
    blank: Blank,
) -> Result<(), Memory>
    requires none { table.old.tests ≡ [] }
    requires tests { AreOfSuite table.old.network.network tests }
    requires name { blank.name ≡ L.name }
    requires parts { blank.parts ≡ L.parts }
    requires some { 0 < blank.parts }
    ensures { let network = table.old.network in let plan = table.old.plan in
        OnOk result (table.new ≡ record { network = network; plan = plan; tests = tests }) }
{
    let mut steps = Steps::<L>::new(blank);
    for test in tests.into_vec() {
        keep_test(alloc, table, test, &mut steps)?;
    }
    Ok(())
}

/// The table of a suite's tests over a plan of the network. The cost is that of adding each test.
pub(crate) fn table_of(
    alloc: Global,
    net: Ordered,
    plan: Plan,
    tests: List<Test>,
) -> Result<Table, Memory>
    requires tests { AreOfSuite net.network tests }
    requires plan { IsPlanOf net.network plan }
    ensures { IfOk result (λ table.
        table ≡ record { network = net; plan = plan; tests = tests }) }
{
    let Ok(mut table) = Table::new(alloc, net, plan) else {
        return Err(Memory);
    };
    let blank = Blank::new(1);
    keep_tests::<Brand>(alloc, &mut table, tests, blank)?;
    Ok(table)
}
