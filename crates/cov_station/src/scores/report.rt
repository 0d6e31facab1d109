//! A table as JSON.
ghost use Rattle.std.specs.Prelude.{◌≡◌, ◌≤◌, ◌<◌, ◌++◌, IfOk, OnOk, length, true};
ghost use Rattle.std.specs.List.{All};
ghost use Rattle.op_network.specs.declared.test.Test.{Test as TestValue};
ghost use Rattle.cov_report.specs.Json.{ArePrintable, IsPrintable};
ghost use Rattle.score_table.specs.Tables.{OfRuns};
ghost use Rattle.suite_file.specs.declared.limits.TheConstants.{MOST_TESTS};
ghost use Rattle.cov_station.specs.Scores.{NetworkScore, missing_numbers, rows_of_tests};
ghost use Rattle.cov_station.specs.Scoring.{number_at};

use crate::scores::text::scores_in;
use cov_base::{List, Memory};
use cov_report::{TestLine, score_json};
use op_network::Test;
use score_table::Table;
use std::alloc::Global;

/// What is reported of a test.
fn test_row(alloc: Global, test: &Test, kept: u32) -> Result<TestLine, Memory>
    ensures { IfOk result (λ row. row
        ≡ record { name = test.now.name; instants = test.now.instants; kept = kept }) }
{
    let name = test.name.copy(alloc)?;
    Ok(TestLine {
        name,
        instants: test.instants,
        kept,
    })
}

/// What is reported of the tests of a table. Linear in them and in their names.
fn test_rows(alloc: Global, table: &Table) -> Result<List<TestLine>, Memory>
    requires few { length table.now.tests ≤ MOST_TESTS }
    requires names { All (λ (test : TestValue). IsPrintable test.name) table.now.tests }
    ensures rows { IfOk result (λ rows. OfRuns table.now (λ runs.
        rows ≡ rows_of_tests table.now.tests runs)) }
    ensures names { IfOk result ArePrintable }
{
    let mut rows = List::new(alloc);
    for (i, test) in table.tests().iter().enumerate() {
        rows.add(test_row(alloc, test, table.kept(i as u32))?)?;
    }
    Ok(rows)
}

/// Adds the number of the obligation at a place of the plan, unless a test covers it.
fn add_if_missing(numbers: &mut List<u32>, table: &Table, o: u32) -> Result<(), Memory>
    requires { o < length table.now.plan.duties }
    ensures { OnOk result (OfRuns table.now (λ runs.
        numbers.new ≡ numbers.old ++ number_at runs o)) }
{
    if table.covered(o) {
        return Ok(());
    }
    // what the plan says of itself is known once it is read
    let _ = table.plan().length();
    numbers.add(o + 1)
}

/// The numbers, from 1, of the obligations that no test covers. Linear in the obligations.
fn missing(alloc: Global, table: &Table) -> Result<List<u32>, Memory>
    ensures { IfOk result (λ numbers. OfRuns table.now (λ runs.
        numbers ≡ missing_numbers table.now.plan runs)) }
{
    let mut numbers = List::new(alloc);
    // what the plan says of itself is known once it is read
    let _ = table.plan().length();
    for o in 0..table.plan().duties().len() as u32 {
        add_if_missing(&mut numbers, table, o)?;
    }
    Ok(numbers)
}

/// The report of a table as one line of JSON: the numbers of the obligations that no test covers,
/// the score of each criterion, and the tests. Linear in the tests and in the obligations.
pub(crate) fn json_of(alloc: Global, table: &Table) -> Result<List<u8>, Memory>
    requires few { length table.now.tests ≤ MOST_TESTS }
    requires names { All (λ (test : TestValue). IsPrintable test.name) table.now.tests }
    ensures { IfOk result
        (NetworkScore table.now.network.network table.now.plan table.now.tests true) }
{
    // what the table says of itself is known once it is read
    let _ = table.tests();
    let rows = test_rows(alloc, table)?;
    let missing = missing(alloc, table)?;
    let scores = scores_in(table);
    let mut text = List::new(alloc);
    score_json(
        alloc,
        rows.as_slice(),
        &scores,
        missing.as_slice(),
        &mut text,
    )?;
    Ok(text)
}
