ghost use Rattle.std.specs.Prelude.{◌≤◌, IfOk, length};
ghost use Rattle.std.specs.List.{All};
ghost use Rattle.op_network.specs.declared.test.Test.{Test as TestValue};
ghost use Rattle.cov_report.specs.Json.{IsPrintable};
ghost use Rattle.suite_file.specs.declared.limits.TheConstants.{MOST_TESTS};
ghost use Rattle.cov_station.specs.Scores.{NetworkScore};
ghost use Rattle.dep_paths.specs.Duties.{IsPlanOf};
ghost use Rattle.suite_file.specs.Suites.{AreOfSuite};
ghost use Rattle.cov_station.specs.ScoreText.{ScoreText};
ghost use Rattle.cov_station.specs.Sources.{Source};
ghost use Rattle.cov_station.specs.Views.{IsNetworkOf};

mod keeping;
mod lines;
mod report;
mod text;

use cov_base::{List, Memory};
use dep_paths::Plan;
use keeping::table_of;
use lus_causality::Ordered;
use op_network::Test;
use report::json_of;
use score_table::Table;
use std::alloc::Global;
use text::text_of;

/// The text of a table, as JSON or not.
fn report_of(alloc: Global, table: &Table, json: bool) -> Result<List<u8>, Memory>
    requires few { length table.now.tests ≤ MOST_TESTS }
    requires names { All (λ (test : TestValue). IsPrintable test.name) table.now.tests }
    ensures { IfOk result
        (NetworkScore table.now.network.network table.now.plan table.now.tests json) }
{
    if json {
        json_of(alloc, table)
    } else {
        text_of(alloc, table)
    }
}

/// The text of the score of a suite's tests over a plan of the network, as JSON or not. The cost is
/// that of adding the tests to a table, and linear in the obligations and in the length of the
/// text. Answers `Memory` for want of it.
pub(crate) fn score_text(
    alloc: Global,
    net: Ordered,
    plan: Plan,
    tests: List<Test>,
    json: bool,
) -> Result<List<u8>, Memory>
    requires tests { AreOfSuite net.network tests }
    requires plan { IsPlanOf net.network plan }
    ensures { (source : Source) → IsNetworkOf source net →
        IfOk result (ScoreText source plan tests json) }
{
    let table = table_of(alloc, net, plan, tests)?;
    report_of(alloc, &table, json)
}
