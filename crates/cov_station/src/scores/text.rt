//! The text of a table: its tests, its scores, and what its tests don't cover.
ghost use Rattle.std.specs.Prelude.{◌≡◌, ◌≤◌, ◌<◌, ◌++◌, IfOk, OnOk, length, false};
ghost use Rattle.std.specs.List.{All};
ghost use Rattle.cov_report.specs.Scores.{IsWithin, score_lines};
ghost use Rattle.score_table.specs.Tables.{OfRuns};
ghost use Rattle.suite_file.specs.declared.limits.TheConstants.{MOST_TESTS};
ghost use Rattle.cov_station.specs.Scores.{NetworkScore, missing_lines, scores_of, test_lines};
ghost use Rattle.cov_station.specs.Scoring.{missing_at};

use crate::scores::lines::{push_missing_line, push_test_line};
use cov_base::{List, Memory};
use cov_report::score_text;
use dep_paths::{Criterion, Score};
use score_table::Table;
use std::alloc::Global;

/// Adds the line of each test of a table.
fn push_test_lines(text: &mut List<u8>, table: &Table) -> Result<(), Memory>
    requires few { length table.now.tests ≤ MOST_TESTS }
    ensures { OnOk result (OfRuns table.now (λ runs.
        text.new ≡ text.old ++ test_lines table.now.tests runs)) }
{
    for (i, test) in table.tests().iter().enumerate() {
        push_test_line(text, test, table.kept(i as u32))?;
    }
    Ok(())
}

/// The score of each criterion, in the order in which they are printed. Linear in the obligations.
pub(crate) fn scores_in(table: &Table) -> [Score; 4]
    ensures scores { OfRuns table.now (λ runs. result ≡ scores_of table.now.plan runs) }
    ensures within { All IsWithin result }
{
    // what the table says of itself is known once it is read
    let _ = table.tests();
    [
        table.score(Criterion::Bc),
        table.score(Criterion::Ecc),
        table.score(Criterion::Mcc),
        table.score(Criterion::Omcdc),
    ]
}

/// Adds the line of each criterion's score. Linear in the obligations.
fn push_score_lines(text: &mut List<u8>, table: &Table) -> Result<(), Memory>
    ensures { let plan = table.now.plan in OnOk result (OfRuns table.now (λ runs.
        text.new ≡ text.old ++ score_lines (scores_of plan runs))) }
{
    score_text(&scores_in(table), text)
}

/// Adds the line of the obligation at a place of the plan, unless a test covers it.
fn push_if_missing(text: &mut List<u8>, table: &Table, o: u32) -> Result<(), Memory>
    requires { o < length table.now.plan.duties }
    ensures { let edges = table.now.network.network.edges in OnOk result (OfRuns table.now (λ runs.
        text.new ≡ text.old ++ missing_at edges table.now.plan runs o)) }
{
    if table.covered(o) {
        return Ok(());
    }
    push_missing_line(text, table.network().network(), table.plan(), o)
}

/// Adds the line of each obligation that no test covers. Linear in the obligations and in the text.
fn push_missing_lines(text: &mut List<u8>, table: &Table) -> Result<(), Memory>
    ensures { let edges = table.now.network.network.edges in OnOk result (OfRuns table.now (λ runs.
        text.new ≡ text.old ++ missing_lines edges table.now.plan runs)) }
{
    // what the plan says of itself is known once it is read
    let _ = table.plan().length();
    for o in 0..table.plan().duties().len() as u32 {
        push_if_missing(text, table, o)?;
    }
    Ok(())
}

/// The text of a table: a line for each test, for each criterion, and for each obligation that no
/// test covers. Linear in the tests, in the obligations and in its length.
pub(crate) fn text_of(alloc: Global, table: &Table) -> Result<List<u8>, Memory>
    requires few { length table.now.tests ≤ MOST_TESTS }
    ensures { IfOk result
        (NetworkScore table.now.network.network table.now.plan table.now.tests false) }
{
    let mut text = List::new(alloc);
    // what the table says of itself is known once it is read
    let _ = table.tests();
    push_test_lines(&mut text, table)?;
    push_score_lines(&mut text, table)?;
    push_missing_lines(&mut text, table)?;
    Ok(text)
}
