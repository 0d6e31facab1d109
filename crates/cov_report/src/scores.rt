//! The lines of scores.
ghost use Rattle.std.specs.Prelude.{◌≡◌, ◌≤◌, ◌++◌, All, OnErr, OnOk};
ghost use Rattle.std.specs.Io.{StartsWith};
ghost use Rattle.cov_report.specs.Scores.{IsWithin, score_line, score_lines, share};

use crate::names::push_criterion;
use crate::undo::whole_or_none;
use cov_base::{List, Memory, push_decimal, push_percent};
use dep_paths::{Criterion, Score};

/// The criteria, in the order in which their scores are printed.
pub const CRITERIA: [Criterion; 4] = [
    Criterion::Bc,
    Criterion::Ecc,
    Criterion::Mcc,
    Criterion::Omcdc,
];

/// How many are covered, how many there are, and the percentage.
#[tactic(auto, using(crate::proofs::Starts::starts))]
fn push_share(text: &mut List<u8>, score: Score) -> Result<(), Memory>
    requires { IsWithin score }
    ensures ok { OnOk result (text.new ≡ text.old ++ share score) }
    ensures kept { StartsWith text.new text.old }
{
    push_decimal(text, i64::from(score.covered))?;
    text.extend_from_slice(b"/")?;
    push_decimal(text, i64::from(score.total))?;
    text.extend_from_slice(b" ")?;
    push_percent(text, score.covered, score.total)
}

/// A criterion's name and its score.
#[tactic(auto, using(crate::proofs::Starts::starts))]
fn push_score_line(text: &mut List<u8>, criterion: Criterion, score: Score) -> Result<(), Memory>
    requires { IsWithin score }
    ensures ok { OnOk result (text.new ≡ text.old ++ score_line criterion score) }
    ensures kept { StartsWith text.new text.old }
{
    push_criterion(text, criterion)?;
    push_share(text, score)?;
    text.extend_from_slice(b"\n")
}

/// A line for the score of each criterion.
#[tactic(auto, using(crate::proofs::Starts::starts))]
fn push_score_lines(text: &mut List<u8>, scores: &[Score; 4]) -> Result<(), Memory>
    requires { All IsWithin scores.now }
    ensures ok { OnOk result (text.new ≡ text.old ++ score_lines scores.now) }
    ensures kept { StartsWith text.new text.old }
{
    for (i, criterion) in CRITERIA.iter().enumerate() {
        push_score_line(text, *criterion, scores[i])?;
    }
    Ok(())
}

/// Adds a line for each criterion at the end: its name, how many of its obligations are covered,
/// how many there are, and the percentage. The scores stand in the order of `CRITERIA`, and in
/// each no more are covered than there are. Answers `Memory` for want of it, and `out` is then as
/// before. Constant time over many calls.
pub fn score_text(scores: &[Score; 4], out: &mut List<u8>) -> Result<(), Memory>
    requires within { All IsWithin scores.now }
    ensures ok { OnOk result (out.new ≡ out.old ++ score_lines scores.now) }
    ensures err { OnErr result (out.new ≡ out.old) }
{
    let before = out.len();
    let added = push_score_lines(out, scores);
    whole_or_none(out, before, added)
}
