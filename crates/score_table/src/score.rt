//! Scores.
ghost use Rattle.std.specs.Prelude.{◌≡◌, ◌<◌, ◌+◌, ◌^◌, ◌&&◌, if◌then◌else◌, count_by, length, zip};
ghost use Rattle.score_table.specs.Coverage as spec;

use cov_base::BitRow;
use dep_paths::{Criterion, Obligation, Score};

/// Whether two criteria are one.
fn is_same(a: Criterion, b: Criterion) -> bool
    ensures { result ≡ spec.is_same_criterion a b }
{
    match (a, b) {
        (Criterion::Bc, Criterion::Bc) => true,
        (Criterion::Ecc, Criterion::Ecc) => true,
        (Criterion::Mcc, Criterion::Mcc) => true,
        (Criterion::Omcdc, Criterion::Omcdc) => true,
        _ => false,
    }
}

/// Whether an obligation is of a criterion.
fn is_of(criterion: Criterion, duty: Obligation) -> bool
    ensures { result ≡ spec.is_of criterion duty }
{
    is_same(criterion, duty.criterion())
}

/// The score after one more obligation.
fn with_duty(score: Score, asked: bool, covered: bool) -> Score
    requires few { score.total < u32.MAX }
    requires fewer { score.covered < u32.MAX }
    ensures total { result.total ≡ score.total + (if asked then 1 else 0) }
    ensures covered { result.covered ≡ score.covered + (if asked && covered then 1 else 0) }
{
    Score {
        covered: score.covered + u32::from(asked && covered),
        total: score.total + u32::from(asked),
    }
}

/// How many obligations of a criterion have their bit, and how many there are. Linear in the number
/// of obligations.
pub(crate) fn score_in(duties: &[Obligation], covered: &BitRow, criterion: Criterion) -> Score
    requires few { length duties.now < 2 ^ 32 }
    requires size { length covered.now ≡ length duties.now }
    ensures total { result.total ≡ count_by (spec.is_of criterion) duties.now }
    ensures covered { let marked = zip duties.now covered.now in
        result.covered ≡ count_by (spec.is_covered_of criterion) marked }
{
    let mut score = Score {
        covered: 0,
        total: 0,
    };
    for (o, duty) in duties.iter().enumerate() {
        score = with_duty(score, is_of(criterion, *duty), covered.get(o as u32));
    }
    score
}
