//! A score as JSON.
ghost use Rattle.std.specs.Prelude.{◌≡◌, [], ◌∷◌, ◌++◌, IfOk, OnErr, OnOk};
ghost use Rattle.serde_json.specs.View.{view};
ghost use Rattle.cov_report.specs.Json.{ArePrintable, IsPrintable, json_line, numbers_data};
ghost use Rattle.cov_report.specs.Json.{report_data, score_data, scores_data, test_data};
ghost use Rattle.cov_report.specs.Json.{tests_data};

use crate::names::criterion_name;
use crate::scores::CRITERIA;
use cov_base::{List, Memory, Text};
use dep_paths::{Criterion, Score};
use serde_json::{Map, Value, json, put};
use std::alloc::Global;

/// A test in a report: its name, how many instants it has, and how many of them count.
#[derive(Debug, Drop)]
pub struct TestLine {
    pub name: Text,
    pub instants: u32,
    pub kept: u32,
}

/// A printable name as text.
#[tactic(auto, using(crate::proofs::Printable::printable_is_utf8))]
fn name_text(name: &Text) -> &str
    requires { IsPrintable name.now }
    ensures { result.now ≡ name.now }
{
    match str::from_utf8(name.bytes()) {
        Ok(text) => text,
        Err(_) => unreachable!(),
    }
}

fn score_value(alloc: Global, criterion: Criterion, score: Score) -> Result<Value, Memory>
    ensures { IfOk result (λ value. view value ≡ score_data criterion score) }
{
    let name = criterion_name(criterion);
    let value =
        json!(in alloc; {"covered": score.covered, "criterion": name, "total": score.total})?;
    Ok(value)
}

fn test_value(alloc: Global, test: &TestLine) -> Result<Value, Memory>
    requires { IsPrintable test.now.name }
    ensures { IfOk result (λ value. view value ≡ test_data test.now) }
{
    let name = name_text(&test.name);
    let value = json!(in alloc; {"instants": test.instants, "kept": test.kept, "name": name})?;
    Ok(value)
}

/// Adds a value to a list.
fn add(values: &mut Vec<Value>, value: Value) -> Result<(), Memory>
    ensures { OnOk result (values.new.items ≡ values.old.items ++ value ∷ []) }
{
    match values.push(value) {
        Ok(()) => Ok(()),
        Err(_) => Err(Memory),
    }
}

fn numbers_value(alloc: Global, numbers: &[u32]) -> Result<Value, Memory>
    ensures { IfOk result (λ value. view value ≡ numbers_data numbers.now) }
{
    let mut values = Vec::new(alloc);
    for number in numbers {
        add(&mut values, Value::from(*number))?;
    }
    Ok(Value::Array(values))
}

#[tactic(auto, using(crate::proofs::Zips::zip_more))]
fn scores_value(alloc: Global, scores: &[Score; 4]) -> Result<Value, Memory>
    ensures { IfOk result (λ value. view value ≡ scores_data scores.now) }
{
    let mut values = Vec::new(alloc);
    for (i, criterion) in CRITERIA.iter().enumerate() {
        add(&mut values, score_value(alloc, *criterion, scores[i])?)?;
    }
    Ok(Value::Array(values))
}

fn tests_value(alloc: Global, tests: &[TestLine]) -> Result<Value, Memory>
    requires { ArePrintable tests.now }
    ensures { IfOk result (λ value. view value ≡ tests_data tests.now) }
{
    let mut values = Vec::new(alloc);
    for test in tests {
        add(&mut values, test_value(alloc, test)?)?;
    }
    Ok(Value::Array(values))
}

fn report_value(
    alloc: Global,
    tests: &[TestLine],
    scores: &[Score; 4],
    missing: &[u32],
) -> Result<Value, Memory>
    requires { ArePrintable tests.now }
    ensures { IfOk result (λ value.
        view value ≡ report_data tests.now scores.now missing.now) }
{
    let mut members = Map::new(alloc);
    put(
        &mut members,
        alloc,
        "missing",
        numbers_value(alloc, missing)?,
    )?;
    put(&mut members, alloc, "scores", scores_value(alloc, scores)?)?;
    put(&mut members, alloc, "tests", tests_value(alloc, tests)?)?;
    Ok(Value::Object(members))
}

/// The line of a report.
#[tactic(auto, using(crate::proofs::NoFloats::no_float))]
fn report_line(
    alloc: Global,
    tests: &[TestLine],
    scores: &[Score; 4],
    missing: &[u32],
) -> Result<Vec<u8>, Memory>
    requires { ArePrintable tests.now }
    ensures { IfOk result (λ line. line.items ≡ json_line tests.now scores.now missing.now) }
{
    let value = report_value(alloc, tests, scores, missing)?;
    let mut line = value.to_vec(alloc)?;
    match line.push(b'\n') {
        Ok(()) => Ok(line),
        Err(_) => Err(Memory),
    }
}

/// Adds a score at the end as one line of compact JSON: an object of `missing`, the printed numbers
/// of the obligations that no test covers, of `scores`, which stand in the order of `CRITERIA`, and
/// of `tests`. Each byte of a test's name is 21 to 7E, in hexadecimal. Answers `Memory` for want of
/// it, and `out` is then as before. The cost is linear in the text, over many calls.
pub fn score_json(
    alloc: Global,
    tests: &[TestLine],
    scores: &[Score; 4],
    missing: &[u32],
    out: &mut List<u8>,
) -> Result<(), Memory>
    requires names { ArePrintable tests.now }
    ensures ok { OnOk result
        (out.new ≡ out.old ++ json_line tests.now scores.now missing.now) }
    ensures err { OnErr result (out.new ≡ out.old) }
{
    let line = report_line(alloc, tests, scores, missing)?;
    out.extend_from_slice(&line)
}
