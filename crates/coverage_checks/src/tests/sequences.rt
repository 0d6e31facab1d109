//! Sequences of inputs, and tables that keep them.
ghost use Rattle.std.specs.Prelude.{◌≡◌, ◌<◌};
ghost use Rattle.op_network.specs.Valid.{FitsTest};

use super::programs::{Sample, table_of};
use cov_base::{List, Steps, Text, push_decimal};
use op_network::{Test, Value};
use score_table::{AddFault, Table};
use std::alloc::Global;
use std::marker::Brand;
use std::process::Abort;
use std::sync::ledger::{Blank, Ledger};

/// These bytes as a text.
fn text(rt: &impl Abort, alloc: Global, bytes: &[u8]) -> Text {
    Text::from_bytes(alloc, bytes).ok().expect(rt, "a text")
}

/// The decimals of a number as a name.
fn number_name(rt: &impl Abort, alloc: Global, number: u32) -> Text {
    let mut name = List::new(alloc);
    let pushed = push_decimal(&mut name, i64::from(number));
    pushed.ok().expect(rt, "room");
    text(rt, alloc, name.as_slice())
}

/// The truths that are the bits of a number, least first.
fn bits_of(rt: &impl Abort, alloc: Global, number: u32, count: u32) -> List<Value> {
    let mut values = List::new(alloc);
    let mut rest = number;
    for _bit in 0..count {
        let truth = Value::Truth(rest % 2 == 1);
        values.add(truth).ok().expect(rt, "room");
        rest /= 2;
    }
    values
}

/// The test of k instants whose name is a number, and whose values are its bits.
pub(super) fn numbered(rt: &impl Abort, alloc: Global, number: u32, inputs: u32, k: u32) -> Test {
    Test {
        name: number_name(rt, alloc, number),
        instants: k,
        values: bits_of(rt, alloc, number, inputs.saturating_mul(k)),
    }
}

/// The first instants of a test.
pub(super) fn prefix(
    rt: &impl Abort,
    alloc: Global,
    test: &Test,
    inputs: u32,
    instants: u32,
) -> Test {
    let count = inputs.saturating_mul(instants) as usize;
    let mut values = List::new(alloc);
    for value in test.values.as_slice().iter().take(count) {
        values.add(*value).ok().expect(rt, "room");
    }
    Test {
        name: text(rt, alloc, b"prefix"),
        instants,
        values,
    }
}

/// Adds a test, with a count of its own.
fn add_counted<L: Ledger>(
    alloc: Global,
    table: &mut Table,
    test: Test,
    blank: Blank,
) -> Result<u32, AddFault>
    requires fits { FitsTest table.old.network.network test }
    requires name { blank.name ≡ L.name }
    requires parts { blank.parts ≡ L.parts }
    requires some { 0 < blank.parts }
{
    let mut steps = Steps::<L>::new(blank);
    table.add(alloc, test, &mut steps)
}

/// Adds a test, and answers how many of its instants count.
pub(super) fn add(rt: &impl Abort, alloc: Global, table: &mut Table, test: Test) -> u32 {
    assert!(rt; table.network().network().fits(&test));
    add_counted::<Brand>(alloc, table, test, Blank::new(1))
        .ok()
        .expect(rt, "a test that is kept")
}

/// A table that keeps all sequences of k instants.
pub(super) fn table_of_all(rt: &impl Abort, alloc: Global, sample: Sample, k: u32) -> Table {
    let mut table = table_of(rt, alloc, sample);
    let bits = sample.inputs.saturating_mul(k);
    assert!(rt; bits < 32);
    for number in 0..1u32 << bits {
        let test = numbered(rt, alloc, number, sample.inputs, k);
        add(rt, alloc, &mut table, test);
    }
    table
}

/// Whether all instants of a test count, and it alone covers an obligation. A test of no instants,
/// which no table takes, covers none.
pub(super) fn covers(rt: &impl Abort, alloc: Global, sample: Sample, test: Test, o: u32) -> bool {
    let instants = test.instants;
    if instants == 0 {
        return false;
    }
    let mut table = table_of(rt, alloc, sample);
    let counted = add(rt, alloc, &mut table, test);
    counted == instants && table.covered(o)
}
