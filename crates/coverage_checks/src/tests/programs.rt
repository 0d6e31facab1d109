//! Small programs whose inputs are truths, with the tables over their plans.
ghost use Rattle.std.specs.Prelude.{IfSome};
ghost use Rattle.lus_syntax.specs.Grammar.{IsTreeOfGrammar};

use dep_paths::{MOST_LENGTH, plan};
use lus_causality::{Ordered, order};
use lus_syntax::{Ast, MOST_BYTES, crowded, lex, parse};
use lus_types::{MOST_DECLS, type_check};
use node_expand::expand;
use score_table::Table;
use std::alloc::Global;
use std::process::Abort;

/// The bits of a word, enough for the alarm controller's counts.
const WIDTH: u32 = 4;

/// A program, how many inputs it has, all truths, and the most edges of a path.
#[derive(Clone, Copy)]
pub(super) struct Sample {
    text: &'static [u8],
    pub(super) inputs: u32,
    length: u32,
}

/// True where the input has just become true.
pub(super) const RISE: Sample = Sample {
    text: b"node e(x: bool) returns (y: bool); let y = false -> x and not pre x; tel",
    inputs: 1,
    length: 5,
};

/// An output that is never true.
pub(super) const CONTRADICTION: Sample = Sample {
    text: b"node e(x: bool) returns (y: bool); let y = x and not x; tel",
    inputs: 1,
    length: 3,
};

/// A program that admits no inputs.
pub(super) const NOTHING_ADMITTED: Sample = Sample {
    text: b"node e(x: bool) returns (y: bool); let assert false; y = x; tel",
    inputs: 1,
    length: 3,
};

/// A program that admits any input at the first instant and none at the second.
pub(super) const NOTHING_ADMITTED_LATER: Sample = Sample {
    text: b"node e(x: bool) returns (y: bool); let assert true -> false; y = x; tel",
    inputs: 1,
    length: 3,
};

/// A program that asserts that its input is true.
pub(super) const ASSERTED: Sample = Sample {
    text: b"node e(x: bool) returns (y: bool); let assert x; y = x; tel",
    inputs: 1,
    length: 3,
};

/// The controller of an alarm, with calls, words, an enumeration and an assertion.
pub(super) const ALARM: Sample = Sample {
    text: b"type mode = enum { Idle, Armed, Ring };
const LIMIT = 2;
node rise(x: bool) returns (y: bool);
let y = false -> x and not pre x; tel
node count(up, reset: bool) returns (n: int);
var p: int;
let p = 0 -> pre n;
  n = if reset then 0 else if up and p < LIMIT then p + 1 else p; tel
node alarm(arm, sensor, clear: bool) returns (siren: bool; m: mode);
var n: int; last: mode; hit: bool;
let assert not (arm and clear);
  hit = rise(sensor);
  last = Idle -> pre m;
  n = count(hit and last = Armed, clear);
  m = if clear then Idle else if last = Idle and arm then Armed
      else if last = Armed and n >= LIMIT then Ring else last;
  siren = m = Ring; tel
",
    inputs: 3,
    length: 4,
};

/// The tree of a text, if it has one.
fn tree_of(alloc: Global, text: &[u8]) -> Option<Ast>
    ensures tree { IfSome result (λ ast. IsTreeOfGrammar ast) }
{
    if text.len() > MOST_BYTES {
        return None;
    }
    let list = lex(alloc, text).ok()?;
    let tokens = list.as_slice();
    match crowded(tokens) {
        Some(_) => None,
        None => {
            let tree = parse(alloc, text, tokens).ok()?;
            Some(tree)
        }
    }
}

/// The network of a text, with its order, if it has one.
fn network_of(alloc: Global, text: &[u8]) -> Option<Ordered> {
    let tree = tree_of(alloc, text)?;
    if tree.decls.len() > MOST_DECLS {
        return None;
    }
    let typed = type_check(alloc, tree, WIDTH, None).ok()?;
    let network = expand(alloc, &typed).ok()?;
    order(alloc, network).ok()
}

/// A table that keeps no test, over the plan of a sample.
pub(super) fn table_of(rt: &impl Abort, alloc: Global, sample: Sample) -> Table {
    assert!(rt; 1 <= sample.length && sample.length <= MOST_LENGTH);
    let net = network_of(alloc, sample.text).expect(rt, "a network");
    let plan = plan(alloc, net.network(), sample.length)
        .ok()
        .expect(rt, "a plan");
    Table::new(alloc, net, plan).ok().expect(rt, "a table")
}

/// How many obligations the plan of a table has.
pub(super) fn duty_count(table: &Table) -> u32 {
    let plan = table.plan();
    // that there are at most 200,000 is known once the plan is read
    let _length = plan.length();
    plan.duties().len() as u32
}
