//! A search has to find a test for exactly the obligations that the sequences of k instants cover
//! together: shorter ones cover no more, since a longer one covers what those it begins with do.
use super::programs::{
    ALARM, ASSERTED, CONTRADICTION, NOTHING_ADMITTED, NOTHING_ADMITTED_LATER, RISE, Sample,
    duty_count, table_of,
};
use super::sequences::{covers, prefix, table_of_all};
use cnf_form::write_dimacs;
use cov_base::{List, Text};
use goal_cnf::{decode, goal};
use op_network::Test;
use sat_core::{Verdict, solve_plain};
use score_table::Table;
use std::alloc::Global;
use std::process::Abort;
use std::test::Fail;
use unroll_cnf::unroll;

/// How many clauses a search may learn.
const BUDGET: u64 = 10_000;

/// The test of at most k instants that a search finds for an obligation. None where it refutes that
/// there is one.
#[tactic(auto, using(crate::proofs::Own::own_instants, crate::proofs::Own::own_size))]
fn search(
    rt: &impl Abort,
    alloc: Global,
    table: &Table,
    o: u32,
    k: u32,
) -> Result<Option<Test>, Fail> {
    assert!(rt; 1 <= k && k <= 32);
    let net = table.network();
    let plan = table.plan();
    assert!(rt; (o as usize) < plan.duties().len());
    let un = unroll(alloc, net, k)?;
    let goal = goal(alloc, &un, net, plan, o)?;
    match solve_plain(alloc, &goal.formula, BUDGET)? {
        Verdict::Found(bits) => {
            let name = Text::from_bytes(alloc, b"found")?;
            Ok(Some(decode(alloc, &un, net, plan, o, &goal, &bits, name)?))
        }
        Verdict::Refuted(_) => Ok(None),
        Verdict::Spent(_) => panic!(rt; "the budget is spent"),
    }
}

/// The goal of an obligation within one instant, as text.
#[tactic(auto, using(crate::proofs::Own::own_instants, crate::proofs::Own::own_size))]
fn goal_text(rt: &impl Abort, alloc: Global, sample: Sample, o: u32) -> Result<List<u8>, Fail> {
    let table = table_of(rt, alloc, sample);
    let net = table.network();
    let plan = table.plan();
    assert!(rt; (o as usize) < plan.duties().len());
    let un = unroll(alloc, net, 1)?;
    let goal = goal(alloc, &un, net, plan, o)?;
    let mut text = List::new(alloc);
    write_dimacs(&goal.formula, &mut text)?;
    Ok(text)
}

/// The test that was found has the name that was handed in, counts whole, and covers the obligation
/// at its last instant and no earlier.
fn check_found(rt: &impl Abort, alloc: Global, sample: Sample, test: Test, o: u32, k: u32) {
    let instants = test.instants;
    assert!(rt; test.name.bytes() == b"found".as_slice());
    assert!(rt; 1 <= instants && instants <= k);
    let before = prefix(rt, alloc, &test, sample.inputs, instants - 1);
    assert!(rt; !covers(rt, alloc, sample, before, o));
    assert!(rt; covers(rt, alloc, sample, test, o));
}

/// Whether a search finds a test for an obligation: it has to, exactly where the sequences of the
/// table cover it.
fn is_reached(
    rt: &impl Abort,
    alloc: Global,
    sample: Sample,
    table: &Table,
    o: u32,
    k: u32,
) -> Result<bool, Fail> {
    match search(rt, alloc, table, o, k)? {
        Some(test) => {
            assert!(rt; table.covered(o));
            check_found(rt, alloc, sample, test, o, k);
            Ok(true)
        }
        None => {
            assert!(rt; !table.covered(o));
            Ok(false)
        }
    }
}

/// The numbers of the obligations, from 1, that can't be reached within k instants.
fn unreachable(rt: &impl Abort, alloc: Global, sample: Sample, k: u32) -> Result<List<u32>, Fail> {
    let mut numbers = List::new(alloc);
    let table = table_of_all(rt, alloc, sample, k);
    for o in 0..duty_count(&table) {
        if !is_reached(rt, alloc, sample, &table, o, k)? {
            numbers.add(o.saturating_add(1))?;
        }
    }
    Ok(numbers)
}

/// At the first instant the output reads the constant alone, so none of the 28 obligations is
/// reached; within two instants all are.
#[test]
fn a_rise_takes_two_instants(rt: HostRuntime) -> Result<(), Fail> {
    let first = unreachable(&rt, rt.alloc(), RISE, 1)?;
    assert!(rt; first.len() == 28);
    let second = unreachable(&rt, rt.alloc(), RISE, 2)?;
    assert!(rt; second.len() == 0);
    Ok(())
}

/// The short path is active where x is false, and the long one where x is true; the output is
/// always false. The condition at port 0 of `and` is observed where x is false, and that at the
/// port of `not`, whose tag goes on through port 1 of `and`, where x is true.
#[test]
fn a_contradiction_misses_nine_of_twenty(rt: HostRuntime) -> Result<(), Fail> {
    for k in 1..3 {
        let numbers = unreachable(&rt, rt.alloc(), CONTRADICTION, k)?;
        let expected = [3, 6, 7, 9, 12, 13, 15, 17, 20];
        assert!(rt; numbers.as_slice() == expected.as_slice());
    }
    Ok(())
}

/// Each of the nine obligations is met by runs, but no run is admissible.
#[test]
fn nothing_is_reached_where_nothing_is_admitted(rt: HostRuntime) -> Result<(), Fail> {
    for k in 1..3 {
        let numbers = unreachable(&rt, rt.alloc(), NOTHING_ADMITTED, k)?;
        assert!(rt; numbers.as_slice() == [1, 2, 3, 4, 5, 6, 7, 8, 9].as_slice());
    }
    Ok(())
}

/// An obligation that is met at the first instant isn't asked for an admissible second one.
#[test]
fn later_instants_are_not_asked(rt: HostRuntime) -> Result<(), Fail> {
    for k in 1..3 {
        let numbers = unreachable(&rt, rt.alloc(), NOTHING_ADMITTED_LATER, k)?;
        assert!(rt; numbers.len() == 0);
    }
    Ok(())
}

/// The count is 2 at the fourth instant at the earliest, and with it the alarm rings. Where
/// `p < LIMIT` is false (35) it rang already, so `up` is false and hides that: no k reaches it.
/// `last = Armed` is false where `n >= LIMIT` lets it be seen (43) from the fifth instant on.
#[test]
fn the_alarm_rings_within_four_instants(rt: HostRuntime) -> Result<(), Fail> {
    let numbers = unreachable(&rt, rt.alloc(), ALARM, 4)?;
    assert!(rt; numbers.as_slice() == [35, 43].as_slice());
    Ok(())
}

/// Variable 1 is true and 2 is the input. The pin is 3, what is admitted 4, and the hit 5.
#[test]
fn the_goal_of_a_path(rt: HostRuntime) -> Result<(), Fail> {
    let text = goal_text(&rt, rt.alloc(), ASSERTED, 1)?;
    let expected = b"p cnf 5 11
1 0
-3 1 0
-3 2 0
3 -1 -2 0
-4 1 0
-4 2 0
4 -1 -2 0
-5 4 0
-5 3 0
5 -4 -3 0
5 0
";
    assert!(rt; text.as_slice() == expected.as_slice());
    Ok(())
}

/// The tag of the asserted edge is 3. At the port of the output the condition starts where the
/// input is false (4), which is the output's tag (5) and makes it observed (6); what is admitted is
/// 7, and the hit 8.
#[test]
fn the_goal_of_a_condition(rt: HostRuntime) -> Result<(), Fail> {
    let text = goal_text(&rt, rt.alloc(), ASSERTED, 8)?;
    let expected = b"p cnf 8 20
1 0
3 1 0
3 1 0
-3 -1 0
4 1 0
4 2 0
-4 -1 -2 0
5 1 0
5 -4 0
-5 -1 4 0
6 1 0
6 -5 0
-6 -1 5 0
-7 1 0
-7 2 0
7 -1 -2 0
-8 7 0
-8 6 0
8 -7 -6 0
8 0
";
    assert!(rt; text.as_slice() == expected.as_slice());
    Ok(())
}
