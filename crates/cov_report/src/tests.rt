ghost use Rattle.std.specs.Prelude.{All, IfOk};
ghost use Rattle.cov_report.specs.Json.{IsPrintable};
ghost use Rattle.cov_report.specs.Scores.{IsWithin};

use crate::{TestLine, duty_text, score_json, score_text, stream_line};
use cov_base::{List, Text};
use dep_paths::{Plan, Score, plan};
use op_network::{Choice, Edge, EdgeId, Network, Op, Parts, Ty, Value};
use std::alloc::Global;
use std::process::Abort;
use std::test::Fail;

fn add(alloc: Global, name: &str, op: Op, ty: Ty, edges: &mut List<Edge>) -> Result<(), Fail> {
    edges.push(Edge {
        op,
        ty,
        name: Text::from_bytes(alloc, name.as_bytes())?,
        named: true,
        asserted: false,
    })?;
    Ok(())
}

/// The parts of a network with edge 1 as its output.
fn parts_of(
    alloc: Global,
    choices: List<Choice>,
    edges: List<Edge>,
    inputs: &[EdgeId],
) -> Result<Parts, Fail> {
    let mut all_inputs = List::new(alloc);
    all_inputs.extend_from_slice(inputs)?;
    let mut outputs = List::new(alloc);
    outputs.push(EdgeId(1))?;
    Ok(Parts {
        width: 32,
        choices,
        edges,
        inputs: all_inputs,
        outputs,
        asserts: List::new(alloc),
    })
}

fn network(rt: &impl Abort, parts: Parts) -> Network {
    assert!(rt; parts.valid());
    Network::build(parts)
}

/// The edges of `y = false -> x and not pre x`.
fn edges_of_rising_edge(alloc: Global) -> Result<List<Edge>, Fail> {
    let mut edges = List::new(alloc);
    let y = Op::Arrow(EdgeId(2), EdgeId(3));
    let first = Op::Const(Value::Truth(false));
    let later = Op::And(EdgeId(0), EdgeId(4));
    add(alloc, "x", Op::Input(0), Ty::Truth, &mut edges)?;
    add(alloc, "y", y, Ty::Truth, &mut edges)?;
    add(alloc, "y#1", first, Ty::Truth, &mut edges)?;
    add(alloc, "y#2", later, Ty::Truth, &mut edges)?;
    add(alloc, "y#3", Op::Not(EdgeId(5)), Ty::Truth, &mut edges)?;
    add(alloc, "y#4", Op::Pre(EdgeId(0)), Ty::Truth, &mut edges)?;
    Ok(edges)
}

fn rising_edge(rt: &impl Abort, alloc: Global) -> Result<Network, Fail> {
    let edges = edges_of_rising_edge(alloc)?;
    let parts = parts_of(alloc, List::new(alloc), edges, &[EdgeId(0)])?;
    Ok(network(rt, parts))
}

/// The modes `Idle` and `Ring`.
fn mode(alloc: Global) -> Result<Choice, Fail> {
    let mut names = List::new(alloc);
    for name in ["Idle", "Ring"] {
        names.push(Text::from_bytes(alloc, name.as_bytes())?)?;
    }
    let name = Text::from_bytes(alloc, b"mode")?;
    Ok(Choice { name, names })
}

fn edges_of_each_type(alloc: Global) -> Result<List<Edge>, Fail> {
    let mut edges = List::new(alloc);
    add(alloc, "b", Op::Input(0), Ty::Truth, &mut edges)?;
    add(alloc, "w", Op::Input(1), Ty::Word, &mut edges)?;
    add(alloc, "m", Op::Input(2), Ty::Choice(0), &mut edges)?;
    Ok(edges)
}

/// Inputs `b` of truths, `w` of words, and `m` of modes.
fn inputs_of_each_type(rt: &impl Abort, alloc: Global) -> Result<Network, Fail> {
    let mut choices = List::new(alloc);
    choices.push(mode(alloc)?)?;
    let edges = edges_of_each_type(alloc)?;
    let parts = parts_of(alloc, choices, edges, &[EdgeId(0), EdgeId(1), EdgeId(2)])?;
    Ok(network(rt, parts))
}

/// A list that holds what stood there before.
fn begun(alloc: Global) -> Result<List<u8>, Fail> {
    let mut out = List::new(alloc);
    out.extend_from_slice(b"> ")?;
    Ok(out)
}

/// The obligation with this number, from 1, has this text.
fn duty_is(
    rt: &impl Abort,
    alloc: Global,
    net: &Network,
    plan: &Plan,
    number: u32,
    text: &str,
) -> Result<(), Fail> {
    let mut out = begun(alloc)?;
    assert!(rt; 1 <= number && number as usize <= plan.duties().len());
    duty_text(net, plan, number - 1, &mut out)?;
    assert!(rt; out.as_slice() == text.as_bytes(), "{number}");
    Ok(())
}

#[test]
fn obligations(rt: HostRuntime) -> Result<(), Fail> {
    let alloc = rt.alloc();
    let net = rising_edge(&rt, alloc)?;
    let plan = plan(alloc, &net, 5)?;
    for (number, text) in [
        (2, "> BC x > y#4:0 > y#3:0 > y#2:1 > y:1"),
        (3, "> ECC x > y#2:0 > y:1 at 0 true"),
        (4, "> ECC x > y#2:0 > y:1 at 0 false"),
        (8, "> MCC x > y#2:0 > y:1 at 0 false"),
        (10, "> MCC x > y#2:0 > y:1 at 1 false"),
        (12, "> MCC x > y#2:0 > y:1 at 2 false"),
    ] {
        duty_is(&rt, alloc, &net, &plan, number, text)?;
    }
    Ok(())
}

#[test]
fn an_obligation_with_nothing_to_pin(rt: HostRuntime) -> Result<(), Fail> {
    let alloc = rt.alloc();
    let net = inputs_of_each_type(&rt, alloc)?;
    let plan = plan(alloc, &net, 1)?;
    duty_is(&rt, alloc, &net, &plan, 2, "> ECC w")
}

/// The stream of an edge has this text.
fn streams_are(
    rt: &impl Abort,
    alloc: Global,
    e: EdgeId,
    values: &[Value],
    text: &str,
) -> Result<(), Fail> {
    let mut out = begun(alloc)?;
    stream_line(&inputs_of_each_type(rt, alloc)?, e, values, &mut out)?;
    assert!(rt; out.as_slice() == text.as_bytes());
    Ok(())
}

#[test]
fn streams(rt: HostRuntime) -> Result<(), Fail> {
    let alloc = rt.alloc();
    let truths = [Value::Truth(false), Value::Truth(true)];
    streams_are(&rt, alloc, EdgeId(0), &truths, "> b 0 1\n")?;
    let words = [Value::Word(-7), Value::Word(40)];
    streams_are(&rt, alloc, EdgeId(1), &words, "> w -7 40\n")?;
    let modes = [Value::Choice(1), Value::Choice(0)];
    streams_are(&rt, alloc, EdgeId(2), &modes, "> m Ring Idle\n")?;
    streams_are(&rt, alloc, EdgeId(2), &[], "> m\n")
}

fn score(covered: u32, total: u32) -> Score
    requires { IsWithin (record { covered = covered; total = total }) }
    ensures { IsWithin result }
{
    Score { covered, total }
}

/// The scores of a suite over the rising edge.
fn scores() -> [Score; 4]
    ensures { All IsWithin result }
{
    [score(2, 2), score(3, 4), score(13, 16), score(5, 6)]
}

#[test]
fn scores_stand_in_order(rt: HostRuntime) -> Result<(), Fail> {
    let mut out = begun(rt.alloc())?;
    score_text(&scores(), &mut out)?;
    let text = "> BC 2/2 100.0%\nECC 3/4 75.0%\nMCC 13/16 81.2%\nOMCDC 5/6 83.3%\n";
    assert!(rt; out.as_slice() == text.as_bytes());
    Ok(())
}

fn test_line(
    rt: &impl Abort,
    alloc: Global,
    name: &str,
    instants: u32,
    kept: u32,
) -> Result<TestLine, Fail>
    ensures { IfOk result (λ test. IsPrintable test.name) }
{
    for byte in name.as_bytes() {
        assert!(rt; 0x21 <= *byte);
        assert!(rt; *byte <= 0x7E);
    }
    let name = Text::from_bytes(alloc, name.as_bytes())?;
    Ok(TestLine {
        name,
        instants,
        kept,
    })
}

/// The JSON of this test alone, and these missing obligations, has this text.
fn json_is(
    rt: &impl Abort,
    alloc: Global,
    test: TestLine,
    missing: &[u32],
    text: &str,
) -> Result<(), Fail>
    requires { IsPrintable test.name }
{
    let mut out = begun(alloc)?;
    score_json(alloc, &[test], &scores(), missing, &mut out)?;
    assert!(rt; out.as_slice() == text.as_bytes());
    Ok(())
}

#[test]
fn json_of_the_rising_edge(rt: HostRuntime) -> Result<(), Fail> {
    let alloc = rt.alloc();
    let test = test_line(&rt, alloc, "a", 3, 3)?;
    let missing = [4, 8, 10, 12, 24];
    let text = "> {\"missing\":[4,8,10,12,24],\
        \"scores\":[{\"covered\":2,\"criterion\":\"BC\",\"total\":2},\
        {\"covered\":3,\"criterion\":\"ECC\",\"total\":4},\
        {\"covered\":13,\"criterion\":\"MCC\",\"total\":16},\
        {\"covered\":5,\"criterion\":\"OMCDC\",\"total\":6}],\
        \"tests\":[{\"instants\":3,\"kept\":3,\"name\":\"a\"}]}\n";
    json_is(&rt, alloc, test, &missing, text)
}

#[test]
fn json_of_a_name_with_escapes(rt: HostRuntime) -> Result<(), Fail> {
    let alloc = rt.alloc();
    let test = test_line(&rt, alloc, "q\"\\/~", 4_294_967_295, 2)?;
    let text = "> {\"missing\":[],\
        \"scores\":[{\"covered\":2,\"criterion\":\"BC\",\"total\":2},\
        {\"covered\":3,\"criterion\":\"ECC\",\"total\":4},\
        {\"covered\":13,\"criterion\":\"MCC\",\"total\":16},\
        {\"covered\":5,\"criterion\":\"OMCDC\",\"total\":6}],\
        \"tests\":[{\"instants\":4294967295,\"kept\":2,\"name\":\"q\\\"\\\\/~\"}]}\n";
    json_is(&rt, alloc, test, &[], text)
}
