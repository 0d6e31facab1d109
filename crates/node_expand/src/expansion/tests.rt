ghost use Rattle.std.specs.Prelude.{IfSome};
ghost use Rattle.lus_syntax.specs.Grammar.{IsTreeOfGrammar};

use super::*;
use lus_syntax::{Ast, crowded, lex, parse};
use lus_types::type_check;
use std::test::Fail;

/// The most bytes, tokens and declarations that a text may have.
const LIMIT: usize = 1_048_576;

/// The tree of a text, if it has one.
fn tree_of(alloc: Global, text: &[u8]) -> Option<Ast>
    ensures { IfSome result (λ ast. IsTreeOfGrammar ast) }
{
    if text.len() > LIMIT {
        return None;
    }
    let list = lex(alloc, text).ok()?;
    let tokens = list.as_slice();
    if tokens.len() > LIMIT {
        return None;
    }
    match crowded(tokens) {
        Some(_) => None,
        None => {
            let ast = parse(alloc, text, tokens).ok()?;
            Some(ast)
        }
    }
}

/// The network of a typed text over words of 32 bits, or why it has none. None where the text isn't
/// typed.
fn network_of(alloc: Global, text: &str) -> Option<Result<Network, ExpandFault>> {
    let ast = tree_of(alloc, text.as_bytes())?;
    if ast.decls.len() > LIMIT {
        return None;
    }
    let typed = type_check(alloc, ast, 32, None).ok()?;
    Some(expand(alloc, &typed))
}

/// Why a text has no network, if it has none.
fn fault_of(alloc: Global, text: &str) -> Option<ExpandFault> {
    match network_of(alloc, text)? {
        Ok(_) => None,
        Err(fault) => Some(fault),
    }
}

/// How many edges the network of a text has, if it has one.
fn count_of(alloc: Global, text: &str) -> Option<usize> {
    let network = network_of(alloc, text)?.ok()?;
    Some(network.parts().edges.len())
}

/// Whether an edge is named and asserted, as it ends its line.
fn flags_of(edge: &Edge) -> &'static str {
    match (edge.named, edge.asserted) {
        (true, true) => " named asserted",
        (true, false) => " named",
        (false, true) => " asserted",
        (false, false) => "",
    }
}

/// An edge as a line: its name, its type, its operator, and whether it is named and asserted.
fn line_of(alloc: Global, edge: &Edge) -> Result<String, Fail> {
    let name = String::from_utf8_lossy(alloc, edge.name.bytes())?;
    let (ty, op, flags) = (edge.ty, edge.op, flags_of(edge));
    Ok(format!(in alloc; "{name}: {ty:?} = {op:?}{flags}\n")?)
}

/// The edges of a network as lines, in order.
fn lines_of(alloc: Global, network: &Network) -> Result<String, Fail> {
    let mut lines = String::new(alloc);
    for edge in network.parts().edges.as_slice() {
        let line = line_of(alloc, edge)?;
        lines.push_str(line.as_str())?;
    }
    Ok(lines)
}

/// The edges of the network of a text as lines. There are none where it has no network.
fn edges_of(alloc: Global, text: &str) -> Result<String, Fail> {
    match network_of(alloc, text) {
        Some(Ok(network)) => lines_of(alloc, &network),
        Some(Err(_)) => Ok(String::new(alloc)),
        None => Ok(String::new(alloc)),
    }
}

/// The places of edges as a text.
fn places_of(alloc: Global, ids: &[EdgeId]) -> Result<String, Fail> {
    let mut text = String::new(alloc);
    for id in ids {
        let place = id.0;
        text.push_str(format!(in alloc; " {place}")?.as_str())?;
    }
    Ok(text)
}

/// The width, the inputs, outputs and asserts of the network of a text, and its number of types.
fn ports_of(alloc: Global, text: &str) -> Result<String, Fail> {
    let Some(Ok(network)) = network_of(alloc, text) else {
        return Ok(String::new(alloc));
    };
    let parts = network.parts();
    let width = parts.width;
    let inputs = places_of(alloc, parts.inputs.as_slice())?;
    let outputs = places_of(alloc, parts.outputs.as_slice())?;
    let asserts = places_of(alloc, parts.asserts.as_slice())?;
    let types = parts.choices.len();
    Ok(format!(in alloc;
        "width {width}, inputs{inputs}, outputs{outputs}, asserts{asserts}, types {types}"
    )?)
}

const ALARM: &str = "type mode = enum { Idle, Armed, Ring };
const LIMIT = 2;
node rise(x: bool) returns (y: bool);
let y = false -> x and not pre x; tel
node count(up, reset: bool) returns (n: int);
var p: int;
let p = 0 -> pre n;
  n = if reset then 0 else if up and p < LIMIT then p + 1 else p; tel
node alarm(arm, sensor, clear: bool) returns (siren: bool; m: mode);
var n: int; last: mode; hit: bool;
let assert not (arm and clear);
  hit = rise(sensor);
  last = Idle -> pre m;
  n = count(hit and last = Armed, clear);
  m = if clear then Idle else if last = Idle and arm then Armed
      else if last = Armed and n >= LIMIT then Ring else last;
  siren = m = Ring; tel
";

const ALARM_EDGES: &str = "arm: Truth = Input(0) named
sensor: Truth = Input(1) named
clear: Truth = Input(2) named
assert#1: Truth = Not(EdgeId(4)) named asserted
assert#1#1: Truth = And(EdgeId(0), EdgeId(2)) asserted
hit: Truth = Id(EdgeId(6)) named
hit/rise#1.y: Truth = Arrow(EdgeId(7), EdgeId(8)) named
hit/rise#1.y#1: Truth = Const(Truth(false))
hit/rise#1.y#2: Truth = And(EdgeId(1), EdgeId(9))
hit/rise#1.y#3: Truth = Not(EdgeId(10))
hit/rise#1.y#4: Truth = Pre(EdgeId(1))
last: Choice(0) = Arrow(EdgeId(12), EdgeId(13)) named
last#1: Choice(0) = Const(Choice(0))
last#2: Choice(0) = Pre(EdgeId(29))
n: Word = Id(EdgeId(21)) named
n#1: Truth = And(EdgeId(5), EdgeId(16))
n#2: Truth = Eq(EdgeId(11), EdgeId(17))
n#3: Choice(0) = Const(Choice(1))
n/count#1.p: Word = Arrow(EdgeId(19), EdgeId(20)) named
n/count#1.p#1: Word = Const(Word(0))
n/count#1.p#2: Word = Pre(EdgeId(21))
n/count#1.n: Word = Ite(EdgeId(2), EdgeId(22), EdgeId(23)) named
n/count#1.n#1: Word = Const(Word(0))
n/count#1.n#2: Word = Ite(EdgeId(24), EdgeId(27), EdgeId(18))
n/count#1.n#3: Truth = And(EdgeId(15), EdgeId(25))
n/count#1.n#4: Truth = Lt(EdgeId(18), EdgeId(26))
n/count#1.n#5: Word = Const(Word(2))
n/count#1.n#6: Word = Add(EdgeId(18), EdgeId(28))
n/count#1.n#7: Word = Const(Word(1))
m: Choice(0) = Ite(EdgeId(2), EdgeId(30), EdgeId(31)) named
m#1: Choice(0) = Const(Choice(0))
m#2: Choice(0) = Ite(EdgeId(32), EdgeId(35), EdgeId(36))
m#3: Truth = And(EdgeId(33), EdgeId(0))
m#4: Truth = Eq(EdgeId(11), EdgeId(34))
m#5: Choice(0) = Const(Choice(0))
m#6: Choice(0) = Const(Choice(1))
m#7: Choice(0) = Ite(EdgeId(37), EdgeId(42), EdgeId(11))
m#8: Truth = And(EdgeId(38), EdgeId(40))
m#9: Truth = Eq(EdgeId(11), EdgeId(39))
m#10: Choice(0) = Const(Choice(1))
m#11: Truth = Ge(EdgeId(14), EdgeId(41))
m#12: Word = Const(Word(2))
m#13: Choice(0) = Const(Choice(2))
siren: Truth = Eq(EdgeId(29), EdgeId(44)) named
siren#1: Choice(0) = Const(Choice(2))
";

#[test]
fn the_alarm_controller(rt: HostRuntime) -> Result<(), Fail> {
    let found = edges_of(rt.alloc(), ALARM)?;
    assert_eq!(rt; found.as_str(), ALARM_EDGES);
    Ok(())
}

const COUNTERS: &str = "node count(b: bool) returns (n: int);
let n = if b then (0 -> pre n) + 1 else (0 -> pre n); tel
node two(p, q: bool) returns (s: int);
let s = count(p) - count(q); tel
";

const COUNTERS_EDGES: &str = "p: Truth = Input(0) named
q: Truth = Input(1) named
s: Word = Sub(EdgeId(3), EdgeId(12)) named
s/count#1.n: Word = Ite(EdgeId(0), EdgeId(4), EdgeId(9)) named
s/count#1.n#1: Word = Add(EdgeId(5), EdgeId(8))
s/count#1.n#2: Word = Arrow(EdgeId(6), EdgeId(7))
s/count#1.n#3: Word = Const(Word(0))
s/count#1.n#4: Word = Pre(EdgeId(3))
s/count#1.n#5: Word = Const(Word(1))
s/count#1.n#6: Word = Arrow(EdgeId(10), EdgeId(11))
s/count#1.n#7: Word = Const(Word(0))
s/count#1.n#8: Word = Pre(EdgeId(3))
s/count#2.n: Word = Ite(EdgeId(1), EdgeId(13), EdgeId(18)) named
s/count#2.n#1: Word = Add(EdgeId(14), EdgeId(17))
s/count#2.n#2: Word = Arrow(EdgeId(15), EdgeId(16))
s/count#2.n#3: Word = Const(Word(0))
s/count#2.n#4: Word = Pre(EdgeId(12))
s/count#2.n#5: Word = Const(Word(1))
s/count#2.n#6: Word = Arrow(EdgeId(19), EdgeId(20))
s/count#2.n#7: Word = Const(Word(0))
s/count#2.n#8: Word = Pre(EdgeId(12))
";

#[test]
fn two_calls_have_instances_of_their_own(rt: HostRuntime) -> Result<(), Fail> {
    let found = edges_of(rt.alloc(), COUNTERS)?;
    assert_eq!(rt; found.as_str(), COUNTERS_EDGES);
    Ok(())
}

const RESULTS: &str = "node pair(x: bool) returns (a, b: bool); let a = not x; b = x; tel
node main(i: bool) returns (p, q: bool); let p, q = pair(i); tel
";

const RESULTS_EDGES: &str = "i: Truth = Input(0) named
p: Truth = Id(EdgeId(3)) named
q: Truth = Id(EdgeId(4)) named
p/pair#1.a: Truth = Not(EdgeId(0)) named
p/pair#1.b: Truth = Id(EdgeId(0)) named
";

#[test]
fn a_node_with_several_results(rt: HostRuntime) -> Result<(), Fail> {
    let found = edges_of(rt.alloc(), RESULTS)?;
    assert_eq!(rt; found.as_str(), RESULTS_EDGES);
    Ok(())
}

const ARGUMENT: &str = "node f(x: bool) returns (y: bool); let y = not x; tel
node g(x: bool) returns (y: bool); let y = x; tel
node main(a: bool) returns (z: bool); let z = f(g(not a)); tel
";

const ARGUMENT_EDGES: &str = "a: Truth = Input(0) named
z: Truth = Id(EdgeId(3)) named
z#1: Truth = Not(EdgeId(0))
z/f#1.y: Truth = Not(EdgeId(4)) named
z/g#2.y: Truth = Id(EdgeId(2)) named
";

#[test]
fn a_call_as_an_argument(rt: HostRuntime) -> Result<(), Fail> {
    let found = edges_of(rt.alloc(), ARGUMENT)?;
    assert_eq!(rt; found.as_str(), ARGUMENT_EDGES);
    Ok(())
}

const ASSERTED: &str = "node f(x: bool) returns (y: bool); let y = x or not x; tel
node main(a: bool) returns (b: bool); let assert f(a); b = a; tel
";

const ASSERTED_EDGES: &str = "a: Truth = Input(0) named
assert#1: Truth = Id(EdgeId(2)) named asserted
assert#1/f#1.y: Truth = Or(EdgeId(0), EdgeId(3)) named asserted
assert#1/f#1.y#1: Truth = Not(EdgeId(0)) asserted
b: Truth = Id(EdgeId(0)) named
";

#[test]
fn calls_in_assertions(rt: HostRuntime) -> Result<(), Fail> {
    let found = edges_of(rt.alloc(), ASSERTED)?;
    assert_eq!(rt; found.as_str(), ASSERTED_EDGES);
    Ok(())
}

const ASSERTS: &str = "node g(x: bool) returns (y: bool); let assert x; y = x; tel
node main(a: bool) returns (b, c: bool); let b = g(a); assert a; c = b; assert c; tel
";

const ASSERTS_EDGES: &str = "a: Truth = Input(0) named
b: Truth = Id(EdgeId(3)) named
b/g#1.assert#1: Truth = Id(EdgeId(0)) named asserted
b/g#1.y: Truth = Id(EdgeId(0)) named
assert#1: Truth = Id(EdgeId(0)) named asserted
c: Truth = Id(EdgeId(1)) named
assert#2: Truth = Id(EdgeId(5)) named asserted
";

#[test]
fn assertions_of_instances(rt: HostRuntime) -> Result<(), Fail> {
    let found = edges_of(rt.alloc(), ASSERTS)?;
    assert_eq!(rt; found.as_str(), ASSERTS_EDGES);
    Ok(())
}

const CLOSED: &str = "node n() returns (a, b: bool); let a = false -> pre b; b = a; tel";

const CLOSED_EDGES: &str = "a: Truth = Arrow(EdgeId(1), EdgeId(2)) named
a#1: Truth = Const(Truth(false))
a#2: Truth = Pre(EdgeId(3))
b: Truth = Id(EdgeId(0)) named
";

const CONSTANT: &str = "node k() returns (y: bool); let y = true; tel
node main(x: bool) returns (z: bool); let z = x and k(); tel
";

const CONSTANT_EDGES: &str = "x: Truth = Input(0) named
z: Truth = And(EdgeId(0), EdgeId(2)) named
z/k#1.y: Truth = Const(Truth(true)) named
";

#[test]
fn a_main_node_without_inputs(rt: HostRuntime) -> Result<(), Fail> {
    let found = edges_of(rt.alloc(), CLOSED)?;
    assert_eq!(rt; found.as_str(), CLOSED_EDGES);
    Ok(())
}

#[test]
fn a_called_node_without_inputs(rt: HostRuntime) -> Result<(), Fail> {
    let found = edges_of(rt.alloc(), CONSTANT)?;
    assert_eq!(rt; found.as_str(), CONSTANT_EDGES);
    Ok(())
}

#[test]
fn ports_of_networks(rt: HostRuntime) -> Result<(), Fail> {
    let found = ports_of(rt.alloc(), ALARM)?;
    assert_eq!(rt;
        found.as_str(),
        "width 32, inputs 0 1 2, outputs 43 29, asserts 3, types 1"
    );
    let found = ports_of(rt.alloc(), ASSERTS)?;
    assert_eq!(rt;
        found.as_str(),
        "width 32, inputs 0, outputs 1 5, asserts 2 4 6, types 0"
    );
    Ok(())
}

/// The node of a number, which calls the one before, once or twice.
fn caller(alloc: Global, number: u32, twice: bool) -> Result<String, Fail> {
    let callee = number.saturating_sub(1);
    let call = if twice {
        format!(in alloc; "not n{callee}(n{callee}(x))")?
    } else {
        format!(in alloc; "n{callee}(x)")?
    };
    Ok(format!(in alloc; "node n{number}(x: bool) returns (y: bool); let y = {call}; tel\n")?)
}

/// So many nodes, of which each but the first calls the one before, once or twice.
fn tower(alloc: Global, count: u32, twice: bool) -> Result<String, Fail> {
    let mut text = String::from_str(
        alloc,
        "node n0(x: bool) returns (y: bool); let y = not x; tel\n",
    )?;
    for number in 1..count {
        let node = caller(alloc, number, twice)?;
        text.push_str(node.as_str())?;
    }
    Ok(text)
}

/// Why a tower has no network, if it has none.
fn fault_of_tower(alloc: Global, count: u32, twice: bool) -> Result<Option<ExpandFault>, Fail> {
    let text = tower(alloc, count, twice)?;
    Ok(fault_of(alloc, text.as_str()))
}

/// How many edges the network of a tower has, with a further node behind it.
fn count_of_tower(
    alloc: Global,
    count: u32,
    twice: bool,
    last: &str,
) -> Result<Option<usize>, Fail> {
    let mut text = tower(alloc, count, twice)?;
    text.push_str(last)?;
    Ok(count_of(alloc, text.as_str()))
}

#[test]
fn depth_of_calls(rt: HostRuntime) -> Result<(), Fail> {
    assert_eq!(rt; count_of_tower(rt.alloc(), 100, false, "")?, Some(101));
    assert_eq!(rt;
        fault_of_tower(rt.alloc(), 101, false)?,
        Some(ExpandFault::Depth)
    );
    Ok(())
}

/// No edge is made of a network that is refused: else these would take 2^60 edges and more.
#[test]
fn towers_of_calls(rt: HostRuntime) -> Result<(), Fail> {
    assert_eq!(rt;
        fault_of_tower(rt.alloc(), 60, true)?,
        Some(ExpandFault::Edges)
    );
    assert_eq!(rt;
        fault_of_tower(rt.alloc(), 100, true)?,
        Some(ExpandFault::Edges)
    );
    assert_eq!(rt;
        fault_of_tower(rt.alloc(), 101, true)?,
        Some(ExpandFault::Depth)
    );
    Ok(())
}

const LARGEST: &str = "node m(x: bool) returns (y: bool); let y = not n11(n11(x)); tel";

const TOO_LARGE: &str = "node m(x, z: bool) returns (y: bool); let y = not n11(n11(x)); tel";

/// The k-th node has 2^(k+1) - 1 edges: a `not` and twice those of the one before.
#[test]
fn number_of_edges(rt: HostRuntime) -> Result<(), Fail> {
    let alloc = rt.alloc();
    assert_eq!(rt; count_of_tower(alloc, 12, true, "")?, Some(4096));
    assert_eq!(rt; count_of_tower(alloc, 12, true, LARGEST)?, Some(8192));
    let mut text = tower(alloc, 12, true)?;
    text.push_str(TOO_LARGE)?;
    assert_eq!(rt; fault_of(alloc, text.as_str()), Some(ExpandFault::Edges));
    Ok(())
}
