use super::*;
use cov_base::{List, Text};
use op_network::{Choice, Edge, EdgeId, Network, Op, Parts, Test, Ty, Value};
use std::alloc::Global;
use std::process::Abort;
use std::test::Fail;

fn names_of(alloc: Global, names: &[&str]) -> Result<List<Text>, Fail> {
    let mut texts = List::new(alloc);
    for name in names {
        texts.add(Text::from_bytes(alloc, name.as_bytes())?)?;
    }
    Ok(texts)
}

fn choice_of(alloc: Global, name: &str, names: &[&str]) -> Result<Choice, Fail> {
    Ok(Choice {
        name: Text::from_bytes(alloc, name.as_bytes())?,
        names: names_of(alloc, names)?,
    })
}

/// Parts of these inputs alone, with two enumerated types.
fn parts_of(alloc: Global, width: u32, inputs: &[(&str, Ty)]) -> Result<Parts, Fail> {
    let mut edges = List::new(alloc);
    let mut places = List::new(alloc);
    for (place, (name, ty)) in (0u32..).zip(inputs) {
        edges.add(Edge {
            op: Op::Input(place),
            ty: *ty,
            name: Text::from_bytes(alloc, name.as_bytes())?,
            named: true,
            asserted: false,
        })?;
        places.add(EdgeId(place))?;
    }
    let mut choices = List::new(alloc);
    choices.add(choice_of(alloc, "mode", &["Idle", "Ring"])?)?;
    choices.add(choice_of(alloc, "colour", &["Red", "Idle"])?)?;
    Ok(Parts {
        width,
        choices,
        edges,
        inputs: places,
        outputs: List::new(alloc),
        asserts: List::new(alloc),
    })
}

fn network(rt: &impl Abort, parts: Parts) -> Network {
    assert!(rt; parts.valid());
    Network::build(parts)
}

/// The network of a truth, a word of 8 bits and an enumerated type.
fn three_inputs(rt: &impl Abort, alloc: Global) -> Result<Network, Fail> {
    let inputs = [("x", Ty::Truth), ("i", Ty::Word), ("m", Ty::Choice(0))];
    Ok(network(rt, parts_of(alloc, 8, &inputs)?))
}

/// Asks that a text is read, and then written as another.
fn rewrites(
    rt: &impl Abort,
    alloc: Global,
    net: &Network,
    text: &str,
    want: &str,
) -> Result<(), Fail> {
    let tests = read_suite(alloc, text.as_bytes(), net)?;
    let mut written = List::new(alloc);
    for test in tests.as_slice() {
        assert!(rt; net.fits(test), "{text:?}");
    }
    write_suite(alloc, net, tests.as_slice(), &mut written)?;
    assert_eq!(rt; written.as_slice(), want.as_bytes(), "{text:?}");
    Ok(())
}

/// Asks that a text is refused at a record, a column and for a kind.
fn refuses(
    rt: &impl Abort,
    alloc: Global,
    net: &Network,
    text: &str,
    row: u32,
    column: u32,
    kind: SuiteKind,
) {
    let fault = SuiteFault::Bad { row, column, kind };
    let answer = read_suite(alloc, text.as_bytes(), net);
    assert_eq!(rt; answer.err(), Some(fault), "{text:?}");
}

/// Asks that a test has this name and these values.
fn is_test(rt: &impl Abort, test: &Test, name: &[u8], instants: u32, values: &[Value]) {
    assert_eq!(rt; test.name.bytes(), name);
    assert_eq!(rt; test.instants, instants);
    assert_eq!(rt; test.values.as_slice(), values);
}

#[test]
fn reads_tests_instant_by_instant(rt: HostRuntime) -> Result<(), Fail> {
    let alloc = rt.alloc();
    let net = three_inputs(&rt, alloc)?;
    let text = b"test,m,i,x\na,Ring,-128,false\na,Idle,127,1\nb,Idle,-0,true\n";
    let tests = read_suite(alloc, text, &net)?;
    let a = [
        Value::Truth(false),
        Value::Word(-128),
        Value::Choice(1),
        Value::Truth(true),
        Value::Word(127),
        Value::Choice(0),
    ];
    let b = [Value::Truth(true), Value::Word(0), Value::Choice(0)];
    let tests = tests.as_slice();
    assert_eq!(rt; tests.len(), 2);
    is_test(&rt, &tests[0], b"a", 2, &a);
    is_test(&rt, &tests[1], b"b", 1, &b);
    Ok(())
}

/// Texts of suites, and the texts that their tests are written as.
const SPELLINGS: [(&str, &str); 9] = [
    ("test,x,i,m\na,1,-8,Ring\n", "test,x,i,m\na,1,-8,Ring\n"),
    ("test,x,i,m", "test,x,i,m\n"),
    ("\u{FEFF}test,x,i,m\na,0,1,Idle", "test,x,i,m\na,0,1,Idle\n"),
    ("\u{FEFF}\u{FEFF}test,x,i,m", "test,x,i,m\n"),
    (
        "\"test\",\"x\",i,m\n\"a,\"\"b\",\"1\",1,\"Ring\"",
        "test,x,i,m\n\"a,\"\"b\",1,1,Ring\n",
    ),
    (
        "test,x,i,m\r\na,true,7,Ring\r\na,false,7,Idle\r\n",
        "test,x,i,m\na,1,7,Ring\na,0,7,Idle\n",
    ),
    (
        " test\t,x , i,m\n a ,\ttrue, 007,Ring \n",
        "test,x,i,m\na,1,7,Ring\n",
    ),
    (
        "test,m,i,x\na,Ring,-128,0\nb,Idle,-0,1\n",
        "test,x,i,m\na,0,-128,Ring\nb,1,0,Idle\n",
    ),
    (
        "\ntest,x,i,m\n\n\na,1,1,Idle\n\n",
        "test,x,i,m\na,1,1,Idle\n",
    ),
];

#[test]
fn reads_each_spelling(rt: HostRuntime) -> Result<(), Fail> {
    let alloc = rt.alloc();
    let net = three_inputs(&rt, alloc)?;
    for (text, want) in SPELLINGS {
        rewrites(&rt, alloc, &net, text, want)?;
    }
    Ok(())
}

/// Headers at fault, with the column and the kind of the first fault.
const HEADERS: [(&str, u32, SuiteKind); 12] = [
    ("", 0, SuiteKind::NoHeader),
    ("\n\r\n", 0, SuiteKind::NoHeader),
    ("\u{FEFF}", 0, SuiteKind::NoHeader),
    (
        "\u{FEFF}\u{FEFF}\u{FEFF}test,x,i,m",
        0,
        SuiteKind::NoTestColumn,
    ),
    ("x,test,i,m", 0, SuiteKind::NoTestColumn),
    ("Test,x,i,m", 0, SuiteKind::NoTestColumn),
    ("test,x,y,x", 2, SuiteKind::UnknownColumn),
    ("test,x,i,m,", 4, SuiteKind::UnknownColumn),
    ("test,x,x,y", 2, SuiteKind::RepeatedColumn),
    ("test,x,i,m,i", 4, SuiteKind::RepeatedColumn),
    ("test,m,x", 0, SuiteKind::MissingColumn),
    ("test\na,1", 0, SuiteKind::MissingColumn),
];

#[test]
fn refuses_other_headers(rt: HostRuntime) -> Result<(), Fail> {
    let alloc = rt.alloc();
    let net = three_inputs(&rt, alloc)?;
    for (text, column, kind) in HEADERS {
        refuses(&rt, alloc, &net, text, 0, column, kind);
    }
    Ok(())
}

/// Records at fault behind a header, with the record, the column and the kind of the first fault.
const RECORDS: [(&str, u32, u32, SuiteKind); 19] = [
    ("a,1,1", 1, 0, SuiteKind::Width),
    ("a b,2,1,Idle,", 1, 0, SuiteKind::Width),
    (",2,1,Idle", 1, 0, SuiteKind::BadName),
    ("a b,1,1,Idle", 1, 0, SuiteKind::BadName),
    ("é,1,1,Idle", 1, 0, SuiteKind::BadName),
    (
        "12345678901234567890123456789012345678901234567890123456789012345,1,1,Idle",
        1,
        0,
        SuiteKind::BadName,
    ),
    (
        "a,1,1,Idle\nb,1,1,Idle\na,2,1,Idle",
        3,
        0,
        SuiteKind::SplitTest,
    ),
    ("a,2,128,Idle", 1, 1, SuiteKind::BadValue),
    ("a,True,1,Idle", 1, 1, SuiteKind::BadValue),
    ("a,1,128,Red", 1, 2, SuiteKind::BadValue),
    ("a,1,-129,Idle", 1, 2, SuiteKind::BadValue),
    ("a,1,+1,Idle", 1, 2, SuiteKind::BadValue),
    ("a,1,-,Idle", 1, 2, SuiteKind::BadValue),
    ("a,1,,Idle", 1, 2, SuiteKind::BadValue),
    ("a,1,4294967297,Idle", 1, 2, SuiteKind::BadValue),
    ("a,1,1,Red", 1, 3, SuiteKind::BadValue),
    ("a,1,1,idle", 1, 3, SuiteKind::BadValue),
    ("a,1,1,0", 1, 3, SuiteKind::BadValue),
    ("a,1,1,Idle\na,1,x,Red", 2, 2, SuiteKind::BadValue),
];

#[test]
fn refuses_other_records(rt: HostRuntime) -> Result<(), Fail> {
    let alloc = rt.alloc();
    let net = three_inputs(&rt, alloc)?;
    for (records, row, column, kind) in RECORDS {
        let text = format!(in alloc; "test,x,i,m\n{records}")?;
        refuses(&rt, alloc, &net, text.as_str(), row, column, kind);
    }
    Ok(())
}

#[test]
fn reads_suites_of_one_truth(rt: HostRuntime) -> Result<(), Fail> {
    let alloc = rt.alloc();
    let net = network(&rt, parts_of(alloc, 32, &[("x", Ty::Truth)])?);
    for text in ["test,x\na,0\na,1\na,1\n", "test,x\n"] {
        rewrites(&rt, alloc, &net, text, text)?;
    }
    for (text, row, column, kind) in [
        ("", 0, 0, SuiteKind::NoHeader),
        ("test,x\na,1\nb,0\na,1\n", 3, 0, SuiteKind::SplitTest),
        ("test,x\na,2\n", 1, 1, SuiteKind::BadValue),
    ] {
        refuses(&rt, alloc, &net, text, row, column, kind);
    }
    Ok(())
}

#[test]
fn reads_words_of_four_bits(rt: HostRuntime) -> Result<(), Fail> {
    let alloc = rt.alloc();
    let net = network(&rt, parts_of(alloc, 4, &[("i", Ty::Word)])?);
    for text in ["test,i\nt,0\ngen8,7\n", "test,i\nt,-8\n"] {
        rewrites(&rt, alloc, &net, text, text)?;
    }
    for text in ["test,i\nt,8\n", "test,i\nt,-9\n"] {
        refuses(&rt, alloc, &net, text, 1, 1, SuiteKind::BadValue);
    }
    Ok(())
}

#[test]
fn reads_instants_without_inputs(rt: HostRuntime) -> Result<(), Fail> {
    let alloc = rt.alloc();
    let net = network(&rt, parts_of(alloc, 32, &[])?);
    rewrites(&rt, alloc, &net, "test\nt\nt", "test\nt\nt\n")
}

#[test]
fn reads_a_name_of_64_bytes(rt: HostRuntime) -> Result<(), Fail> {
    let alloc = rt.alloc();
    let net = three_inputs(&rt, alloc)?;
    let name = "1234567890123456789012345678901234567890123456789012345678901234";
    let text = format!(in alloc; "test,x,i,m\n{name},1,1,Idle\n")?;
    rewrites(&rt, alloc, &net, text.as_str(), text.as_str())
}
