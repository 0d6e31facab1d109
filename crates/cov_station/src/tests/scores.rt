//! What `score` prints: the tests, the scores, and the obligations that are missing.

use super::{ALARM, DAY, EDGE, SUITE, score};
use std::alloc::Global;
use std::test::Fail;

/// What the score of the example over its suite prints.
pub(super) const EXAMPLE: &[u8] = b"test a 3 3
BC 2/2 100.0%
ECC 3/4 75.0%
MCC 13/16 81.2%
OMCDC 5/6 83.3%
missing 4 ECC x > y#2:0 > y:1 at 0 false
missing 8 MCC x > y#2:0 > y:1 at 0 false
missing 10 MCC x > y#2:0 > y:1 at 1 false
missing 12 MCC x > y#2:0 > y:1 at 2 false
missing 24 OMCDC y#2:0 false
";

#[test]
fn the_example(rt: HostRuntime) -> Result<(), Fail> {
    score(&rt, EDGE, SUITE, &["--length", "5"], EXAMPLE)
}

#[test]
fn shorter_paths_alone(rt: HostRuntime) -> Result<(), Fail> {
    score(
        &rt,
        EDGE,
        SUITE,
        &["--length", "3"],
        b"test a 3 3
BC 1/1 100.0%
ECC 1/2 50.0%
MCC 3/6 50.0%
OMCDC 5/6 83.3%
missing 3 ECC x > y#2:0 > y:1 at 0 false
missing 5 MCC x > y#2:0 > y:1 at 0 false
missing 7 MCC x > y#2:0 > y:1 at 1 false
missing 9 MCC x > y#2:0 > y:1 at 2 false
missing 11 OMCDC y#2:0 false
",
    )?;
    score(
        &rt,
        EDGE,
        SUITE,
        &["--length", "2"],
        b"test a 3 3
BC 0/0 -
ECC 0/0 -
MCC 0/0 -
OMCDC 5/6 83.3%
missing 2 OMCDC y#2:0 false
",
    )
}

#[test]
fn without_a_test_all_is_missing(rt: HostRuntime) -> Result<(), Fail> {
    score(
        &rt,
        EDGE,
        b"test,x\n",
        &["--length", "5"],
        b"BC 0/2 0.0%
ECC 0/4 0.0%
MCC 0/16 0.0%
OMCDC 0/6 0.0%
missing 1 BC x > y#2:0 > y:1
missing 2 BC x > y#4:0 > y#3:0 > y#2:1 > y:1
missing 3 ECC x > y#2:0 > y:1 at 0 true
missing 4 ECC x > y#2:0 > y:1 at 0 false
missing 5 ECC x > y#4:0 > y#3:0 > y#2:1 > y:1 at 0 true
missing 6 ECC x > y#4:0 > y#3:0 > y#2:1 > y:1 at 0 false
missing 7 MCC x > y#2:0 > y:1 at 0 true
missing 8 MCC x > y#2:0 > y:1 at 0 false
missing 9 MCC x > y#2:0 > y:1 at 1 true
missing 10 MCC x > y#2:0 > y:1 at 1 false
missing 11 MCC x > y#2:0 > y:1 at 2 true
missing 12 MCC x > y#2:0 > y:1 at 2 false
missing 13 MCC x > y#4:0 > y#3:0 > y#2:1 > y:1 at 0 true
missing 14 MCC x > y#4:0 > y#3:0 > y#2:1 > y:1 at 0 false
missing 15 MCC x > y#4:0 > y#3:0 > y#2:1 > y:1 at 1 true
missing 16 MCC x > y#4:0 > y#3:0 > y#2:1 > y:1 at 1 false
missing 17 MCC x > y#4:0 > y#3:0 > y#2:1 > y:1 at 2 true
missing 18 MCC x > y#4:0 > y#3:0 > y#2:1 > y:1 at 2 false
missing 19 MCC x > y#4:0 > y#3:0 > y#2:1 > y:1 at 3 true
missing 20 MCC x > y#4:0 > y#3:0 > y#2:1 > y:1 at 3 false
missing 21 MCC x > y#4:0 > y#3:0 > y#2:1 > y:1 at 4 true
missing 22 MCC x > y#4:0 > y#3:0 > y#2:1 > y:1 at 4 false
missing 23 OMCDC y#2:0 true
missing 24 OMCDC y#2:0 false
missing 25 OMCDC y#3:0 true
missing 26 OMCDC y#3:0 false
missing 27 OMCDC y#4:0 true
missing 28 OMCDC y#4:0 false
",
    )
}

#[test]
fn the_alarm_controller(rt: HostRuntime) -> Result<(), Fail> {
    score(
        &rt,
        ALARM,
        DAY,
        &["--length", "4"],
        b"test day 6 6
BC 3/3 100.0%
ECC 6/6 100.0%
MCC 10/10 100.0%
OMCDC 18/26 69.2%
missing 23 OMCDC hit/rise#1.y#2:0 false
missing 24 OMCDC hit/rise#1.y#3:0 true
missing 26 OMCDC hit/rise#1.y#4:0 true
missing 31 OMCDC n#1:1 false
missing 32 OMCDC n/count#1.n:0 true
missing 35 OMCDC n/count#1.n#3:1 false
missing 39 OMCDC m#3:0 false
missing 41 OMCDC m#3:1 false
",
    )
}

#[test]
fn a_test_counts_up_to_its_first_failed_assertion(rt: HostRuntime) -> Result<(), Fail> {
    score(
        &rt,
        b"node g(x: bool) returns (y: bool); let assert x; y = not x; tel",
        b"test,x\nt,1\nt,0\nt,1\n",
        &[],
        b"test t 3 1 assertion fails at 1
BC 1/1 100.0%
ECC 1/2 50.0%
MCC 2/4 50.0%
OMCDC 1/2 50.0%
missing 3 ECC x > y:0 at 0 false
missing 5 MCC x > y:0 at 0 false
missing 6 MCC x > y:0 at 1 true
missing 9 OMCDC y:0 false
",
    )?;
    score(
        &rt,
        b"node h(x: bool) returns (y: bool); let assert false; y = x; tel",
        b"test,x\nt,1\n",
        &[],
        b"test t 1 0 assertion fails at 0
BC 0/1 0.0%
ECC 0/2 0.0%
MCC 0/4 0.0%
OMCDC 0/2 0.0%
missing 1 BC x > y:0
missing 2 ECC x > y:0 at 0 true
missing 3 ECC x > y:0 at 0 false
missing 4 MCC x > y:0 at 0 true
missing 5 MCC x > y:0 at 0 false
missing 6 MCC x > y:0 at 1 true
missing 7 MCC x > y:0 at 1 false
missing 8 OMCDC y:0 true
missing 9 OMCDC y:0 false
",
    )
}

#[test]
fn no_path_and_no_input(rt: HostRuntime) -> Result<(), Fail> {
    score(
        &rt,
        b"node n() returns (a, b: bool); let a = false -> pre b; b = a; tel",
        b"test\nt\nt\n",
        &[],
        b"test t 2 2
BC 0/0 -
ECC 0/0 -
MCC 0/0 -
OMCDC 3/6 50.0%
missing 1 OMCDC a:1 true
missing 3 OMCDC a#2:0 true
missing 5 OMCDC b:0 true
",
    )
}

#[test]
fn each_port_counts(rt: HostRuntime) -> Result<(), Fail> {
    score(
        &rt,
        b"node d(x: bool) returns (y: bool); let y = x and x; tel",
        b"test,x\nt,1\n",
        &[],
        b"test t 1 1
BC 2/2 100.0%
ECC 2/4 50.0%
MCC 4/8 50.0%
OMCDC 2/4 50.0%
missing 4 ECC x > y:0 at 0 false
missing 6 ECC x > y:1 at 0 false
missing 8 MCC x > y:0 at 0 false
missing 10 MCC x > y:0 at 1 false
missing 12 MCC x > y:1 at 0 false
missing 14 MCC x > y:1 at 1 false
missing 16 OMCDC y:0 false
missing 18 OMCDC y:1 false
",
    )
}

/// Where x is true and z is not, only the path from z is active.
#[test]
fn the_operand_that_decides_is_covered(rt: HostRuntime) -> Result<(), Fail> {
    score(
        &rt,
        b"node b(x, z: bool) returns (y: bool); let y = x and z; tel",
        b"test,x,z\na,1,0\n",
        &[],
        b"test a 1 1
BC 1/2 50.0%
ECC 1/4 25.0%
MCC 2/8 25.0%
OMCDC 1/4 25.0%
missing 1 BC x > y:0
missing 3 ECC x > y:0 at 0 true
missing 4 ECC x > y:0 at 0 false
missing 5 ECC z > y:1 at 0 true
missing 7 MCC x > y:0 at 0 true
missing 8 MCC x > y:0 at 0 false
missing 9 MCC x > y:0 at 1 true
missing 10 MCC x > y:0 at 1 false
missing 11 MCC z > y:1 at 0 true
missing 13 MCC z > y:1 at 1 true
missing 15 OMCDC y:0 true
missing 16 OMCDC y:0 false
missing 17 OMCDC y:1 true
",
    )
}

/// A branch that isn't taken is missing, and words are asked for no truths.
#[test]
fn words_have_plain_obligations(rt: HostRuntime) -> Result<(), Fail> {
    score(
        &rt,
        b"node i(c: bool; a, b: int) returns (y: int); let y = if c then a else b; tel",
        b"test,c,a,b\nt,1,5,6\n",
        &[],
        b"test t 1 1
BC 2/3 66.6%
ECC 2/4 50.0%
MCC 2/4 50.0%
OMCDC 1/2 50.0%
missing 3 BC b > y:2
missing 5 ECC c > y:0 at 0 false
missing 7 ECC b > y:2
missing 9 MCC c > y:0 at 0 false
missing 11 MCC b > y:2
missing 13 OMCDC y:0 false
",
    )
}

#[test]
fn delays_count_instants_of_one_test(rt: HostRuntime) -> Result<(), Fail> {
    // Two delays are passed from instant 2 on.
    let delays = b"node p(x: bool) returns (y: bool); let y = pre pre x; tel";
    score(
        &rt,
        delays,
        b"test,x\nt,1\nt,1\n",
        &[],
        b"test t 2 2
BC 0/1 0.0%
ECC 0/2 0.0%
MCC 0/6 0.0%
OMCDC 1/4 25.0%
missing 1 BC x > y#1:0 > y:0
missing 2 ECC x > y#1:0 > y:0 at 0 true
missing 3 ECC x > y#1:0 > y:0 at 0 false
missing 4 MCC x > y#1:0 > y:0 at 0 true
missing 5 MCC x > y#1:0 > y:0 at 0 false
missing 6 MCC x > y#1:0 > y:0 at 1 true
missing 7 MCC x > y#1:0 > y:0 at 1 false
missing 8 MCC x > y#1:0 > y:0 at 2 true
missing 9 MCC x > y#1:0 > y:0 at 2 false
missing 10 OMCDC y:0 true
missing 12 OMCDC y#1:0 true
missing 13 OMCDC y#1:0 false
",
    )?;
    score(
        &rt,
        delays,
        b"test,x\nt,1\nt,1\nt,0\n",
        &[],
        b"test t 3 3
BC 1/1 100.0%
ECC 1/2 50.0%
MCC 3/6 50.0%
OMCDC 3/4 75.0%
missing 3 ECC x > y#1:0 > y:0 at 0 false
missing 5 MCC x > y#1:0 > y:0 at 0 false
missing 7 MCC x > y#1:0 > y:0 at 1 false
missing 9 MCC x > y#1:0 > y:0 at 2 false
missing 13 OMCDC y#1:0 false
",
    )
}

/// A suite of 300 tests of one instant in which x is 1, and what a score of `y = x` prints.
fn three_hundred(alloc: Global) -> Result<(Vec<u8>, Vec<u8>), Fail> {
    let mut suite = String::from_str(alloc, "test,x\n")?;
    let mut text = String::new(alloc);
    for number in 0..300 {
        suite.push_str(format!(in alloc; "t{number},1\n")?.as_str())?;
        text.push_str(format!(in alloc; "test t{number} 1 1\n")?.as_str())?;
    }
    text.push_str(
        "BC 1/1 100.0%
ECC 1/2 50.0%
MCC 2/4 50.0%
OMCDC 1/2 50.0%
missing 3 ECC x > y:0 at 0 false
missing 5 MCC x > y:0 at 0 false
missing 7 MCC x > y:0 at 1 false
missing 9 OMCDC y:0 false
",
    )?;
    Ok((suite.into_bytes(), text.into_bytes()))
}

#[test]
fn a_suite_has_many_tests(rt: HostRuntime) -> Result<(), Fail> {
    let (suite, text) = three_hundred(rt.alloc())?;
    let source = b"node d(x: bool) returns (y: bool); let y = x; tel";
    score(&rt, source, suite.as_slice(), &[], text.as_slice())
}

/// The example's score as JSON.
#[test]
fn as_json(rt: HostRuntime) -> Result<(), Fail> {
    score(
        &rt,
        EDGE,
        SUITE,
        &["--length", "5", "--json"],
        b"{\"missing\":[4,8,10,12,24],\"scores\":[{\"covered\":2,\"criterion\":\"BC\",\"total\":2},{\"covered\":3,\"criterion\":\"ECC\",\"total\":4},{\"covered\":13,\"criterion\":\"MCC\",\"total\":16},{\"covered\":5,\"criterion\":\"OMCDC\",\"total\":6}],\"tests\":[{\"instants\":3,\"kept\":3,\"name\":\"a\"}]}
",
    )?;
    score(
        &rt,
        EDGE,
        b"test,x\n",
        &["--json", "--length", "1"],
        b"{\"missing\":[1,2,3,4,5,6],\"scores\":[{\"covered\":0,\"criterion\":\"BC\",\"total\":0},{\"covered\":0,\"criterion\":\"ECC\",\"total\":0},{\"covered\":0,\"criterion\":\"MCC\",\"total\":0},{\"covered\":0,\"criterion\":\"OMCDC\",\"total\":6}],\"tests\":[]}
",
    )
}
