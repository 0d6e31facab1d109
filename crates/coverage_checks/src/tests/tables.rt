//! Tables from which tests are withdrawn.
use super::programs::{RISE, table_of};
use super::sequences::{add, numbered};
use std::test::Fail;

/// The place of the obligation that the short path is active with the input true, which asks for an
/// input that has just become true.
const JUST_TRUE: u32 = 2;

/// Of the tests `1` (the input falls) and `2` (it rises) the second alone covers the obligation.
#[test]
fn withdrawn_tests_cover_no_more(rt: HostRuntime) -> Result<(), Fail> {
    let mut table = table_of(&rt, rt.alloc(), RISE);
    add(
        &rt,
        rt.alloc(),
        &mut table,
        numbered(&rt, rt.alloc(), 1, 1, 2),
    );
    add(
        &rt,
        rt.alloc(),
        &mut table,
        numbered(&rt, rt.alloc(), 2, 1, 2),
    );
    assert!(rt; table.instants() == 4);
    assert!(rt; table.covered_by(JUST_TRUE) == Some(1));
    assert!(rt; table.withdraw(b"1").is_ok());
    assert!(rt; table.covered_by(JUST_TRUE) == Some(0));
    assert!(rt; table.withdraw(b"2").is_ok());
    assert!(rt; table.covered_by(JUST_TRUE) == None);
    assert!(rt; table.instants() == 0);
    assert!(rt; table.withdraw(b"2").is_err());
    Ok(())
}
