use super::BitRow;
use std::test::Fail;

#[test]
fn bits_are_set_over_words(rt: HostRuntime) -> Result<(), Fail> {
    let mut row = BitRow::new(rt.alloc(), 130)?;
    assert_eq!(rt; row.count(), 0);
    row.set(0);
    row.set(63);
    row.set(64);
    row.set(129);
    row.set(64);
    for i in 0..130 {
        assert_eq!(rt; row.get(i), [0, 63, 64, 129].contains(&i), "bit {i}");
    }
    assert_eq!(rt; row.count(), 4);
    row.clear();
    assert_eq!(rt; row.count(), 0);
    assert!(rt; !row.get(63));
    Ok(())
}

#[test]
fn rows_are_joined(rt: HostRuntime) -> Result<(), Fail> {
    let mut row = BitRow::new(rt.alloc(), 130)?;
    row.set(0);
    row.set(64);
    let mut other = BitRow::new(rt.alloc(), 130)?;
    other.set(64);
    other.set(127);
    other.set(128);
    row.or_with(&other);
    for i in 0..130 {
        assert_eq!(rt; row.get(i), [0, 64, 127, 128].contains(&i), "bit {i}");
        assert_eq!(rt; other.get(i), [64, 127, 128].contains(&i), "bit {i}");
    }
    assert_eq!(rt; row.count(), 4);
    Ok(())
}

#[test]
fn a_row_may_have_no_bits(rt: HostRuntime) -> Result<(), Fail> {
    let mut row = BitRow::new(rt.alloc(), 0)?;
    let other = BitRow::new(rt.alloc(), 0)?;
    row.or_with(&other);
    row.clear();
    assert_eq!(rt; row.count(), 0);
    Ok(())
}
