ghost use Rattle.std.specs.Prelude.{◌≤◌};

use super::*;
use std::alloc::Global;
use std::collections::BTreeMap;
use std::test::Fail;

fn calls(alloc: Global, numbers: &[u32]) -> Result<List<u32>, Memory> {
    let mut list = List::new(alloc);
    list.extend_from_slice(numbers)?;
    Ok(list)
}

/// A store of the files `a`, which is `hello`, and `b`, which is `bye`.
fn two_files(alloc: Global, failing: &[u32]) -> Result<MemStore, Fail> {
    let mut files = BTreeMap::new(alloc);
    let a = String::from_str(alloc, "a")?;
    files.insert(a, Text::from_bytes(alloc, b"hello")?)?;
    let b = String::from_str(alloc, "b")?;
    files.insert(b, Text::from_bytes(alloc, b"bye")?)?;
    Ok(MemStore::new(alloc, files, calls(alloc, failing)?))
}

#[test]
fn a_store_reads(rt: HostRuntime) -> Result<(), Fail> {
    let alloc = rt.alloc();
    let mut store = two_files(alloc, &[6, 7])?;
    for (name, max, fault, want) in [
        ("a", 10, None, b">hello".as_slice()),
        ("a", 5, None, b">hello".as_slice()),
        ("a", 4, None, b">hello".as_slice()),
        ("a", 3, None, b">hell".as_slice()),
        ("b", 0, None, b">b".as_slice()),
        ("c", 10, Some(StoreFault::Missing), b">".as_slice()),
        ("a", 10, Some(StoreFault::Failed), b">".as_slice()),
        ("c", 10, Some(StoreFault::Failed), b">".as_slice()),
        ("a", usize::MAX, None, b">hello".as_slice()),
    ] {
        let mut into = List::new(alloc);
        into.extend_from_slice(b">")?;
        let answer = store.read(name, max, &mut into);
        assert_eq!(rt; answer.err(), fault, "{name} at {max}");
        assert_eq!(rt; into.as_slice(), want, "{name} at {max}");
    }
    Ok(())
}

#[test]
fn a_store_writes(rt: HostRuntime) -> Result<(), Fail> {
    let mut store = two_files(rt.alloc(), &[1, 3])?;
    for (name, bytes, fault, want) in [
        ("a", b"one".as_slice(), None, Some(b"one".as_slice())),
        (
            "a",
            b"two".as_slice(),
            Some(StoreFault::Failed),
            Some(b"one".as_slice()),
        ),
        ("c", b"".as_slice(), None, Some(b"".as_slice())),
        ("d", b"four".as_slice(), Some(StoreFault::Failed), None),
        ("a", b"five".as_slice(), None, Some(b"five".as_slice())),
    ] {
        let answer = store.write(name, bytes);
        assert_eq!(rt; answer.err(), fault, "{name}");
        assert_eq!(rt; store.file(name), want, "{name}");
        assert_eq!(rt; store.file("b"), Some(b"bye".as_slice()));
    }
    Ok(())
}

#[test]
fn a_store_counts_reads_and_writes_together(rt: HostRuntime) -> Result<(), Fail> {
    let alloc = rt.alloc();
    let mut store = two_files(alloc, &[2])?;
    let mut into = List::new(alloc);
    assert_eq!(rt; store.write("c", b"new"), Ok(()));
    assert_eq!(rt; store.read("d", 9, &mut into), Err(StoreFault::Missing));
    assert_eq!(rt; store.write("c", b"newer"), Err(StoreFault::Failed));
    assert_eq!(rt; store.read("c", 9, &mut into), Ok(()));
    assert_eq!(rt; into.as_slice(), b"new".as_slice());
    Ok(())
}

#[test]
fn a_sink_takes_chunks(rt: HostRuntime) -> Result<(), Fail> {
    let alloc = rt.alloc();
    let mut sink = MemSink::new(alloc, 4, calls(alloc, &[1])?)?;
    for (piece, answer, written) in [
        (b"".as_slice(), Ok(0), b"".as_slice()),
        (b"abcdefgh".as_slice(), Ok(4), b"abcd".as_slice()),
        (b"".as_slice(), Ok(0), b"abcd".as_slice()),
        (b"xy".as_slice(), Err(SinkFailed), b"abcd".as_slice()),
        (b"xy".as_slice(), Ok(2), b"abcdxy".as_slice()),
    ] {
        assert_eq!(rt; sink.put(piece), answer);
        assert_eq!(rt; sink.written(), written);
    }
    Ok(())
}

#[test]
fn a_piece_is_put_whole_or_to_its_fault(rt: HostRuntime) -> Result<(), Fail> {
    let alloc = rt.alloc();
    let mut sink = MemSink::new(alloc, 4, calls(alloc, &[5])?)?;
    for (piece, answer, written) in [
        (b"".as_slice(), Ok(()), b"".as_slice()),
        (b"0123456789".as_slice(), Ok(()), b"0123456789".as_slice()),
        (
            b"abcdefghij".as_slice(),
            Err(SinkFailed),
            b"0123456789abcdefgh".as_slice(),
        ),
        (b"!".as_slice(), Ok(()), b"0123456789abcdefgh!".as_slice()),
    ] {
        assert_eq!(rt; put_all(&mut sink, piece), answer);
        assert_eq!(rt; sink.written(), written);
    }
    Ok(())
}

#[test]
fn a_list_changes(rt: HostRuntime) -> Result<(), Fail> {
    let alloc = rt.alloc();
    let mut list = List::new(alloc);
    assert!(rt; list.len() == 0);
    list.add(1)?;
    assert_eq!(rt; list.as_slice(), [1].as_slice());
    list.cut(0);
    for item in [1u8, 2, 3] {
        assert_eq!(rt; list.push(item), Ok(()));
    }
    list.items_mut().reverse();
    assert!(rt; list.len() == 3);
    list.cut(2);
    assert_eq!(rt; list.as_slice(), [3, 2].as_slice());
    let copy = Text::from_bytes(alloc, list.as_slice())?.copy(alloc)?;
    let items = List::from_vec(list.into_vec());
    assert_eq!(rt; copy.bytes(), items.as_slice());
    Ok(())
}

#[test]
fn numbers_are_written_in_decimal(rt: HostRuntime) -> Result<(), Fail> {
    for (n, want) in [
        (0, b"n=0".as_slice()),
        (7, b"n=7".as_slice()),
        (-7, b"n=-7".as_slice()),
        (10, b"n=10".as_slice()),
        (-10, b"n=-10".as_slice()),
        (i64::MAX, b"n=9223372036854775807".as_slice()),
        (i64::MIN, b"n=-9223372036854775808".as_slice()),
    ] {
        let mut out = List::new(rt.alloc());
        out.extend_from_slice(b"n=")?;
        push_decimal(&mut out, n)?;
        assert_eq!(rt; out.as_slice(), want, "{n}");
    }
    Ok(())
}

/// The text `at `, and the percentage after it.
fn with_percent(alloc: Global, covered: u32, total: u32) -> Result<List<u8>, Fail>
    requires { covered ≤ total }
{
    let mut out = List::new(alloc);
    out.extend_from_slice(b"at ")?;
    push_percent(&mut out, covered, total)?;
    Ok(out)
}

#[test]
fn percentages_are_rounded_down(rt: HostRuntime) -> Result<(), Fail> {
    let alloc = rt.alloc();
    for (out, want) in [
        (with_percent(alloc, 13, 16)?, b"at 81.2%".as_slice()),
        (with_percent(alloc, 3, 4)?, b"at 75.0%".as_slice()),
        (with_percent(alloc, 2, 2)?, b"at 100.0%".as_slice()),
        (with_percent(alloc, 0, 2)?, b"at 0.0%".as_slice()),
        (with_percent(alloc, 1, 2000)?, b"at 0.0%".as_slice()),
        (with_percent(alloc, 1999, 2000)?, b"at 99.9%".as_slice()),
        (
            with_percent(alloc, u32::MAX, u32::MAX)?,
            b"at 100.0%".as_slice(),
        ),
        (with_percent(alloc, 0, 0)?, b"at -".as_slice()),
    ] {
        assert_eq!(rt; out.as_slice(), want);
    }
    Ok(())
}
