ghost use Rattle.std.specs.Prelude.{◌≤◌, IfOk};

use crate::dir_store::{DirStore, read_first};
use crate::std_sink::StdSink;
use cov_base::{List, Sink, SinkFailed, Store, StoreFault};
use std::fs;
use std::io::{self, ErrorKind, Read, Write};
use std::test::Fail;

/// A store, where `file` holds `hello` and `folder` is a folder.
fn store_with(rt: HostRuntime, folder: &str, file: &str) -> Result<DirStore<HostRuntime>, Fail> {
    fs::create_dir_all(&rt, folder)?;
    let alloc = rt.alloc();
    let mut store = DirStore::new(rt, alloc);
    store.write(file, b"hello")?;
    Ok(store)
}

#[test]
fn a_store_reads(rt: HostRuntime) -> Result<(), Fail> {
    use StoreFault::{Failed, Missing};
    let alloc = rt.alloc();
    let mut store = store_with(rt.clone()?, "reads/folder", "reads/a")?;
    for (name, max, fault, want, counts) in [
        ("reads/a", 5, None, b">hello".as_slice(), (0, 0, 0)),
        ("reads/a", 4, None, b">hello", (0, 0, 0)),
        ("reads/a", 3, None, b">hell", (0, 0, 0)),
        ("./reads/a", usize::MAX, None, b">hello", (0, 0, 0)),
        ("reads/b", 9, Some(Missing), b">", (1, 0, 0)),
        ("reads/none/b", 9, Some(Missing), b">", (2, 0, 0)),
        ("reads/folder", 9, Some(Failed), b">", (2, 1, 0)),
        ("reads/a/b", 9, Some(Failed), b">", (2, 2, 0)),
        ("reads/a\0", 9, Some(Failed), b">", (2, 3, 0)),
    ] {
        let mut into = List::new(alloc);
        into.extend_from_slice(b">")?;
        assert_eq!(rt;
            store.read(name, max, &mut into).err(),
            fault,
            "{name} at {max}"
        );
        assert_eq!(rt; into.as_slice(), want, "{name} at {max}");
        assert_eq!(rt; store.counts(), counts, "{name} at {max}");
    }
    fs::remove_dir_all(&rt, "reads")?;
    Ok(())
}

#[test]
fn a_store_writes(rt: HostRuntime) -> Result<(), Fail> {
    use StoreFault::Failed;
    let alloc = rt.alloc();
    let mut store = store_with(rt.clone()?, "writes/folder", "writes/a")?;
    for (name, bytes, fault, want, writes) in [
        ("writes/a", b"bye".as_slice(), None, b"bye".as_slice(), 0),
        ("writes/none/a", b"no", Some(Failed), b"bye", 1),
        ("writes/folder", b"no", Some(Failed), b"bye", 2),
        ("writes/folder/a", b"yes", None, b"bye", 2),
    ] {
        assert_eq!(rt; store.write(name, bytes).err(), fault, "{name}");
        assert_eq!(rt; store.counts(), (0, 0, writes), "{name}");
        let mut into = List::new(alloc);
        store.read("writes/a", 9, &mut into)?;
        assert_eq!(rt; into.as_slice(), want, "{name}");
    }
    fs::remove_dir_all(&rt, "writes")?;
    Ok(())
}

#[test]
fn full_counts_stay(rt: HostRuntime) -> Result<(), Fail> {
    use StoreFault::{Failed, Missing};
    let mut into = List::new(rt.alloc());
    let mut store = store_with(rt.clone()?, "full/folder", "full/a")?.with_full_counts();
    assert_eq!(rt; store.read("full/b", 9, &mut into), Err(Missing));
    assert_eq!(rt; store.read("full/folder", 9, &mut into), Err(Failed));
    assert_eq!(rt; store.write("full/folder", b"no"), Err(Failed));
    assert_eq!(rt; store.counts(), (u64::MAX, u64::MAX, u64::MAX));
    fs::remove_dir_all(&rt, "full")?;
    Ok(())
}

/// What a reader or a writer answers next.
#[derive(Clone, Copy, Drop)]
enum Turn {
    Takes(usize),
    Fails(ErrorKind),
}

/// A reader of `x`s and a writer, whose calls go as planned, and after the plan fail.
#[derive(Drop)]
struct Planned {
    turns: [Turn; 3],
    done: usize,
}

impl Planned {
    fn next(&mut self, len: usize) -> io::Result<usize>
        ensures { IfOk result (λ n. n ≤ len) }
    {
        if self.done >= 3 {
            return Err(ErrorKind::Other.into());
        }
        let turn = self.turns[self.done];
        self.done += 1;
        match turn {
            Turn::Takes(n) => Ok(n.min(len)),
            Turn::Fails(kind) => Err(kind.into()),
        }
    }
}

impl Read for Planned {
    fn read(&mut self, buf: &mut [u8]) -> io::Result<usize> {
        let n = self.next(buf.len())?;
        buf[..n].fill(b'x');
        Ok(n)
    }
}

impl Write for Planned {
    fn write(&mut self, buf: &[u8]) -> io::Result<usize> {
        self.next(buf.len())
    }

    fn flush(&mut self) -> io::Result<()> {
        Ok(())
    }
}

#[test]
fn a_reader_is_read_to_its_end_or_fault(rt: HostRuntime) -> Result<(), Fail> {
    use Turn::{Fails, Takes};
    for (turns, max, want) in [
        ([Takes(2), Takes(1), Takes(0)], 9, Some(b"xxx".as_slice())),
        (
            [Takes(2), Fails(ErrorKind::Interrupted), Takes(0)],
            9,
            Some(b"xx".as_slice()),
        ),
        (
            [Takes(2), Takes(9), Fails(ErrorKind::Other)],
            3,
            Some(b"xxxx".as_slice()),
        ),
        ([Takes(2), Fails(ErrorKind::Other), Takes(0)], 9, None),
    ] {
        let reader = Planned { turns, done: 0 };
        match read_first(rt.alloc(), reader, max) {
            Ok(bytes) => assert_eq!(rt; Some(bytes.as_slice()), want),
            Err(error) => assert!(rt; want.is_none() && error.kind() == ErrorKind::Other),
        }
    }
    Ok(())
}

#[test]
fn a_sink_answers_as_its_writer(rt: HostRuntime) -> Result<(), Fail> {
    use Turn::{Fails, Takes};
    let mut sink = StdSink::new(Planned {
        turns: [Takes(2), Fails(ErrorKind::Interrupted), Takes(0)],
        done: 0,
    });
    for (piece, answer, faults) in [
        (b"".as_slice(), Ok(0), 0),
        (b"abc".as_slice(), Ok(2), 0),
        (b"c".as_slice(), Err(SinkFailed), 1),
        (b"c".as_slice(), Err(SinkFailed), 2),
        (b"".as_slice(), Ok(0), 2),
    ] {
        assert_eq!(rt; sink.put(piece), answer);
        assert_eq!(rt; sink.faults(), faults);
    }
    Ok(())
}

#[test]
fn standard_output_takes_a_piece(rt: HostRuntime) -> Result<(), Fail> {
    let mut sink = StdSink::new(rt.stdout());
    assert_eq!(rt; sink.put(b"a piece\n"), Ok(8));
    assert_eq!(rt; sink.faults(), 0);
    Ok(())
}
