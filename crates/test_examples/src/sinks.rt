//! Each store and each sink once, with what it is to answer.
use ro_io::{Act, Failed, FetchError, FileStore, MemSink, MemStore, OutSink, Sink, Store};
use std::io::{self, ErrorKind, Write};
use std::test::Fail;
use std::{env, fs, process};

#[test]
fn mem_sink(rt: HostRuntime) -> Result<(), Fail> {
    // The acts and then, for each call, the piece, what is taken of it, and what the sink holds.
    let calls = [
        ("hello", Ok(2), "he"),
        ("llo", Err(Failed), "he"),
        ("llo", Ok(1), "hel"),
        ("way too long", Err(Failed), "hel"),
        ("lo", Ok(2), "hello"),
        ("world", Err(Failed), "hello"),
        (", w", Ok(3), "hello, w"),
        ("o", Err(Failed), "hello, w"),
    ];
    let acts = vec![in rt.alloc(); Act::Take(2), Act::Fail, Act::Take(0), Act::Take(1)]?;
    let mut sink = MemSink::new(rt.alloc(), 8, acts)?;
    assert!(rt; sink.bytes().is_empty());
    for (piece, want, held) in calls {
        assert!(rt; !piece.is_empty());
        assert_eq!(rt; sink.give(piece.as_bytes()), want, "of {piece}");
        assert_eq!(rt; sink.bytes(), held.as_bytes(), "after {piece}");
    }
    Ok(())
}

#[test]
fn mem_store(rt: HostRuntime) -> Result<(), Fail> {
    // For each call the name, how many bytes at most, and what is fetched, if it doesn't fail.
    let calls = [
        ("a", 100, Some("first")),
        ("a", 3, Some("fir")),
        ("a", 5, None),
        ("b", 0, Some("")),
        ("b", 6, Some("second")),
        ("c", 6, None),
        ("", 6, None),
    ];
    let mut store = MemStore::new(rt.alloc());
    store.put("a", b"first")?;
    store.put("b", b"second")?;
    store.put("a", b"third")?;
    store.fail_at(3)?;
    for (name, most, want) in calls {
        match (store.fetch(rt.alloc(), name, most), want) {
            (Ok(bytes), Some(want)) => assert_eq!(rt;
                bytes.as_slice(),
                want.as_bytes(),
                "of {name}"
            ),
            (answer, want) => {
                assert_eq!(rt; want, None, "of {name}");
                assert!(rt; matches!(answer, Err(FetchError::Failed)), "of {name}");
            }
        }
    }
    Ok(())
}

// A stream that takes two bytes, then none, then fails.
#[derive(Drop)]
struct Faltering {
    calls: u8,
}

impl Write for Faltering {
    fn write(&mut self, buf: &[u8]) -> io::Result<usize> {
        self.calls = self.calls.saturating_add(1);
        match self.calls {
            1 => Ok(buf.len().min(2)),
            2 => Ok(0),
            _ => Err(io::Error::from(ErrorKind::BrokenPipe)),
        }
    }

    fn flush(&mut self) -> io::Result<()> {
        Ok(())
    }
}

#[test]
fn out_sink(rt: HostRuntime) -> Result<(), Fail> {
    let mut sink = OutSink::new(Faltering { calls: 0 });
    assert_eq!(rt; sink.give(b"hello"), Ok(2));
    assert_eq!(rt; sink.give(b"llo"), Err(Failed));
    assert_eq!(rt; sink.give(b"llo"), Err(Failed));

    let mut taken = Vec::new(rt.alloc());
    let mut sink = OutSink::new(&mut taken);
    assert_eq!(rt; sink.give(b"hello"), Ok(5));
    assert_eq!(rt; taken.as_slice(), b"hello".as_slice());
    Ok(())
}

// A stream that takes all that it is given, and says that it failed. It counts how often it was asked.
#[derive(Drop)]
struct Silent<'a> {
    calls: &'a mut u8,
    taken: &'a mut Vec<u8>,
}

impl<'a> Write for Silent<'a> {
    fn write(&mut self, buf: &[u8]) -> io::Result<usize> {
        *self.calls = self.calls.saturating_add(1);
        self.taken.extend_from_slice(buf)?;
        match *self.calls {
            1 => Err(io::Error::from(ErrorKind::BrokenPipe)),
            _ => Ok(buf.len()),
        }
    }

    fn flush(&mut self) -> io::Result<()> {
        Ok(())
    }
}

// What a stream failed to take isn't handed to it again.
#[test]
fn failed_once(rt: HostRuntime) -> Result<(), Fail> {
    let mut calls = 0;
    let mut taken = Vec::new(rt.alloc());
    let mut sink = OutSink::new(Silent {
        calls: &mut calls,
        taken: &mut taken,
    });
    let answer = sink.give(b"hello");
    assert_eq!(rt; answer, Err(Failed));
    assert_eq!(rt; calls, 1);
    assert_eq!(rt; taken.as_slice(), b"hello".as_slice());
    Ok(())
}

#[test]
fn file_store(rt: HostRuntime) -> Result<(), Fail> {
    let name = format!(in rt.alloc(); "ro_io-{}", process::id(rt.process()))?;
    let path = env::temp_dir(&rt)?.join(rt.alloc(), name.as_str())?;
    let written = vec![in rt.alloc(); b'x'; 5000]?;
    fs::write(&rt, path.as_path(), written.as_slice())?;
    let mut store = FileStore::new(&rt);
    let whole = store.fetch(rt.alloc(), path.as_str(), 10_000);
    let front = store.fetch(rt.alloc(), path.as_str(), 4_097);
    fs::remove_file(&rt, path.as_path())?;
    let gone = store.fetch(rt.alloc(), path.as_str(), 10_000);
    assert_eq!(rt; whole?.as_slice(), written.as_slice());
    assert_eq!(rt; front?.len(), 4_097);
    assert!(rt; matches!(gone, Err(FetchError::Failed)));
    Ok(())
}
