//! A sink over a stream.
ghost use Rattle.std.specs.Prelude.{◌≡◌, ◌<◌, ◌≤◌, None, IfSome, IfNone, IfOk, OnErr, length, take};
ghost use Rattle.std.specs.Io.KnownBytes.{Appends, Keeps};
ghost use Rattle.ro_io.specs.Outside.{Rose};

use crate::sinks::{Failed, Sink};
use std::io::Write;
use std::marker::Model;

/// A sink over a stream. It does not tell what it holds. What the stream refuses is a failure.
#[derive(Drop)]
pub struct OutSink<W: Write> {
    stream: W,
    failures: u64,
}

// Contracts see the stream, and how often it failed.
impl<W: Write> Model for OutSink<W> {
    ghost use Rattle.std.specs.Prelude.{ℕ};

    ghost Value = { W × ℕ };

    ghost view = { λ s. (s.stream, s.failures) };
}

impl<W: Write> OutSink<W> {
    /// A sink over this stream that has not failed yet.
    pub fn new(stream: W) -> OutSink<W>
        ensures { result ≡ (stream, 0) }
    {
        OutSink {
            stream,
            failures: 0,
        }
    }
}

impl<W: Write> Sink for OutSink<W> {
    ghost held = { λ _. None };

    ghost failures = { λ s. s.1 };

    ghost sure = { λ _. 0 };

    fn give(&mut self, piece: &[u8]) -> Result<usize, Failed>
        requires { 0 < length piece.now }
        ensures count { IfOk result (λ n. (0 < n) × (n ≤ length piece.now)) }
        ensures cause { OnErr result (Rose self.old.1 self.new.1) }
        ensures calm { IfOk result (λ _. self.new.1 ≡ self.old.1) }
        ensures failures { self.old.1 ≤ self.new.1 }

        // A stream that tells what it holds has got what was taken.
        ensures written { IfOk result (λ n.
            Appends (W.contents self.old.0) (W.contents self.new.0) (take n piece.now)) }
        ensures unwritten { OnErr result (Keeps (W.contents self.old.0) (W.contents self.new.0)) }
    {
        match write_some(&mut self.stream, piece) {
            Some(count) => Ok(count),
            None => {
                self.failures = self.failures.saturating_add(1);
                Err(Failed)
            }
        }
    }
}

// Writes the front of a piece, and answers how many bytes the stream took, if any.
fn write_some<W: Write>(stream: &mut W, piece: &[u8]) -> Option<usize>
    ensures count { IfSome result (λ n. (0 < n) × (n ≤ length piece.now)) }
    ensures written { IfSome result (λ n.
        Appends (W.contents stream.old) (W.contents stream.new) (take n piece.now)) }
    ensures unwritten { IfNone result (Keeps (W.contents stream.old) (W.contents stream.new)) }
{
    match stream.write(piece) {
        Ok(count) if 0 < count && count <= piece.len() => Some(count),
        _ => None,
    }
}
