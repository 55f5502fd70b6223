//! A sink over memory.
ghost use Rattle.std.specs.Prelude.{◌≡◌, ◌+◌, ◌<◌, ◌≤◌, ◌++◌, [], Some, drop, length, take, IfOk, OnErr, IfSome, vec_len, vec_capacity};
ghost use Rattle.std.specs.Result.{result_ok};
ghost use Rattle.ro_io.specs.Outside.{Rose};
ghost use Rattle.ro_io.specs.MemSink.{portion_of, room_left, taken_of, after_piece};

use crate::sinks::{Failed, Sink};
use std::alloc::{AllocError, Global};
use std::collections::VecDeque;
use std::marker::Model;

/// What a sink over memory does at a call.
#[derive(Clone, Copy, Debug, PartialEq, Eq)]
pub enum Act {
    /// It takes so many bytes of the piece, at least one, or all where the piece has fewer.
    Take(usize),
    /// It fails.
    Fail,
}

/// A sink over memory, with room for so many bytes. Each call uses up one of its acts; after them it takes whole
/// pieces. A piece that does not fit whole into the room that is left fails.
#[derive(Drop)]
pub struct MemSink {
    bytes: Vec<u8>,
    room: usize,
    acts: VecDeque<Act>,
    failures: u64,
}

impl Model for MemSink {
    ghost use Rattle.std.specs.Prelude.{◌≤◌, length, vec_capacity};
    ghost use Rattle.ro_io.specs.MemSink.{SinkState};

    ghost Value = { SinkState };

    ghost view = { λ s. record {
      bytes = s.bytes.items;
      room = s.room;
      acts = s.acts.items;
      failures = s.failures;
    } };

    ghost invariant = { λ s. (length s.bytes.items ≤ s.room) × (s.room ≤ vec_capacity s.bytes) };
}

impl MemSink {
    /// A sink that holds nothing. Its room is taken from memory at once, so that no call wants memory.
    ///
    /// # Errors
    /// Where there is no memory for the room.
    pub fn new(alloc: Global, room: usize, acts: Vec<Act>) -> Result<MemSink, AllocError>
        ensures { IfOk result (λ sink.
            sink ≡ record { bytes = []; room = room; acts = acts.items; failures = 0 }) }
    {
        Ok(MemSink {
            bytes: Vec::with_capacity(alloc, room)?,
            room,
            acts: VecDeque::from(acts),
            failures: 0,
        })
    }

    /// The bytes that it took.
    pub fn bytes(&self) -> &[u8]
        ensures { result.now ≡ self.now.bytes }
    {
        self.bytes.as_slice()
    }
}

impl Sink for MemSink {
    ghost held = { λ s. Some s.bytes };

    ghost failures = { λ s. s.failures };

    ghost sure = { λ s. room_left s.acts s.room (length s.bytes) };

    fn give(&mut self, piece: &[u8]) -> Result<usize, Failed>
        requires { 0 < length piece.now }
        ensures count { IfOk result (λ n. (0 < n) × (n ≤ length piece.now)) }
        ensures taken { IfOk result (λ n. self.new.bytes ≡ self.old.bytes ++ take n piece.now) }
        ensures refused { OnErr result (self.new.bytes ≡ self.old.bytes) }
        ensures cause { OnErr result (Rose self.old.failures self.new.failures) }
        ensures calm { IfOk result (λ _. self.new.failures ≡ self.old.failures) }
        ensures failures { self.old.failures ≤ self.new.failures }
        ensures sure { IfOk result (λ n. room_left self.old.acts self.old.room (length self.old.bytes) ≤ room_left self.new.acts self.new.room (length self.new.bytes) + n) }
        ensures full { OnErr result (room_left self.old.acts self.old.room (length self.old.bytes) < length piece.now) }

        // Which answer comes, and all that it changes.
        ensures answer { result_ok result ≡ taken_of self.old piece.now }
        ensures after { self.new ≡ after_piece self.old piece.now }
    {
        let fits = piece.len() <= self.room - self.bytes.len();
        let portion = next_portion(&mut self.acts, piece.len());
        match portion {
            Some(count) if fits => {
                append(&mut self.bytes, &piece[..count]);
                Ok(count)
            }
            _ => {
                self.failures = self.failures.saturating_add(1);
                Err(Failed)
            }
        }
    }
}

// Uses up an act, and answers how many bytes of so many it takes.
fn next_portion(acts: &mut VecDeque<Act>, size: usize) -> Option<usize>
    requires { 0 < size }
    ensures portion { result ≡ portion_of acts.old.items size }
    ensures within { IfSome result (λ n. (0 < n) × (n ≤ size)) }
    ensures used { acts.new.items ≡ drop 1 acts.old.items }
{
    match acts.pop_front() {
        None => Some(size),
        Some(Act::Take(most)) => Some(most.max(1).min(size)),
        Some(Act::Fail) => None,
    }
}

// Appends bytes for which there is capacity.
fn append(bytes: &mut Vec<u8>, piece: &[u8])
    requires { vec_len bytes.old + length piece.now ≤ vec_capacity bytes.old }
    ensures items { bytes.new.items ≡ bytes.old.items ++ piece.now }
    ensures capacity { vec_capacity bytes.old ≤ vec_capacity bytes.new }
{
    let Ok(()) = bytes.extend_from_slice(piece) else {
        unreachable!()
    };
}
