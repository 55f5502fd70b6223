//! The view of a stopped thread.
ghost use Rattle.std.specs.Prelude.{◌≡◌, ◌↔◌, ◌≤◌, ◌+◌, ◌^◌, [], length, IsTrue};
ghost use Rattle.ro_event.specs.Views.{same_view};

use crate::stops::Stop;
use std::marker::Model;

/// What payloads are read from.
pub trait Source {
    ghost use Rattle.std.specs.Prelude.{ℕ, List};

    // So many bytes from an address on.
    ghost bytes: { Self → ℕ → ℕ → List ℕ };

    /// Reads the bytes from an address on, as many as there are places for.
    fn read(&self, address: u32, places: &mut [u8])
        requires { address + length places.old ≤ 2 ^ 32 }
        ensures { places.new ≡ bytes self.now address (length places.old) };
}

/// All of a stopped thread that a vote compares.
#[derive(Drop)]
pub struct View {
    registers: [u32; 31],
    pc: u32,
    since: u32,
    stop: Stop,
    payload: [u8; 4096],
    payload_len: usize,
}

impl Model for View {
    ghost use Rattle.std.specs.Prelude.{◌≤◌, take};
    ghost use Rattle.ro_event.specs.Views.{View as ViewOf};

    ghost Value = { ViewOf };

    ghost view = { λ v. record {
      registers = v.registers;
      pc = v.pc;
      since = v.since;
      stop = v.stop;
      payload = take v.payload_len v.payload;
    } };

    ghost invariant = { λ v. v.payload_len ≤ 4096 };
}

impl View {
    /// A view with no payload.
    pub fn new(registers: [u32; 31], pc: u32, since: u32, stop: Stop) -> View
        ensures { result ≡ record {
          registers = registers;
          pc = pc;
          since = since;
          stop = stop;
          payload = [];
        } }
    {
        View {
            registers,
            pc,
            since,
            stop,
            payload: [0; 4096],
            payload_len: 0,
        }
    }

    /// Shows another thread, with no payload.
    pub fn show(&mut self, registers: &[u32; 31], pc: u32, since: u32, stop: Stop)
        ensures { self.new ≡ record {
          registers = registers.now;
          pc = pc;
          since = since;
          stop = stop;
          payload = [];
        } }
    {
        self.registers = *registers;
        self.pc = pc;
        self.since = since;
        self.stop = stop;
        self.payload_len = 0;
    }

    /// Reads a payload of at most 4,096 bytes from an address on, to the place where it stays.
    pub fn read_payload<S: Source>(&mut self, source: &S, address: u32, len: usize)
        requires most { len ≤ 4096 }
        requires within { address + len ≤ 2 ^ 32 }
        ensures { self.new ≡ record self.old { payload = S.bytes source.now address len } }
    {
        source.read(address, &mut self.payload[..len]);
        self.payload_len = len;
    }

    /// The registers x1 to x31.
    pub fn registers(&self) -> &[u32; 31]
        ensures { result.now ≡ self.now.registers }
    {
        &self.registers
    }

    /// Where the thread stands.
    pub fn pc(&self) -> u32
        ensures { result ≡ self.now.pc }
    {
        self.pc
    }

    /// How many instructions the thread has retired since its last release.
    pub fn since(&self) -> u32
        ensures { result ≡ self.now.since }
    {
        self.since
    }

    /// Why the thread stands still.
    pub fn stop(&self) -> &Stop
        ensures { result.now ≡ self.now.stop }
    {
        &self.stop
    }

    /// The bytes that the thread writes, where its stop is such a call, or the word that its atomic instruction finds.
    pub fn payload(&self) -> &[u8]
        ensures { result.now ≡ self.now.payload }
    {
        &self.payload[..self.payload_len]
    }

    /// Whether the views are equal in all their parts.
    pub fn same(&self, other: &View) -> bool
        ensures test { result ≡ same_view self.now other.now }
        ensures equal { IsTrue result ↔ (self.now ≡ other.now) }
    {
        self.stands_like(other) && self.payload() == other.payload()
    }

    /// Whether all but the payloads are equal.
    fn stands_like(&self, other: &View) -> bool
        ensures { IsTrue result ↔ ((self.now.registers ≡ other.now.registers) × (self.now.pc ≡ other.now.pc) × (self.now.since ≡ other.now.since) × (self.now.stop ≡ other.now.stop)) }
    {
        self.registers == other.registers
            && self.pc == other.pc
            && self.since == other.since
            && self.stop == other.stop
    }
}
