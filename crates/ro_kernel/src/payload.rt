//! The bytes that a vote compares of a call, and the call with what they say.
ghost use Rattle.std.specs.Prelude.{◌≡◌, ◌+◌, ◌≤◌, ◌<◌, ◌^◌, true, take, slice_index_or};
ghost use Rattle.ro_region.specs.Permission.{ranges_of};
ghost use Rattle.ro_pages.specs.Bytes.{number_of};
ghost use Rattle.ro_kernel.specs.Serve.{payload_span, capped, is_good_write, asked, put_out};

use crate::system::{WRITE, capped, is_output};
use ro_event::{Call, Which};
use ro_region::{Kind, Regions};

/// Where the bytes stand that a vote compares of a call; none where `len` is 0.
#[derive(Clone, Copy, PartialEq, Eq, Debug)]
pub struct Place {
    /// The address of the first.
    pub address: u32,
    /// How many they are, at most 4,096.
    pub len: u32,
}

/// The bytes that a vote compares of a call: those of a write that passes its checks, the word of an atomic instruction, and
/// else none.
pub fn payload_place(regions: &Regions, call: Call) -> Place
    ensures address { result.address ≡ (payload_span (ranges_of regions.now) call).place }
    ensures len { result.len ≡ (payload_span (ranges_of regions.now) call).count }
    ensures most { result.len ≤ 4096 }
    ensures within { result.address + result.len ≤ 2 ^ 32 }
{
    match call.which {
        Which::System(WRITE) if is_good_write(regions, call) => Place {
            address: call.a1,
            len: capped(call.a2),
        },
        Which::Atomic(_) if call.a0 % 4 == 0 => Place {
            address: call.a0,
            len: 4,
        },
        _ => Place { address: 0, len: 0 },
    }
}

/// Whether a write passes its checks.
#[tactic(auto, using(crate::proofs::Payloads::permitted_ends))]
fn is_good_write(regions: &Regions, call: Call) -> bool
    ensures good { result ≡ is_good_write (ranges_of regions.now) call }
    ensures within { result ≡ true → call.a1 + capped call.a2 ≤ 2 ^ 32 }
{
    let len = capped(call.a2);
    is_output(call.a0) && len > 0 && regions.permits(call.a1, len, Kind::Read)
}

/// How many bytes of its payload a call writes to the output: of an atomic instruction none.
pub fn written(call: Call, payload: &[u8]) -> &[u8]
    ensures { result.now ≡ put_out call.which payload.now }
{
    match call.which {
        Which::Atomic(_) => &payload[..0],
        _ => payload,
    }
}

/// The call as it is served: an atomic instruction has the word that it found in its third argument.
pub fn asked(call: Call, payload: &[u8]) -> Call
    ensures { result ≡ asked call payload.now }
{
    match call.which {
        Which::Atomic(_) => Call {
            a2: word_of(payload),
            ..call
        },
        _ => call,
    }
}

/// The number that the first four bytes spell, the lowest first.
fn word_of(bytes: &[u8]) -> u32
    ensures { result ≡ number_of (take 4 bytes.now) }
{
    byte(bytes, 0)
        + byte(bytes, 1) * 0x100
        + byte(bytes, 2) * 0x1_0000
        + byte(bytes, 3) * 0x100_0000
}

/// The byte at a place; 0 where there is none.
fn byte(bytes: &[u8], place: usize) -> u32
    ensures value { result ≡ slice_index_or bytes.now place 0 }
    ensures byte { result < 256 }
{
    match bytes.get(place) {
        Some(byte) => u32::from(*byte),
        None => 0,
    }
}
