//! Effects of calls.
ghost use Rattle.std.specs.Prelude.{◌≡◌, Some, IfOk};
ghost use Rattle.ro_pages.specs.Bytes.{bytes_of};
ghost use Rattle.ro_kernel.specs.Serve.{goes_after, answer_effect, stores_effect};

use crate::outcome::Served;
use ro_event::{Call, Effect, Goes, Which};
use ro_region::Range;
use std::alloc::{AllocError, Global};

/// Where a thread goes on after a call: behind a system call and an atomic instruction, and else at ra.
fn goes_after(which: Which) -> Goes
    ensures { result ≡ goes_after which }
{
    match which {
        Which::System(_) | Which::Atomic(_) => Goes::Next,
        Which::Function(_) => Goes::Returns,
    }
}

/// The call answers a value and does nothing else.
pub fn answer(alloc: Global, thread: u32, call: Call, value: u32) -> Served
    ensures { result ≡ Served.Done (answer_effect thread call value) }
{
    stores(thread, call, value, 0, Vec::new(alloc))
}

/// The call answers a value and stores bytes at an address.
pub fn stores(thread: u32, call: Call, value: u32, place: u32, bytes: Vec<u8>) -> Served
    ensures { result ≡ Served.Done (stores_effect thread call value place bytes.items) }
{
    Served::Done(Effect {
        answer: Some(value),
        goes: goes_after(call.which),
        ..Effect::storing(thread, place, bytes)
    })
}

/// The call answers the address of a range that is permitted from now on.
pub fn gives(alloc: Global, thread: u32, call: Call, range: Range) -> Served
    ensures { result ≡ Served.Done (record (answer_effect thread call range.start) { range = Some range }) }
{
    Served::Done(Effect {
        answer: Some(range.start),
        goes: goes_after(call.which),
        range: Some(range),
        ..Effect::quiet(alloc, thread)
    })
}

/// The four bytes of a word, the lowest first.
pub fn word_bytes(alloc: Global, value: u32) -> Result<Vec<u8>, AllocError>
    ensures { IfOk result (λ bytes. bytes.items ≡ bytes_of 4 value) }
{
    value.to_le_bytes().to_vec(alloc)
}
