//! Serving a call: what it does to the one memory and the threads.
ghost use Rattle.std.specs.Prelude.{ℕ, List, [], ◌≡◌, ◌+◌, ◌^◌, ◌<◌, ◌≤◌, ◌++◌, None, Some, true, IfOk, IfErr, IfSome, OnErr, length, slice_get, slice_set, vec_capacity};
ghost use Rattle.ro_pages.specs.Bytes.{Memory, bytes_at, stored, within};
ghost use Rattle.ro_pages.specs.Held.{memory_of};
ghost use Rattle.ro_exec.specs.declared.Cpu.{Cpu as CpuSeen};
ghost use Rattle.ro_exec.specs.Threads.{cpu_after};
ghost use Rattle.ro_kernel.specs.Kernel.{Kernel as KernelOf, ranges_in, lives_on};
ghost use Rattle.ro_kernel.specs.Serve.{Done, is_atomic, payload_span, payload_of, put_out, asked as asked_with};
ghost use Rattle.ro_plain.specs.Accesses.{touches, stored_span};
ghost use Rattle.ro_plain.specs.Machine.{with_made, called};
ghost use Rattle.ro_machine.specs.Seen.{machine_with, payload_now, outcome_of, RefusesCall};
ghost use Rattle.ro_machine.specs.Watched.{span_of, Tells, TellsLoaded};
ghost use Rattle.ro_region.specs.Permission.{ranges_of};

use crate::errors::StepError;
use crate::plain::MOST_WRITTEN;
use crate::watching::{NO_BYTES, Stretch};
use ro_event::{Call, Effect, Made, Which};
use ro_exec::Cpu;
use ro_journal::How;
use ro_kernel::{Kernel, Served, asked, payload_place};
use ro_pages::Pages;
use ro_region::Regions;
use ro_replica::{change, made_cpu, store};

/// What a call that was served, or did its first step, came to.
#[derive(Clone, Copy, Debug, PartialEq, Eq)]
pub(crate) struct Came {
    pub call: Call,
    /// How the program ends, if it does.
    pub how: Option<How>,
    /// What the call answered, if it did.
    pub answer: Option<u32>,
    /// The bytes that it put out, or the word that it found.
    pub loaded: Stretch,
    /// The bytes that it stored, or those that it gave to the program.
    pub stored: Stretch,
    /// Whether it stored some.
    pub stores: bool,
    /// Whether it did its first step alone.
    pub parked: bool,
}

/// How many pages an effect may back: those of 4,096 bytes, and one.
const SPARE_PAGES: u32 = 3;

/// Serves a call of a live thread, with its effect on the memory and the threads; the first step of one that has two changes
/// the kernel alone. It answers what the call came to, and leaves
/// what it wrote in `written`.
///
/// # Errors
/// `NoStep` where the call blocks, and `NoMemory`. Nothing has changed then.
#[allow(clippy::too_many_arguments)]
pub(crate) fn serve(
    kernel: &mut Kernel,
    pages: &mut Pages,
    cpus: &mut Vec<Cpu>,
    written: &mut Vec<u8>,
    thread: u32,
    call: Call,
) -> Result<Came, StepError>
    requires live { lives_on kernel.old.kernel thread ≡ true }
    requires made { length cpus.old.items ≡ length kernel.old.kernel.lives }
    requires threads { 16 ≤ vec_capacity cpus.old }
    requires room { 4096 ≤ vec_capacity written.old }
    requires empty { written.old.items ≡ [] }
    ensures setup { kernel.new.setup ≡ kernel.old.setup }
    ensures made { length cpus.new.items ≡ length kernel.new.kernel.lives }
    ensures threads { vec_capacity cpus.old ≤ vec_capacity cpus.new }
    ensures room { vec_capacity written.old ≤ vec_capacity written.new }
    ensures little { length written.new.items ≤ 4096 }
    ensures served { IfOk result (λ came. (cpu : CpuSeen) (output : List ℕ) → slice_get cpus.old.items thread ≡ Some cpu → called (machine_with pages.old cpus.old.items kernel.old.kernel output None) cpu (put_out call.which (payload_now kernel.old pages.old call)) (outcome_of kernel.old pages.old thread call) ≡ Some (machine_with pages.new cpus.new.items kernel.new.kernel (output ++ written.new.items) came.how)) }
    ensures told { IfOk result (Tells (outcome_of kernel.old pages.old thread call) call) }
    ensures loaded { IfOk result (TellsLoaded (ranges_in kernel.old.setup kernel.old.kernel) call) }
    ensures refused { IfErr result (RefusesCall (outcome_of kernel.old pages.old thread call)) }
    ensures kernel { OnErr result (kernel.new ≡ kernel.old) }
    ensures memory { OnErr result (memory_of pages.new.pages ≡ memory_of pages.old.pages) }
    ensures cpus { OnErr result (cpus.new.items ≡ cpus.old.items) }
    ensures nothing { OnErr result (written.new.items ≡ []) }
{
    let loaded = payload_of_call(kernel.regions(), call);
    let question = question_of(kernel, pages, call);
    pages.reserve(SPARE_PAGES)?;
    match kernel.serve(thread, question)? {
        Served::Done(effect) => {
            put_bytes(pages, call, loaded, written);
            apply(pages, cpus, &effect);
            Ok(Came {
                call,
                how: None,
                answer: effect.answer,
                loaded,
                stored: stored_by(&effect),
                stores: effect.bytes.as_slice().len() > 0,
                parked: false,
            })
        }
        Served::Parked => Ok(Came {
            call,
            how: None,
            answer: None,
            loaded,
            stored: NO_BYTES,
            stores: false,
            parked: true,
        }),
        Served::Blocked => Err(StepError::NoStep),
        Served::Ends(how) => Ok(Came {
            call,
            how: Some(how),
            answer: None,
            loaded,
            stored: NO_BYTES,
            stores: false,
            parked: false,
        }),
    }
}

/// The bytes that an effect stores, or those of the range that it gives: it does not do both.
fn stored_by(effect: &Effect) -> Stretch
    requires few { length effect.now.bytes ≤ 4096 }
    requires within { effect.now.place + length effect.now.bytes ≤ 2 ^ 32 }
    requires alone { IfSome effect.now.range (λ range. (effect.now.bytes ≡ []) × (range.start + range.length ≤ 0x51000000)) }
    ensures span { (kernel : KernelOf) (a : ℕ) → within (span_of result) a ≡ touches (stored_span (Done kernel effect.now)) a }
    ensures low { result.place + result.count ≤ 2 ^ 32 + 4096 }
{
    match effect.range {
        Some(range) => Stretch {
            place: range.start,
            count: range.length,
        },
        None => Stretch {
            place: effect.place,
            count: effect.bytes.as_slice().len() as u32,
        },
    }
}

/// The bytes that a call puts out, or the word that it finds.
#[tactic(auto, unfolding(ro_kernel::specs::Serve::payload_of))]
fn payload_of_call(regions: &Regions, call: Call) -> Stretch
    ensures span { span_of result ≡ payload_span (ranges_of regions.now) call }
    ensures bytes { (memory : Memory) → bytes_at memory result.place result.count ≡ payload_of (ranges_of regions.now) memory call }
    ensures few { result.count ≤ 4096 }
    ensures word { is_atomic call.which ≡ true → result.count ≤ 4 }
    ensures within { result.place + result.count ≤ 2 ^ 32 }
{
    let place = payload_place(regions, call);
    Stretch {
        place: place.address,
        count: place.len,
    }
}

/// The call as it is served: an atomic instruction has the word that it finds.
fn question_of(kernel: &Kernel, pages: &Pages, call: Call) -> Call
    ensures { result ≡ asked_with call (payload_now kernel.now pages.now call) }
{
    match call.which {
        Which::Atomic(_) => {
            let word = payload_of_call(kernel.regions(), call);
            let mut bytes = [0; 4];
            let bytes = &mut bytes[..word.count as usize];
            pages.read_bytes(word.place, bytes);
            asked(call, bytes)
        }
        _ => call,
    }
}

/// Puts the payload of a call into an empty list with room for it, but for the word of an atomic instruction.
fn put_bytes(pages: &Pages, call: Call, payload: Stretch, written: &mut Vec<u8>)
    requires most { payload.count ≤ 4096 }
    requires within { payload.place + payload.count ≤ 2 ^ 32 }
    requires empty { written.old.items ≡ [] }
    requires room { 4096 ≤ vec_capacity written.old }
    ensures bytes { written.new.items ≡ put_out call.which (bytes_at (memory_of pages.now.pages) payload.place payload.count) }
    ensures little { length written.new.items ≤ 4096 }
    ensures room { vec_capacity written.old ≤ vec_capacity written.new }
{
    match call.which {
        Which::Atomic(_) => {}
        _ => {
            if payload.count > 0 {
                put_some(pages, payload, written);
            }
        }
    }
}

/// Puts the bytes of a stretch into an empty list with room for them.
fn put_some(pages: &Pages, payload: Stretch, written: &mut Vec<u8>)
    requires most { payload.count ≤ 4096 }
    requires within { payload.place + payload.count ≤ 2 ^ 32 }
    requires empty { written.old.items ≡ [] }
    requires room { 4096 ≤ vec_capacity written.old }
    ensures bytes { written.new.items ≡ bytes_at (memory_of pages.now.pages) payload.place payload.count }
    ensures little { length written.new.items ≤ 4096 }
    ensures room { vec_capacity written.old ≤ vec_capacity written.new }
{
    let mut bytes = [0; MOST_WRITTEN];
    let bytes = &mut bytes[..payload.count as usize];
    pages.read_bytes(payload.place, bytes);
    if written.extend_from_slice(bytes).is_err() {
        unreachable!()
    }
}

/// Does what an effect does to the memory and the threads.
fn apply(pages: &mut Pages, cpus: &mut Vec<Cpu>, effect: &Effect)
    requires thread { effect.now.thread < length cpus.old.items }
    requires creator { IfSome effect.now.made (λ made. (made.creator < length cpus.old.items) × (length cpus.old.items < 16)) }
    requires few { length effect.now.bytes ≤ 4096 }
    requires within { effect.now.place + length effect.now.bytes ≤ 2 ^ 32 }
    requires page { IfSome effect.now.page (λ page. page < 2 ^ 20) }
    requires spare { 3 ≤ pages.old.spare }
    requires threads { 16 ≤ vec_capacity cpus.old }
    ensures bytes { memory_of pages.new.pages ≡ stored (memory_of pages.old.pages) effect.now.place effect.now.bytes }
    ensures cpus { (cpu : CpuSeen) → slice_get cpus.old.items effect.now.thread ≡ Some cpu → cpus.new.items ≡ with_made effect.now.made cpu (slice_set cpus.old.items effect.now.thread (cpu_after effect.now cpu)) }
    ensures threads { vec_capacity cpus.old ≤ vec_capacity cpus.new }
{
    store(pages, effect);
    change(&mut cpus[effect.thread as usize], effect);
    make(cpus, effect.made);
}

/// Makes a thread, if one is to be made; there is a place for it.
fn make(cpus: &mut Vec<Cpu>, made: Option<Made>)
    requires creator { IfSome made (λ made. (made.creator < length cpus.old.items) × (length cpus.old.items < 16)) }
    requires threads { 16 ≤ vec_capacity cpus.old }
    ensures items { (cpu : CpuSeen) → cpus.new.items ≡ with_made made cpu cpus.old.items }
    ensures threads { vec_capacity cpus.old ≤ vec_capacity cpus.new }
{
    let Some(made) = made else {
        return;
    };
    let cpu = made_cpu(&made, &cpus[made.creator as usize], cpus.len() as u32);
    if cpus.push(cpu).is_err() {
        unreachable!()
    }
}
