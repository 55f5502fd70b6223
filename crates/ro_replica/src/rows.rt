//! Rows of what effects and recoveries leave, and of what votes see.
ghost use Rattle.std.specs.Prelude.{◌≡◌, ◌<◌, ◌^◌, IsTrue, IfSome, IfOk, length};
ghost use Rattle.ro_replica.specs.Seen.{AreFaults, AreTwins, IsOpening, SameProgram};

use super::*;
use ro_event::{Call, Effect, Goes, Made, Stop, View, Which};
use ro_exec::Cpu;
use ro_faults::{Fault, Target};
use ro_image::{Executable, read_executable};
use ro_recover::recover;
use ro_region::Regions;
use ro_thread::Thread;
use std::alloc::{AllocError, Global};
use std::process::Abort;

// A program of three words that ends with the status 7.
const SHORT: [u8; 96] = [
    0x7F, 0x45, 0x4C, 0x46, 1, 1, 1, 0, 0, 0, 0, 0, 0, 0, 0, 0, 2, 0, 0xF3, 0, 1, 0, 0, 0, 0x54, 0,
    1, 0, 0x34, 0, 0, 0, 0, 0, 0, 0, 0, 0, 0, 0, 0x34, 0, 0x20, 0, 1, 0, 0, 0, 0, 0, 0, 0, 1, 0, 0,
    0, 0, 0, 0, 0, 0, 0, 1, 0, 0, 0, 1, 0, 0x60, 0, 0, 0, 0x60, 0, 0, 0, 5, 0, 0, 0, 0, 0x10, 0, 0,
    0x13, 5, 0x70, 0, 0x93, 8, 0xD0, 5, 0x73, 0, 0, 0,
];

const HEAP: u32 = 0x1_1000;

fn image(rt: &impl Abort, alloc: Global) -> Executable {
    match read_executable(alloc, &SHORT) {
        Ok(image) => image,
        Err(_) => panic!(rt; "it is accepted"),
    }
}

fn opened(
    alloc: Global,
    image: &Executable,
    number: u32,
    faults: &[Fault],
) -> Result<Replica, AllocError>
    requires { AreFaults faults.now }
    ensures { IfOk result (λ r. IsOpening image.now number faults.now 1000 r) }
{
    let regions = Regions::new(alloc, image.ranges())?;
    Replica::new(alloc, image, regions, number, faults, 1_000)
}

// One replica, with no look at its program.
fn alone(
    rt: &impl Abort,
    alloc: Global,
    number: u32,
    faults: &[Fault],
) -> Result<Replica, AllocError>
    requires { AreFaults faults.now }
{
    opened(alloc, &image(rt, alloc), number, faults)
}

// A fault of each of two replicas.
const FAULTS: [Fault; 2] = [
    Fault {
        replica: 0,
        thread: 0,
        at: 5,
        target: Target::Pc { bit: 3 },
    },
    Fault {
        replica: 1,
        thread: 0,
        at: 5,
        target: Target::Pc { bit: 31 },
    },
];

// An effect of the first thread that stores bytes, and ends the count since its last release.
fn stores(place: u32, bytes: Vec<u8>) -> Effect {
    Effect {
        releases: false,
        ..Effect::storing(0, place, bytes)
    }
}

// The first thread makes a second one.
fn creates(alloc: Global) -> Effect {
    Effect {
        answer: Some(0),
        goes: Goes::Next,
        made: Some(Made {
            start: 0x1_0058,
            argument: 77,
            creator: 0,
        }),
        releases: true,
        ..stores(0, Vec::new(alloc))
    }
}

fn is_page(page: Option<u32>) -> bool
    ensures { IsTrue result → IfSome page (λ p. p < 2 ^ 20) }
{
    match page {
        Some(page) => page < 0x10_0000,
        None => true,
    }
}

fn can_make(made: Option<Made>, count: usize) -> bool
    ensures { IsTrue result → IfSome made (λ m. (m.creator < count) × (count < 16)) }
{
    match made {
        Some(made) => (made.creator as usize) < count && count < 16,
        None => true,
    }
}

fn apply(rt: &impl Abort, replica: &mut Replica, effect: &Effect) -> Result<(), AllocError> {
    assert!(rt; (effect.thread as usize) < replica.threads.len());
    assert!(rt; effect.bytes.len() <= 4096);
    assert!(rt; u64::from(effect.place) + effect.bytes.len() as u64 <= 0x1_0000_0000);
    assert!(rt; is_page(effect.page));
    assert!(rt; can_make(effect.made, replica.threads.len()));
    assert!(rt; effect.range.is_none());
    replica.reserve(3)?;
    replica.apply(effect);
    Ok(())
}

// Stores bytes by an effect of the first thread.
fn put(
    rt: &impl Abort,
    alloc: Global,
    replica: &mut Replica,
    place: u32,
    bytes: &[u8],
) -> Result<(), AllocError> {
    apply(rt, replica, &stores(place, Vec::from_slice(alloc, bytes)?))
}

// A thread comes to a stop.
fn stand(rt: &impl Abort, replica: &mut Replica, thread: usize, since: u32, done: u128, stop: Stop)
    ensures program { SameProgram replica.new replica.old }
    ensures held { replica.new.held ≡ replica.old.held }
    ensures threads { length replica.new.threads ≡ length replica.old.threads }
{
    assert!(rt; thread < replica.threads.len());
    assert!(rt; since <= replica.watchdog);
    let thread = &mut replica.threads[thread];
    thread.since = since;
    thread.done = done;
    thread.stop = Some(stop);
}

fn thread(rt: &impl Abort, replica: &Replica, number: usize) -> Thread {
    assert!(rt; number < replica.threads.len());
    replica.threads[number]
}

// The first thread at the program's entry.
fn first() -> Cpu {
    let mut registers = [0; 31];
    registers[1] = 0x7000_FFF0;
    Cpu {
        registers,
        pc: 0x1_0054,
    }
}

fn program_bytes(replica: &Replica) -> [u8; 96] {
    let mut bytes = [1; 96];
    replica.pages.read_bytes(0x1_0000, &mut bytes);
    bytes
}

fn assert_program(rt: &impl Abort, replica: &Replica) {
    assert_eq!(rt; replica.waiting.as_slice(), &FAULTS[1..2]);
    assert_eq!(rt; program_bytes(replica), SHORT);
}

fn assert_first_thread(rt: &impl Abort, replica: &Replica) {
    assert_eq!(rt; replica.threads.len(), 1);
    assert_eq!(rt; thread(rt, replica, 0).cpu, first());
}

#[test]
fn opens(rt: HostRuntime) -> Result<(), AllocError> {
    let replica = alone(&rt, rt.alloc(), 1, &FAULTS)?;
    assert_program(&rt, &replica);
    assert_first_thread(&rt, &replica);
    Ok(())
}

fn make_thread(rt: &impl Abort, alloc: Global, replica: &mut Replica) -> Result<(), AllocError> {
    apply(rt, replica, &creates(alloc))
}

// A replica whose first thread has made a second one.
fn with_two_threads(rt: &impl Abort, alloc: Global) -> Result<Replica, AllocError> {
    let mut replica = alone(rt, alloc, 0, &[])?;
    make_thread(rt, alloc, &mut replica)?;
    Ok(replica)
}

// The second thread as it begins.
fn second() -> Thread {
    let mut registers = [0; 31];
    registers[0] = 0x7FFF_FFF0;
    registers[1] = 0x7002_FFF0;
    registers[3] = 1;
    registers[9] = 77;
    Thread {
        cpu: Cpu {
            registers,
            pc: 0x1_0058,
        },
        since: 0,
        done: 0,
        stop: None,
    }
}

fn assert_made(rt: &impl Abort, replica: &Replica) {
    assert_eq!(rt; thread(rt, replica, 0).cpu.pc, 0x1_0058);
    assert_eq!(rt; thread(rt, replica, 1), second());
}

// A second thread, with the registers that it begins with.
#[test]
fn makes_a_thread(rt: HostRuntime) -> Result<(), AllocError> {
    let replica = with_two_threads(&rt, rt.alloc())?;
    assert_made(&rt, &replica);
    Ok(())
}

// What an effect of another thread backs, and the stop of a thread before and after it.
struct Row {
    page: Option<u32>,
    place: u32,
    bytes: &'static [u8],
    stop: Stop,
    after: Option<Stop>,
}

const ROWS: &[Row] = &[
    Row {
        page: None,
        place: 0x1_1000,
        bytes: &[],
        stop: Stop::PageFault(0x11),
        after: Some(Stop::PageFault(0x11)),
    },
    Row {
        page: Some(0x12),
        place: 0x1_1000,
        bytes: &[],
        stop: Stop::PageFault(0x11),
        after: Some(Stop::PageFault(0x11)),
    },
    Row {
        page: Some(0x11),
        place: 0x1_1000,
        bytes: &[],
        stop: Stop::PageFault(0x11),
        after: None,
    },
    Row {
        page: None,
        place: 0x1_3FFF,
        bytes: &[1],
        stop: Stop::PageFault(0x13),
        after: None,
    },
    Row {
        page: None,
        place: 0x1_4FFF,
        bytes: &[1],
        stop: Stop::PageFault(0x15),
        after: Some(Stop::PageFault(0x15)),
    },
    Row {
        page: None,
        place: 0x1_5FFF,
        bytes: &[1, 2],
        stop: Stop::PageFault(0x16),
        after: None,
    },
    Row {
        page: Some(0x17),
        place: 0x1_1000,
        bytes: &[1],
        stop: Stop::Watchdog,
        after: Some(Stop::Watchdog),
    },
    Row {
        page: None,
        place: 0,
        bytes: &[],
        stop: Stop::PageFault(0x10),
        after: None,
    },
];

fn effect_of(alloc: Global, row: &Row) -> Result<Effect, AllocError> {
    let bytes = Vec::from_slice(alloc, row.bytes)?;
    Ok(Effect {
        page: row.page,
        ..stores(row.place, bytes)
    })
}

fn apply_row(
    rt: &impl Abort,
    alloc: Global,
    replica: &mut Replica,
    row: &Row,
) -> Result<(), AllocError> {
    apply(rt, replica, &effect_of(alloc, row)?)
}

fn check_row(
    rt: &impl Abort,
    alloc: Global,
    replica: &mut Replica,
    row: &Row,
) -> Result<(), AllocError> {
    stand(rt, replica, 0, 6, 8, Stop::Watchdog);
    stand(rt, replica, 1, 7, 9, row.stop);
    let want = Thread {
        stop: row.after,
        ..thread(rt, replica, 1)
    };
    apply_row(rt, alloc, replica, row)?;
    assert_applied(rt, replica, &want);
    Ok(())
}

fn assert_applied(rt: &impl Abort, replica: &Replica, want: &Thread) {
    assert_eq!(rt; thread(rt, replica, 1), *want);
    assert_eq!(rt; thread(rt, replica, 0).since, 0);
}

fn check_rows(rt: &impl Abort, alloc: Global, replica: &mut Replica) -> Result<(), AllocError> {
    for row in ROWS {
        check_row(rt, alloc, replica, row)?;
    }
    Ok(())
}

// A page fault goes where its page is backed, and the thread's count since its release stays.
#[test]
fn cancels_faults(rt: HostRuntime) -> Result<(), AllocError> {
    let mut replica = with_two_threads(&rt, rt.alloc())?;
    check_rows(&rt, rt.alloc(), &mut replica)
}

fn recover_one(rt: &impl Abort, winner: &mut Replica, loser: &mut Replica)
    requires { AreTwins winner.old loser.old }
{
    stand(rt, winner, 0, 6, 60, Stop::Watchdog);
    stand(rt, loser, 0, 5, 90, Stop::PageFault(0x11));
    recover(&*winner, loser);
}

fn assert_recovered(rt: &impl Abort, winner: &Replica, loser: &Replica) {
    let want = Thread {
        done: 90,
        ..thread(rt, winner, 0)
    };
    assert_eq!(rt; thread(rt, loser, 0), want);
    assert_eq!(rt; loser.waiting.as_slice(), &FAULTS[1..2]);
}

fn recover_second(
    rt: &impl Abort,
    alloc: Global,
    image: &Executable,
    faults: &[Fault],
    winner: &mut Replica,
) -> Result<(), AllocError>
    requires faults { AreFaults faults.now }
    requires winner { IsOpening image.now 0 faults.now 1000 winner.old }
{
    let mut loser = opened(alloc, image, 1, faults)?;
    recover_one(rt, winner, &mut loser);
    assert_recovered(rt, winner, &loser);
    Ok(())
}

fn recover_both(rt: &impl Abort, alloc: Global, image: &Executable) -> Result<(), AllocError> {
    let mut winner = opened(alloc, image, 0, &FAULTS)?;
    recover_second(rt, alloc, image, &FAULTS, &mut winner)
}

// The loser keeps what it has retired itself and its own faults.
#[test]
fn recovers(rt: HostRuntime) -> Result<(), AllocError> {
    recover_both(&rt, rt.alloc(), &image(&rt, rt.alloc()))
}

// A write of five bytes of the heap.
const WRITE: Stop = Stop::Calls(Call {
    which: Which::System(64),
    a0: 1,
    a1: HEAP,
    a2: 5,
    a3: 0,
});

// The view of a replica that writes the first five of these bytes.
fn view_of(rt: &impl Abort, replica: &Replica, bytes: &[u8; 6]) -> View {
    let mut view = View::new([0; 31], 0, 0, Stop::Watchdog);
    assert!(rt; replica.stop(0).is_some());
    replica.view(0, &mut view);
    assert_eq!(rt; view.payload(), &bytes[..5]);
    view
}

// The view of a replica that stores bytes and then writes the first five.
fn writes(
    rt: &impl Abort,
    alloc: Global,
    replica: &mut Replica,
    bytes: &[u8; 6],
) -> Result<View, AllocError> {
    put(rt, alloc, replica, HEAP, bytes)?;
    stand(rt, replica, 0, 6, 60, WRITE);
    Ok(view_of(rt, replica, bytes))
}

fn first_view(rt: &impl Abort, alloc: Global) -> Result<View, AllocError> {
    let mut replica = alone(rt, alloc, 0, &[])?;
    writes(rt, alloc, &mut replica, b"hello ")
}

fn is_alike(
    rt: &impl Abort,
    alloc: Global,
    first: &View,
    replica: &mut Replica,
    bytes: &[u8; 6],
) -> Result<bool, AllocError> {
    let view = writes(rt, alloc, replica, bytes)?;
    Ok(first.same(&view))
}

fn assert_views(
    rt: &impl Abort,
    alloc: Global,
    first: &View,
    replica: &mut Replica,
) -> Result<(), AllocError> {
    assert!(rt; is_alike(rt, alloc, first, replica, b"hello!")?);
    assert!(rt; !is_alike(rt, alloc, first, replica, b"hellp ")?);
    Ok(())
}

fn compare(rt: &impl Abort, alloc: Global, first: &View) -> Result<(), AllocError> {
    let mut other = alone(rt, alloc, 1, &[])?;
    assert_views(rt, alloc, first, &mut other)
}

// One byte of what is written tells two views apart, and a byte that is not written doesn't.
#[test]
fn sees_what_is_written(rt: HostRuntime) -> Result<(), AllocError> {
    let first = first_view(&rt, rt.alloc())?;
    compare(&rt, rt.alloc(), &first)
}

// Addresses of atomic instructions, and the bytes that a vote compares of each in a replica that has stored five in the heap.
const FOUND: &[(u32, &[u8])] = &[
    (HEAP, &[1, 2, 3, 4]),
    (HEAP + 4, &[0xFF, 0, 0, 0]),
    (HEAP + 8, &[0, 0, 0, 0]),
    (0x1_2000, &[0, 0, 0, 0]),
    (0xFFFF_FFFC, &[0, 0, 0, 0]),
    (HEAP + 1, &[]),
    (HEAP + 2, &[]),
];

// AMOADD of the word at an address.
fn adds(address: u32) -> Stop {
    Stop::Calls(Call {
        which: Which::Atomic(0x0053_252F),
        a0: address,
        a1: 5,
        a2: 0,
        a3: 0,
    })
}

fn assert_found(rt: &impl Abort, replica: &mut Replica, address: u32, want: &[u8]) {
    let mut view = View::new([0; 31], 0, 0, Stop::Watchdog);
    stand(rt, replica, 0, 6, 60, adds(address));
    assert!(rt; replica.stop(0).is_some());
    replica.view(0, &mut view);
    assert_eq!(rt; view.payload(), want, "at {address:x}");
}

fn assert_all_found(rt: &impl Abort, replica: &mut Replica) {
    for (address, want) in FOUND {
        assert_found(rt, replica, *address, *want);
    }
}

// The word at an atomic instruction's address, which is 0 where its page isn't backed.
#[test]
fn sees_the_word_of_an_atomic_instruction(rt: HostRuntime) -> Result<(), AllocError> {
    let mut replica = with_a_heap(&rt, rt.alloc())?;
    assert_all_found(&rt, &mut replica);
    Ok(())
}

// Registers in which an effect answers 9, and what is in x5, x10 and x31 then.
const ANSWERS: &[(u8, [u32; 3])] = &[
    (10, [0, 9, 0]),
    (5, [9, 0, 0]),
    (31, [0, 0, 9]),
    (0, [0, 0, 0]),
    (32, [0, 0, 0]),
];

fn answered(alloc: Global, register: u8) -> [u32; 3] {
    let mut cpu = first();
    let effect = Effect {
        answer: Some(9),
        register,
        ..Effect::quiet(alloc, 0)
    };
    change(&mut cpu, &effect);
    [cpu.get(5), cpu.get(10), cpu.get(31)]
}

#[test]
fn answers_in_a_register(rt: HostRuntime) {
    for (register, want) in ANSWERS {
        assert_eq!(&rt; answered(rt.alloc(), *register), *want, "in x{register}");
    }
}

// Addresses, and the words that are fetched there.
const WORDS: &[(u32, Option<u32>)] = &[
    (0x1_0054, Some(0x0070_0513)),
    (0x1_005C, Some(0x0000_0073)),
    (0x1_0060, Some(0)),
    (0x1_0056, None),
    (HEAP, Some(0x0403_0201)),
    (HEAP + 4, Some(0xFF)),
    (HEAP + 1, None),
    (0x1_2000, None),
    (0xFFFF_FFFC, None),
];

fn back_heap(rt: &impl Abort, alloc: Global, replica: &mut Replica) -> Result<(), AllocError> {
    assert_eq!(rt; replica.word(HEAP), None);
    put(rt, alloc, replica, HEAP, &[1, 2, 3, 4, 0xFF])
}

// A replica that has stored five bytes in the heap.
fn with_a_heap(rt: &impl Abort, alloc: Global) -> Result<Replica, AllocError> {
    let mut replica = alone(rt, alloc, 0, &[])?;
    back_heap(rt, alloc, &mut replica)?;
    Ok(replica)
}

fn assert_words(rt: &impl Abort, replica: &ReplicaBox) {
    for (address, want) in WORDS {
        assert_eq!(rt; replica.word(*address), *want, "at {address:x}");
    }
}

// Words of the program, of the heap once its page is backed, and none where it isn't or at no multiple of 4.
#[test]
fn words_as_they_are_fetched(rt: HostRuntime) -> Result<(), AllocError> {
    let replica = with_a_heap(&rt, rt.alloc())?;
    let replica = ReplicaBox::new(rt.alloc(), replica)?;
    assert_words(&rt, &replica);
    Ok(())
}
