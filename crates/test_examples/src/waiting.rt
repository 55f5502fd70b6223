//! A guest that waits on a condition variable: its plan and its races.

use ro_image::{Executable, read_executable};
use ro_io::MemSink;
use ro_journal::{Did, Entry, How, Lost};
use ro_machine::{PlainEnd, PlanError, plan_steps, run_plan};
use ro_make::image_bytes;
use ro_races::{Found, check};
use ro_settings::Mode;
use std::alloc::{AllocError, Global};
use std::process::Abort;
use std::sync::Arc;
use std::test::Fail;

// Thread 0 makes thread 1, locks the mutex and waits until a byte is there, unlocks it and exits with that byte. Thread 1
// stores the byte under the mutex, and signals.
const QUEUE: [u32; 36] = [
    0x0001_01B7,
    0x0D41_8513,
    0x09C1_8613,
    0x0D81_8693,
    0x0580_00EF,
    0x0D81_8513,
    0x0540_00EF,
    0x0E01_C283,
    0x0002_9A63,
    0x0DC1_8513,
    0x0D81_8593,
    0x0480_00EF,
    0xFEDF_F06F,
    0x0D81_8513,
    0x0380_00EF,
    0x0002_8513,
    0x05D0_0893,
    0x0000_0073,
    0x0240_00EF,
    0x0010_0293,
    0x0E51_8023,
    0x0DC1_8513,
    0x0200_00EF,
    0x0D81_8513,
    0x0100_00EF,
    0x0180_00EF,
    0x0000_8067,
    0x0000_8067,
    0x0000_8067,
    0x0000_8067,
    0x0000_8067,
    0x0000_8067,
    0x0000_0000,
    0x0000_0000,
    0x0000_0000,
    0x0000_0000,
];

// Where thread 0 goes on if the byte is there, and where thread 1 calls lock and unlock.
const LOOKS: usize = 8;

const LOCKS: usize = 18;

const UNLOCKS: usize = 24;

const NOTHING_DONE: u32 = 0x0000_0013;

const BYTE: u64 = 0x1_00E0;

const NAMES: [(&str, u32); 6] = [
    ("pthread_create", 0x1_00BC),
    ("pthread_mutex_lock", 0x1_00C0),
    ("pthread_mutex_unlock", 0x1_00C4),
    ("pthread_cond_wait", 0x1_00C8),
    ("pthread_cond_signal", 0x1_00CC),
    ("pthread_exit", 0x1_00D0),
];

fn vote(thread: u32, count: u32, did: Did) -> Entry {
    Entry::Vote {
        thread,
        count,
        won: 0,
        lost: Lost::Nobody,
        did,
    }
}

fn image(rt: &impl Abort, alloc: Global, words: &[u32]) -> Result<Arc<Executable>, AllocError> {
    assert!(rt; words.len() < 100);
    let file = image_bytes(alloc, words, 7, &NAMES)?;
    match read_executable(alloc, file.as_slice()) {
        Ok(image) => Ok(Arc::new(alloc, image)?),
        Err(_) => panic!(rt; "it is accepted"),
    }
}

// What comes of a plan of the guest.
fn run(
    rt: &impl Abort,
    alloc: Global,
    words: &[u32],
    journal: &[Entry],
) -> Result<Result<PlainEnd, PlanError>, AllocError> {
    let Ok(_) = plan_steps(Mode::Voted, journal) else {
        panic!(rt; "it is short");
    };
    let image = image(rt, alloc, words)?;
    let mut out = MemSink::new(alloc, 0, Vec::new(alloc))?;
    Ok(run_plan(alloc, &image, &[], Mode::Voted, journal, &mut out))
}

// The first race of a plan.
fn race(
    rt: &impl Abort,
    alloc: Global,
    words: &[u32],
    journal: &[Entry],
) -> Result<Found, AllocError> {
    let Ok(_) = plan_steps(Mode::Voted, journal) else {
        panic!(rt; "it is short");
    };
    let image = image(rt, alloc, words)?;
    match check(alloc, &image, &[], Mode::Voted, journal) {
        Ok(found) => Ok(found),
        Err(_) => panic!(rt; "all steps exist"),
    }
}

#[test]
fn waits_for_a_byte(rt: HostRuntime) -> Result<(), Fail> {
    let journal = [
        vote(0, 5, Did::Served),
        vote(0, 2, Did::Served),
        vote(0, 5, Did::Parked),
        vote(1, 1, Did::Served),
        vote(1, 4, Did::Served),
        vote(1, 2, Did::Served),
        Entry::Free { thread: 0 },
        vote(0, 5, Did::Served),
        vote(0, 2, Did::Served),
    ];
    let want = PlainEnd {
        how: Some(How::Exit(1)),
        bytes: 0,
    };
    assert_eq!(rt; run(&rt, rt.alloc(), &QUEUE, &journal)?, Ok(want));
    let found = race(&rt, rt.alloc(), &QUEUE, &journal)?;
    assert_eq!(rt; found, Found::NoRace);
    Ok(())
}

// A wait does not go on before it is signalled, nor while another holds its mutex.
#[test]
fn waits_for_signal_and_mutex(rt: HostRuntime) -> Result<(), Fail> {
    let begun = [
        vote(0, 5, Did::Served),
        vote(0, 2, Did::Served),
        vote(0, 5, Did::Parked),
        vote(1, 1, Did::Served),
        vote(1, 4, Did::Served),
        vote(1, 2, Did::Served),
    ];
    for (count, place) in [(3, 15), (4, 17), (5, 22)] {
        let mut journal = Vec::new(rt.alloc());
        for entry in begun.iter().take(count) {
            journal.push(*entry)?;
        }
        journal.push(Entry::Free { thread: 0 })?;
        let came = run(&rt, rt.alloc(), &QUEUE, journal.as_slice())?;
        assert_eq!(rt; came, Err(PlanError::NoStep { place }), "{count}");
    }
    Ok(())
}

// A byte that is there already is not waited for, and a signal that nobody waited for is lost.
#[test]
fn a_signal_is_not_kept(rt: HostRuntime) -> Result<(), Fail> {
    let early = [
        vote(0, 5, Did::Served),
        vote(1, 1, Did::Served),
        vote(1, 4, Did::Served),
        vote(1, 2, Did::Served),
        vote(0, 2, Did::Served),
        vote(0, 4, Did::Served),
        vote(0, 2, Did::Served),
    ];
    let want = PlainEnd {
        how: Some(How::Exit(1)),
        bytes: 0,
    };
    assert_eq!(rt; run(&rt, rt.alloc(), &QUEUE, &early)?, Ok(want));
    let mut words = QUEUE;
    words[LOOKS] = NOTHING_DONE;
    let lost = [
        vote(0, 5, Did::Served),
        vote(1, 1, Did::Served),
        vote(1, 4, Did::Served),
        vote(1, 2, Did::Served),
        vote(0, 2, Did::Served),
        vote(0, 5, Did::Parked),
        vote(1, 1, Did::Served),
    ];
    let want = PlainEnd {
        how: Some(How::Deadlock),
        bytes: 0,
    };
    assert_eq!(rt; run(&rt, rt.alloc(), &words, &lost)?, Ok(want));
    Ok(())
}

// Without the mutex the byte is stored in a race with each look at it, for a signal makes no order.
#[test]
fn a_queue_without_its_mutex_races(rt: HostRuntime) -> Result<(), Fail> {
    let mut words = QUEUE;
    words[LOCKS] = NOTHING_DONE;
    words[UNLOCKS] = NOTHING_DONE;
    let before = [
        vote(0, 5, Did::Served),
        vote(0, 2, Did::Served),
        vote(0, 5, Did::Parked),
        vote(1, 5, Did::Served),
    ];
    let want = Found::Pair {
        i: 9,
        j: 17,
        byte: BYTE,
    };
    assert_eq!(rt; race(&rt, rt.alloc(), &words, &before)?, want);
    Ok(())
}
