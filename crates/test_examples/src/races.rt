//! Plans of small guests.
use ro_image::{Executable, read_executable};
use ro_journal::{Did, Entry, Lease, Lost};
use ro_machine::plan_steps;
use ro_make::image_bytes;
use ro_races::{Found, RacesError, check};
use ro_settings::Mode;
use std::alloc::{AllocError, Global};
use std::process::Abort;
use std::sync::Arc;
use std::test::Fail;

// Two threads that store to one page, side by side; thread 0 joins the other at the end.
const PAGE: [u32; 22] = [
    0x0001_0437,
    0x0A84_0513,
    0x0000_0593,
    0x08C4_0613,
    0x0000_0693,
    0x0340_00EF,
    0x0001_12B7,
    0x0002_8023,
    0x0010_0513,
    0x0000_0593,
    0x0240_00EF,
    0x0000_0513,
    0x05D0_0893,
    0x0000_0073,
    0x0001_12B7,
    0x0002_80A3,
    0x0000_0513,
    0x00C0_00EF,
    0x0000_8067,
    0x0000_8067,
    0x0000_8067,
    0x0000_0000,
];

const PAGE_NAMES: [(&str, u32); 3] = [
    ("pthread_create", 0x1_009C),
    ("pthread_join", 0x1_00A0),
    ("pthread_exit", 0x1_00A4),
];

// Thread 0 makes thread 1 and stores, and so does thread 1.
const RACING: [u32; 11] = [
    0x0001_01B7,
    0x0781_8513,
    0x06C1_8613,
    0x0140_00EF,
    0x0601_8E23,
    0x0010_0073,
    0x0601_8E23,
    0x0010_0073,
    0x0000_8067,
    0x0000_0000,
    0x0000_0000,
];

// Thread 0 stores, and then makes thread 1, which stores.
const CREATED: [u32; 11] = [
    0x0001_01B7,
    0x0601_8E23,
    0x0781_8513,
    0x06C1_8613,
    0x0100_00EF,
    0x0010_0073,
    0x0601_8E23,
    0x0010_0073,
    0x0000_8067,
    0x0000_0000,
    0x0000_0000,
];

const CREATE: [(&str, u32); 1] = [("pthread_create", 0x1_0074)];

// Thread 0 makes thread 1, which stores and exits, joins it and stores.
const JOINED: [u32; 14] = [
    0x0001_01B7,
    0x0841_8513,
    0x0741_8613,
    0x01C0_00EF,
    0x0010_0513,
    0x0180_00EF,
    0x0801_8423,
    0x0010_0073,
    0x0801_8423,
    0x0000_8067,
    0x0000_8067,
    0x0000_8067,
    0x0000_0000,
    0x0000_0000,
];

// It joins a thread that there is not, and stores.
const NOT_JOINED: [u32; 14] = [
    0x0001_01B7,
    0x0841_8513,
    0x0741_8613,
    0x01C0_00EF,
    0x0030_0513,
    0x0180_00EF,
    0x0801_8423,
    0x0010_0073,
    0x0801_8423,
    0x0000_8067,
    0x0000_8067,
    0x0000_8067,
    0x0000_0000,
    0x0000_0000,
];

const JOIN: [(&str, u32); 2] = [("pthread_create", 0x1_007C), ("pthread_join", 0x1_0080)];

// Both threads store under one mutex.
const LOCKED: [u32; 22] = [
    0x0001_01B7,
    0x0A01_8513,
    0x0801_8613,
    0x0A41_8693,
    0x0300_00EF,
    0x0A41_8513,
    0x02C0_00EF,
    0x0A01_8423,
    0x0A41_8513,
    0x0240_00EF,
    0x0010_0073,
    0x0180_00EF,
    0x0A01_8423,
    0x0A41_8513,
    0x0100_00EF,
    0x0010_0073,
    0x0000_8067,
    0x0000_8067,
    0x0000_8067,
    0x0000_0000,
    0x0000_0000,
    0x0000_0000,
];

const LOCK: [(&str, u32); 3] = [
    ("pthread_create", 0x1_0094),
    ("pthread_mutex_lock", 0x1_0098),
    ("pthread_mutex_unlock", 0x1_009C),
];

const TRYLOCK: [(&str, u32); 3] = [
    ("pthread_create", 0x1_0094),
    ("pthread_mutex_trylock", 0x1_0098),
    ("pthread_mutex_unlock", 0x1_009C),
];

// Thread 0 makes thread 1, which stores a byte, and reads one byte of the input to the same place.
const READING: [u32; 15] = [
    0x0001_01B7,
    0x0881_8513,
    0x07C1_8613,
    0x0240_00EF,
    0x0000_0513,
    0x08C1_8593,
    0x0010_0613,
    0x03F0_0893,
    0x0000_0073,
    0x0010_0073,
    0x0801_8623,
    0x0010_0073,
    0x0000_8067,
    0x0000_0000,
    0x0000_0000,
];

// It writes that byte to the output.
const WRITING: [u32; 15] = [
    0x0001_01B7,
    0x0881_8513,
    0x07C1_8613,
    0x0240_00EF,
    0x0010_0513,
    0x08C1_8593,
    0x0010_0613,
    0x0400_0893,
    0x0000_0073,
    0x0010_0073,
    0x0801_8623,
    0x0010_0073,
    0x0000_8067,
    0x0000_0000,
    0x0000_0000,
];

const CALL: [(&str, u32); 1] = [("pthread_create", 0x1_0084)];

// The functions that a guest's names stand for.
#[derive(Clone, Copy)]
enum Names {
    Page,
    Create,
    Join,
    Lock,
    TryLock,
    Call,
}

fn file(
    rt: &impl Abort,
    alloc: Global,
    words: &[u32],
    names: Names,
) -> Result<Vec<u8>, AllocError> {
    assert!(rt; words.len() < 100);
    match names {
        Names::Page => image_bytes(alloc, words, 7, &PAGE_NAMES),
        Names::Create => image_bytes(alloc, words, 7, &CREATE),
        Names::Join => image_bytes(alloc, words, 7, &JOIN),
        Names::Lock => image_bytes(alloc, words, 7, &LOCK),
        Names::TryLock => image_bytes(alloc, words, 7, &TRYLOCK),
        Names::Call => image_bytes(alloc, words, 7, &CALL),
    }
}

fn image(
    rt: &impl Abort,
    alloc: Global,
    words: &[u32],
    names: Names,
) -> Result<Executable, AllocError> {
    let file = file(rt, alloc, words, names)?;
    match read_executable(alloc, file.as_slice()) {
        Ok(image) => Ok(image),
        Err(_) => panic!(rt; "it is accepted"),
    }
}

fn vote(thread: u32, count: u32, did: Did) -> Entry {
    Entry::Vote {
        thread,
        count,
        won: 0,
        lost: Lost::Nobody,
        did,
    }
}

fn run(
    rt: &impl Abort,
    alloc: Global,
    words: &[u32],
    names: Names,
    journal: &[Entry],
) -> Result<Result<Found, RacesError>, AllocError> {
    run_in(rt, alloc, words, names, Mode::Voted, journal)
}

fn run_in(
    rt: &impl Abort,
    alloc: Global,
    words: &[u32],
    names: Names,
    mode: Mode,
    journal: &[Entry],
) -> Result<Result<Found, RacesError>, AllocError> {
    let Ok(_) = plan_steps(mode, journal) else {
        panic!(rt; "it is short");
    };
    let image = Arc::new(alloc, image(rt, alloc, words, names)?)?;
    Ok(check(alloc, &image, b"x", mode, journal))
}

fn put(replica: u32, thread: u32, count: u32) -> Entry {
    let lease = Lease {
        driver: replica,
        replica,
        thread,
    };
    Entry::Put {
        lease,
        count,
        hit: 0,
    }
}

#[test]
fn bytes_of_a_page(rt: HostRuntime) -> Result<(), Fail> {
    let journal = [
        vote(0, 6, Did::Served),
        vote(0, 1, Did::PageBacked),
        vote(0, 4, Did::Blocked),
        vote(1, 4, Did::Served),
        Entry::Free { thread: 0 },
        vote(0, 2, Did::Served),
    ];
    let beside = run(&rt, rt.alloc(), &PAGE, Names::Page, &journal)?;
    assert_eq!(rt; beside, Ok(Found::NoRace));
    let mut words = PAGE;
    words[15] = 0x0002_8023;
    let want = Found::Pair {
        i: 8,
        j: 13,
        byte: 69632,
    };
    let one_byte = run(&rt, rt.alloc(), &words, Names::Page, &journal)?;
    assert_eq!(rt; one_byte, Ok(want));
    Ok(())
}

#[test]
fn creation_orders(rt: HostRuntime) -> Result<(), Fail> {
    let created = [vote(0, 5, Did::Served), vote(1, 1, Did::Watch)];
    let racing = [
        vote(0, 4, Did::Served),
        vote(0, 1, Did::Watch),
        vote(1, 1, Did::Watch),
    ];
    let ordered = run(&rt, rt.alloc(), &CREATED, Names::Create, &created)?;
    assert_eq!(rt; ordered, Ok(Found::NoRace));
    let want = Found::Pair {
        i: 5,
        j: 6,
        byte: 0x1_007C,
    };
    let unordered = run(&rt, rt.alloc(), &RACING, Names::Create, &racing)?;
    assert_eq!(rt; unordered, Ok(want));
    Ok(())
}

// Thread 1 stores first in replica 0, thread 0 in replica 1, whose lease comes back behind it.
#[test]
fn leases_race(rt: HostRuntime) -> Result<(), Fail> {
    let journal = [
        put(0, 0, 4),
        put(1, 0, 4),
        vote(0, 4, Did::Served),
        put(0, 1, 1),
        put(1, 0, 1),
        put(1, 1, 1),
        put(0, 0, 1),
    ];
    let want = Found::Pair {
        i: 5,
        j: 6,
        byte: 0x1_007C,
    };
    let raced = run_in(
        &rt,
        rt.alloc(),
        &RACING,
        Names::Create,
        Mode::Cooperative,
        &journal,
    )?;
    assert_eq!(rt; raced, Ok(want));
    let voted = run(&rt, rt.alloc(), &RACING, Names::Create, &journal)?;
    assert_eq!(rt; voted, Ok(Found::NoRace));
    Ok(())
}

#[test]
fn a_missing_step_is_told_behind_a_race(rt: HostRuntime) -> Result<(), Fail> {
    let journal = [
        vote(0, 4, Did::Served),
        vote(0, 1, Did::Watch),
        vote(1, 1, Did::Watch),
        Entry::Free { thread: 2 },
    ];
    let missing = run(&rt, rt.alloc(), &RACING, Names::Create, &journal)?;
    assert_eq!(rt; missing, Err(RacesError::NoStep { place: 7 }));
    Ok(())
}

#[test]
fn joins_order(rt: HostRuntime) -> Result<(), Fail> {
    let journal = [
        vote(0, 4, Did::Served),
        vote(1, 2, Did::Served),
        vote(0, 2, Did::Served),
        vote(0, 1, Did::Watch),
    ];
    let ordered = run(&rt, rt.alloc(), &JOINED, Names::Join, &journal)?;
    assert_eq!(rt; ordered, Ok(Found::NoRace));
    let want = Found::Pair {
        i: 5,
        j: 11,
        byte: 0x1_0088,
    };
    let failed = run(&rt, rt.alloc(), &NOT_JOINED, Names::Join, &journal)?;
    assert_eq!(rt; failed, Ok(want));
    Ok(())
}

#[test]
fn mutexes_order(rt: HostRuntime) -> Result<(), Fail> {
    let journal = [
        vote(0, 5, Did::Served),
        vote(0, 2, Did::Served),
        vote(0, 3, Did::Served),
        vote(1, 1, Did::Served),
        vote(1, 1, Did::Watch),
    ];
    let locked = run(&rt, rt.alloc(), &LOCKED, Names::Lock, &journal)?;
    assert_eq!(rt; locked, Ok(Found::NoRace));
    let tried = run(&rt, rt.alloc(), &LOCKED, Names::TryLock, &journal)?;
    assert_eq!(rt; tried, Ok(Found::NoRace));
    let busy = [
        vote(0, 5, Did::Served),
        vote(0, 2, Did::Served),
        vote(0, 1, Did::Watch),
        vote(1, 1, Did::Served),
        vote(1, 1, Did::Watch),
    ];
    let want = Found::Pair {
        i: 9,
        j: 12,
        byte: 0x1_00A8,
    };
    let failed = run(&rt, rt.alloc(), &LOCKED, Names::TryLock, &busy)?;
    assert_eq!(rt; failed, Ok(want));
    Ok(())
}

#[test]
fn calls_access_bytes(rt: HostRuntime) -> Result<(), Fail> {
    let journal = [
        vote(0, 4, Did::Served),
        vote(0, 4, Did::Served),
        vote(1, 1, Did::Watch),
    ];
    let want = Found::Pair {
        i: 9,
        j: 10,
        byte: 0x1_008C,
    };
    let reading = run(&rt, rt.alloc(), &READING, Names::Call, &journal)?;
    assert_eq!(rt; reading, Ok(want));
    let writing = run(&rt, rt.alloc(), &WRITING, Names::Call, &journal)?;
    assert_eq!(rt; writing, Ok(want));
    Ok(())
}
