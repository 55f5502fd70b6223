//! Plans of small guests.
ghost use Rattle.std.specs.Prelude.{◌≡◌};

use ro_image::{Executable, read_executable};
use ro_io::{Act, MemSink};
use ro_journal::{Did, Entry, How, Lease, Lost};
use ro_machine::{
    MOST_STEPS, Plain, PlainEnd, PlanError, StepError, TooLong, plan_steps, run_plan,
};
use ro_make::{bench_image, image_bytes};
use ro_plans::plan_length;
use ro_settings::Mode;
use std::alloc::{AllocError, Global};
use std::process::Abort;
use std::sync::Arc;
use std::test::Fail;

// Ends with the status 7.
const SHORT: [u32; 3] = [0x0070_0513, 0x05D0_0893, 0x0000_0073];

// Writes `hello` and ends with the status 0.
const HELLO: [u32; 11] = [
    0x0010_0513,
    0x0001_05B7,
    0x0785_8593,
    0x0050_0613,
    0x0400_0893,
    0x0000_0073,
    0x0000_0513,
    0x05D0_0893,
    0x0000_0073,
    0x6C6C_6568,
    0x0000_006F,
];

// Two threads that write a letter each under one mutex.
const LETTERS: [u32; 39] = [
    0x0001_0437,
    0x0E04_0513,
    0x0000_0593,
    0x0984_0613,
    0x0EC4_0693,
    0x0640_00EF,
    0x0E44_0513,
    0x0ED4_0693,
    0x0580_00EF,
    0x0010_0513,
    0x0000_0593,
    0x0500_00EF,
    0x0020_0513,
    0x0480_00EF,
    0x0000_0513,
    0x05D0_0893,
    0x0000_0073,
    0x0005_0493,
    0x0001_0437,
    0x0E84_0513,
    0x0300_00EF,
    0x0010_0513,
    0x0004_8593,
    0x0010_0613,
    0x0400_0893,
    0x0000_0073,
    0x0E84_0513,
    0x0180_00EF,
    0x0000_0513,
    0x0140_00EF,
    0x0000_8067,
    0x0000_8067,
    0x0000_8067,
    0x0000_8067,
    0x0000_8067,
    0x0000_0000,
    0x0000_0000,
    0x0000_0000,
    0x0000_4241,
];

const NAMES: [(&str, u32); 5] = [
    ("pthread_create", 0x1_00CC),
    ("pthread_join", 0x1_00D0),
    ("pthread_mutex_lock", 0x1_00D4),
    ("pthread_mutex_unlock", 0x1_00D8),
    ("pthread_exit", 0x1_00DC),
];

fn image(rt: &impl Abort, alloc: Global, words: &[u32]) -> Result<Executable, AllocError> {
    assert!(rt; words.len() < 100);
    let file = image_bytes(alloc, words, 7, &[])?;
    match read_executable(alloc, file.as_slice()) {
        Ok(image) => Ok(image),
        Err(_) => panic!(rt; "it is accepted"),
    }
}

fn letters(rt: &impl Abort, alloc: Global) -> Result<Executable, AllocError> {
    let file = image_bytes(alloc, &LETTERS, 7, &NAMES)?;
    match read_executable(alloc, file.as_slice()) {
        Ok(image) => Ok(image),
        Err(_) => panic!(rt; "it is accepted"),
    }
}

fn vote(thread: u32, count: u32, did: Did) -> Entry {
    Entry::Vote {
        thread,
        count,
        won: 0,
        lost: Lost::Nobody,
        did,
    }
}

fn put(replica: u32, thread: u32, count: u32) -> Entry {
    let lease = Lease {
        driver: replica,
        replica,
        thread,
    };
    Entry::Put {
        lease,
        count,
        hit: 0,
    }
}

fn part(replica: u32, thread: u32, count: u32) -> Entry {
    let lease = Lease {
        driver: replica,
        replica,
        thread,
    };
    Entry::Part {
        lease,
        count,
        hit: 0,
    }
}

fn run(
    rt: &impl Abort,
    alloc: Global,
    image: Executable,
    mode: Mode,
    journal: &[Entry],
    out: &mut MemSink,
) -> Result<PlainEnd, PlanError>
    requires { out.old.failures ≡ 0 }
{
    let Ok(_) = plan_steps(mode, journal) else {
        panic!(rt; "it is short");
    };
    let Ok(image) = Arc::new(alloc, image) else {
        return Err(PlanError::NoMemory);
    };
    run_plan(alloc, &image, &[], mode, journal, out)
}

#[test]
fn short_plans(rt: HostRuntime) -> Result<(), Fail> {
    let exit = PlainEnd {
        how: Some(How::Exit(7)),
        bytes: 0,
    };
    let unended = PlainEnd {
        how: None,
        bytes: 0,
    };
    for (entry, want) in [
        (vote(0, 2, Did::Served), Ok(exit)),
        (vote(0, 3, Did::Watch), Ok(exit)),
        (vote(0, 2, Did::Blocked), Ok(unended)),
        (vote(0, 3, Did::Served), Err(PlanError::NoStep { place: 3 })),
        (
            Entry::Free { thread: 1 },
            Err(PlanError::NoStep { place: 0 }),
        ),
        (Entry::End { how: How::Deadlock }, Ok(unended)),
    ] {
        let mut out = MemSink::new(rt.alloc(), 0, Vec::new(rt.alloc()))?;
        let image = image(&rt, rt.alloc(), &SHORT)?;
        let came = run(&rt, rt.alloc(), image, Mode::Voted, &[entry], &mut out);
        assert_eq!(rt; came, want, "{entry:?}");
    }
    Ok(())
}

#[test]
fn two_threads(rt: HostRuntime) -> Result<(), Fail> {
    let journal = [
        vote(0, 6, Did::Served),
        vote(0, 3, Did::Served),
        vote(1, 4, Did::Served),
        vote(1, 4, Did::Served),
        vote(1, 2, Did::Served),
        vote(1, 2, Did::Served),
        vote(0, 3, Did::Served),
        vote(2, 4, Did::Served),
        vote(2, 4, Did::Served),
        vote(0, 2, Did::Blocked),
        vote(2, 2, Did::Served),
        vote(2, 2, Did::Served),
        Entry::Free { thread: 0 },
        vote(0, 2, Did::Served),
    ];
    let mut out = MemSink::new(rt.alloc(), 8, Vec::new(rt.alloc()))?;
    let end = run(
        &rt,
        rt.alloc(),
        letters(&rt, rt.alloc())?,
        Mode::Voted,
        &journal,
        &mut out,
    );
    let want = PlainEnd {
        how: Some(How::Exit(0)),
        bytes: 2,
    };
    assert_eq!(rt; end, Ok(want));
    assert_eq!(rt; out.bytes(), b"AB".as_slice());
    Ok(())
}

// What a guest writes whose threads go on in turns, each up to a step that it does not have.
fn written_in_turns(
    rt: &impl Abort,
    alloc: Global,
    image: Executable,
) -> Result<Vec<u8>, AllocError> {
    let image = Arc::new(alloc, image)?;
    let mut plain = Plain::begin(alloc, &image, &[])?;
    let mut text = Vec::new(alloc);
    for _ in 0..100_000 {
        for thread in 0..plain.made() {
            for _ in 0..1_000 {
                match plain.step(thread) {
                    Ok(()) => text.extend_from_slice(plain.written())?,
                    Err(StepError::NoStep) => break,
                    Err(StepError::NoMemory) => return Err(AllocError),
                }
            }
        }
        if plain.ended().is_some() {
            break;
        }
    }
    assert_eq!(rt; plain.ended(), Some(How::Exit(0)));
    Ok(text)
}

// The guest that measures writes its sum.
#[test]
fn measured(rt: HostRuntime) -> Result<(), Fail> {
    for (seed, size, want) in [
        (1, 1, "00000009\n"),
        (5, 100, "00023604\n"),
        (13, 2_000, "0e55e430\n"),
    ] {
        let file = bench_image(rt.alloc(), seed, size)?;
        let Ok(image) = read_executable(rt.alloc(), file.as_slice()) else {
            panic!(rt; "it is accepted");
        };
        let text = written_in_turns(&rt, rt.alloc(), image)?;
        assert_eq!(rt; text.as_slice(), want.as_bytes());
    }
    Ok(())
}

#[test]
fn failing_sinks(rt: HostRuntime) -> Result<(), Fail> {
    let whole = [vote(0, 5, Did::Served), vote(0, 2, Did::Served)];
    for (acts, want, bytes) in [
        ([Act::Fail, Act::Fail], 0, "".as_bytes()),
        ([Act::Take(2), Act::Fail], 2, "he".as_bytes()),
        ([Act::Take(4), Act::Fail], 4, "hell".as_bytes()),
    ] {
        let acts = acts.to_vec(rt.alloc())?;
        let mut out = MemSink::new(rt.alloc(), 8, acts)?;
        let image = image(&rt, rt.alloc(), &HELLO)?;
        let came = run(&rt, rt.alloc(), image, Mode::Voted, &whole, &mut out);
        assert_eq!(rt; came, Err(PlanError::SinkFailed { taken: want }));
        assert_eq!(rt; out.bytes(), bytes);
    }
    Ok(())
}

#[test]
fn long_plans(rt: HostRuntime) {
    let most = [vote(0, 999_999_999, Did::Served)];
    let past = [vote(0, 999_999_999, Did::Served), Entry::Free { thread: 0 }];
    assert_eq!(rt; plan_steps(Mode::Voted, &most), Ok(MOST_STEPS));
    assert_eq!(rt;
        plan_steps(Mode::Voted, &past),
        Err(TooLong {
            steps: MOST_STEPS,
            next: 1
        })
    );
}

// How many steps a plan has, counted in two ways.
fn length(rt: &impl Abort, mode: Mode, journal: &[Entry]) -> u64 {
    let Ok(steps) = plan_steps(mode, journal) else {
        panic!(rt; "it is short");
    };
    assert_eq!(rt; plan_length(mode, journal), steps);
    steps
}

// Each step is in a cooperative plan once, whichever replica makes it first. Replica 9 and thread 40 are none of any run.
#[test]
fn first_steps(rt: HostRuntime) {
    let journal = [
        put(0, 0, 3),
        put(1, 0, 2),
        part(1, 0, 2),
        vote(0, 4, Did::Served),
        vote(0, 0, Did::Blocked),
        Entry::Free { thread: 1 },
        put(9, 0, 6),
        part(0, 0, 2),
        put(0, 40, 2),
        put(9, 40, 3),
        put(0, 40, 2),
        Entry::End { how: How::Deadlock },
    ];
    let firsts = [0, 3, 3, 4, 5, 5, 6, 8, 8, 10, 11, 12, 12];
    let voted = [0, 0, 0, 0, 5, 5, 6, 6, 6, 6, 6, 6, 6];
    for count in 0..=journal.len() {
        assert_eq!(rt;
            length(&rt, Mode::Cooperative, &journal[..count]),
            firsts[count],
            "{count}"
        );
        assert_eq!(rt;
            length(&rt, Mode::Voted, &journal[..count]),
            voted[count],
            "{count}"
        );
    }
}

#[test]
fn long_plans_of_leases(rt: HostRuntime) {
    let journal = [
        put(0, 0, 600_000_000),
        put(1, 0, 700_000_000),
        part(0, 0, 500_000_000),
    ];
    assert_eq!(rt; plan_steps(Mode::Voted, &journal), Ok(0));
    assert_eq!(rt;
        plan_steps(Mode::Cooperative, &journal[..2]),
        Ok(700_000_000)
    );
    assert_eq!(rt;
        plan_steps(Mode::Cooperative, &journal),
        Err(TooLong {
            steps: 700_000_000,
            next: 400_000_000
        })
    );
}

// The guest's call is voted on when the replicas' leases have brought it there.
#[test]
fn plans_of_leases(rt: HostRuntime) -> Result<(), Fail> {
    let journal = [
        put(0, 0, 3),
        put(1, 0, 5),
        part(0, 0, 2),
        vote(0, 0, Did::Served),
        part(0, 0, 2),
        put(1, 0, 2),
        vote(0, 0, Did::Served),
    ];
    let mut out = MemSink::new(rt.alloc(), 8, Vec::new(rt.alloc()))?;
    let hello = image(&rt, rt.alloc(), &HELLO)?;
    let want = PlainEnd {
        how: Some(How::Exit(0)),
        bytes: 5,
    };
    let came = run(
        &rt,
        rt.alloc(),
        hello,
        Mode::Cooperative,
        &journal,
        &mut out,
    );
    assert_eq!(rt; came, Ok(want));
    assert_eq!(rt; out.bytes(), b"hello".as_slice());
    let mut out = MemSink::new(rt.alloc(), 8, Vec::new(rt.alloc()))?;
    let hello = image(&rt, rt.alloc(), &HELLO)?;
    let voted = run(&rt, rt.alloc(), hello, Mode::Voted, &journal, &mut out);
    assert_eq!(rt;
        voted,
        Ok(PlainEnd {
            how: None,
            bytes: 0
        })
    );
    Ok(())
}
