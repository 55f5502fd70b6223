//! Rows of runs: a small program, the faults that are struck in it, and what its thread is at the end.
ghost use Rattle.std.specs.Prelude.{◌≡◌, IsTrue};
ghost use Rattle.ro_faults.specs.Texts.{is_target};
ghost use Rattle.ro_replica.specs.Seen.{AreFaults, CanCount};

use super::*;
use ro_event::{Call, Stop, TrapCause, Which};
use ro_faults::{Fault, Target};
use ro_image::{Executable, read_executable};
use ro_region::Regions;
use ro_thread::Thread;
use std::alloc::{AllocError, Global};
use std::process::Abort;

// addi x10, x0, 7; addi x10, x10, 1; addi x31, x31, 2; addi x17, x0, 93; ecall
const FILE: [u8; 104] = [
    0x7F, 0x45, 0x4C, 0x46, 1, 1, 1, 0, 0, 0, 0, 0, 0, 0, 0, 0, 2, 0, 0xF3, 0, 1, 0, 0, 0, 0x54, 0,
    1, 0, 0x34, 0, 0, 0, 0, 0, 0, 0, 0, 0, 0, 0, 0x34, 0, 0x20, 0, 1, 0, 0, 0, 0, 0, 0, 0, 1, 0, 0,
    0, 0, 0, 0, 0, 0, 0, 1, 0, 0, 0, 1, 0, 0x68, 0, 0, 0, 0x68, 0, 0, 0, 5, 0, 0, 0, 0, 0x10, 0, 0,
    0x13, 5, 0x70, 0, 0x13, 5, 0x15, 0, 0x93, 0x8F, 0x2F, 0, 0x93, 8, 0xD0, 5, 0x73, 0, 0, 0,
];

const ENTRY: u32 = 0x1_0054;

// behind the program, on its page
const PAST: u32 = 0x1_0100;

// of the heap, whose pages are not backed
const HEAP: u32 = 0x1_1008;

fn image(rt: &impl Abort, alloc: Global) -> Executable {
    match read_executable(alloc, &FILE) {
        Ok(image) => image,
        Err(_) => panic!(rt; "it is accepted"),
    }
}

fn opened(
    rt: &impl Abort,
    alloc: Global,
    faults: &[Fault],
    watchdog: u32,
) -> Result<Replica, AllocError> {
    assert!(rt; are_faults(faults));
    let image = image(rt, alloc);
    let regions = Regions::new(alloc, image.ranges())?;
    Replica::new(alloc, &image, regions, 0, faults, watchdog)
}

fn fault(at: u64, target: Target) -> Fault {
    Fault {
        replica: 0,
        thread: 0,
        at,
        target,
    }
}

fn is_target(target: Target) -> bool
    ensures { result ≡ is_target target }
{
    match target {
        Target::Register { number, bit } => 1 <= number && number <= 31 && bit <= 31,
        Target::Pc { bit } => bit <= 31,
        Target::Byte { bit, .. } => bit <= 7,
    }
}

fn are_faults(faults: &[Fault]) -> bool
    ensures { IsTrue result → AreFaults faults.now }
{
    faults.len() <= 256 && faults.iter().all(|fault| is_target(fault.target))
}

// Whether the first thread has room for any quantum.
fn can_count(replica: &Replica, quantum: u32) -> bool
    ensures { IsTrue result → CanCount quantum replica.now 0 }
{
    let _ = quantum;
    match replica.threads.get(0) {
        Some(thread) => thread.done < 1000,
        None => false,
    }
}

fn run(rt: &impl Abort, replica: &mut Replica, quantum: u32) -> Ran {
    assert!(rt; replica.is_unstopped(0));
    assert!(rt; can_count(replica, quantum));
    replica.run(0, quantum)
}

// Runs the first thread by quanta to its stop, and adds up.
fn run_all(rt: &impl Abort, replica: &mut Replica, quantum: u32) -> Ran {
    let mut all = Ran {
        count: 0,
        hit: 0,
        stop: None,
    };
    for _ in 0..12u32 {
        if all.stop.is_none() {
            let ran = run(rt, replica, quantum);
            all.count = all.count.saturating_add(ran.count);
            all.hit = all.hit.saturating_add(ran.hit);
            all.stop = ran.stop;
        }
    }
    all
}

fn first_thread(rt: &impl Abort, replica: &Replica) -> Thread {
    assert!(rt; replica.threads.len() > 0);
    replica.threads[0]
}

// The registers of rows, and pc.
fn words(thread: &Thread) -> [u32; 3] {
    [thread.cpu.get(10), thread.cpu.get(31), thread.cpu.pc]
}

fn assert_thread(
    rt: &impl Abort,
    replica: &Replica,
    stop: Option<Stop>,
    x10: u32,
    x31: u32,
    pc: u32,
) {
    let thread = first_thread(rt, replica);
    assert_eq!(rt; [thread.stop, replica.stop(0)], [stop; 2]);
    assert_eq!(rt; words(&thread), [x10, x31, pc]);
}

fn exit(a0: u32) -> Stop {
    Stop::Calls(Call {
        which: Which::System(93),
        a0,
        a1: 0,
        a2: 0,
        a3: 0,
    })
}

fn byte_at(replica: &Replica, address: u32) -> u8 {
    let mut bytes = [1];
    replica.pages.read_bytes(address, &mut bytes);
    bytes[0]
}

fn register(number: u8, bit: u8) -> Target {
    Target::Register { number, bit }
}

fn byte(address: u32, bit: u8) -> Target {
    Target::Byte { address, bit }
}

// Where a run stops.
#[derive(Clone, Copy)]
enum End {
    // The exit, with what is in x10.
    Exit,
    Trap(TrapCause),
}

fn stop_of(end: End, x10: u32) -> Stop {
    match end {
        End::Exit => exit(x10),
        End::Trap(cause) => Stop::Trap(cause),
    }
}

// A fault that is struck in a run by quanta: how often, and what comes of it.
#[derive(Clone, Copy)]
struct Strike {
    quantum: u32,
    at: u64,
    target: Target,
    times: usize,
    count: u32,
    hit: u32,
    end: End,
    x10: u32,
    x31: u32,
    pc: u32,
}

// The usual: struck once before the run has ended.
const STRIKE: Strike = Strike {
    quantum: 1,
    at: 0,
    target: Target::Register { number: 10, bit: 0 },
    times: 1,
    count: 4,
    hit: 1,
    end: End::Exit,
    x10: 8,
    x31: 2,
    pc: 0x1_0064,
};

const STRIKES: &[Strike] = &[
    // too late for the run
    Strike {
        at: 5,
        hit: 0,
        ..STRIKE
    },
    // before the first instruction, which writes x10; before the second, which adds 1; and behind both
    Strike {
        quantum: 2,
        ..STRIKE
    },
    Strike {
        quantum: 4096,
        at: 1,
        x10: 7,
        ..STRIKE
    },
    Strike {
        at: 2,
        x10: 9,
        ..STRIKE
    },
    // where the thread stands
    Strike {
        quantum: 2,
        at: 4,
        target: Target::Register { number: 10, bit: 1 },
        x10: 10,
        ..STRIKE
    },
    // twice on one bit
    Strike {
        quantum: 4096,
        at: 2,
        times: 2,
        hit: 2,
        ..STRIKE
    },
    // x31
    Strike {
        at: 3,
        target: Target::Register {
            number: 31,
            bit: 31,
        },
        x31: 0x8000_0002,
        ..STRIKE
    },
    // pc, past an instruction and to an odd address
    Strike {
        quantum: 2,
        at: 1,
        target: Target::Pc { bit: 2 },
        count: 3,
        x10: 7,
        ..STRIKE
    },
    Strike {
        quantum: 4096,
        at: 1,
        target: Target::Pc { bit: 0 },
        count: 1,
        end: End::Trap(TrapCause::MisalignedPc),
        x10: 7,
        x31: 0,
        pc: 0x1_0059,
        ..STRIKE
    },
    // bytes of the second instruction, before it and behind it, and of the last one, which becomes EBREAK
    Strike {
        at: 1,
        target: Target::Byte {
            address: 0x1_005B,
            bit: 0,
        },
        x10: 24,
        ..STRIKE
    },
    Strike {
        quantum: 2,
        at: 2,
        target: Target::Byte {
            address: 0x1_005B,
            bit: 0,
        },
        ..STRIKE
    },
    Strike {
        quantum: 4096,
        at: 4,
        target: Target::Byte {
            address: 0x1_0066,
            bit: 4,
        },
        end: End::Trap(TrapCause::Breakpoint),
        ..STRIKE
    },
    // of no permitted range, and of an unbacked page
    Strike {
        at: 1,
        target: Target::Byte {
            address: PAST,
            bit: 3,
        },
        ..STRIKE
    },
    Strike {
        quantum: 2,
        at: 1,
        target: Target::Byte {
            address: HEAP,
            bit: 3,
        },
        ..STRIKE
    },
];

#[test]
fn strikes(rt: HostRuntime) -> Result<(), AllocError> {
    for row in STRIKES {
        assert_strike(&rt, rt.alloc(), row)?;
    }
    Ok(())
}

// A replica with the fault of a row, as often as it says.
fn faulty(rt: &impl Abort, alloc: Global, row: &Strike) -> Result<Replica, AllocError> {
    let faults = [fault(row.at, row.target); 2];
    assert!(rt; row.times <= 2);
    opened(rt, alloc, &faults[..row.times], 1_000)
}

fn assert_strike(rt: &impl Abort, alloc: Global, row: &Strike) -> Result<(), AllocError> {
    let mut replica = faulty(rt, alloc, row)?;
    assert_run(rt, &mut replica, row);
    assert_untouched(rt, &replica);
    Ok(())
}

fn assert_run(rt: &impl Abort, replica: &mut Replica, row: &Strike) {
    let ran = run_all(rt, replica, row.quantum);
    let stop = Some(stop_of(row.end, row.x10));
    let want = Ran {
        count: row.count,
        hit: row.hit,
        stop,
    };
    let Strike { quantum, at, .. } = row;
    assert_eq!(rt; ran, want, "by {quantum}, at {at}");
    assert_thread(rt, replica, stop, row.x10, row.x31, row.pc);
}

fn assert_untouched(rt: &impl Abort, replica: &Replica) {
    assert_eq!(rt; [byte_at(replica, PAST), byte_at(replica, HEAP)], [0, 0]);
}

// Faults of one run, of which the last comes too late.
fn five_faults() -> [Fault; 5] {
    [
        fault(4, register(10, 1)),
        fault(2, register(31, 3)),
        fault(1, register(10, 0)),
        fault(2, register(10, 2)),
        fault(9, register(10, 3)),
    ]
}

// What comes of them.
const AFTER_FIVE: Strike = Strike {
    hit: 4,
    x10: 1,
    x31: 10,
    ..STRIKE
};

fn run_by(rt: &impl Abort, alloc: Global, quantum: u32) -> Result<(), AllocError> {
    let mut replica = opened(rt, alloc, &five_faults(), 1_000)?;
    assert_run(
        rt,
        &mut replica,
        &Strike {
            quantum,
            ..AFTER_FIVE
        },
    );
    assert_last_waits(rt, &replica);
    Ok(())
}

fn assert_last_waits(rt: &impl Abort, replica: &Replica) {
    assert_eq!(rt; replica.waiting.as_slice(), &five_faults()[4..]);
}

// by quanta the same
#[test]
fn quanta(rt: HostRuntime) -> Result<(), AllocError> {
    for quantum in [1, 2, 4096] {
        run_by(&rt, rt.alloc(), quantum)?;
    }
    Ok(())
}

// The first run of a quantum, with a fault of x10 at a moment, and what comes of it.
struct FirstRun {
    quantum: u32,
    watchdog: u32,
    at: u64,
    count: u32,
    hit: u32,
    // Whether the watchdog stops it.
    stops: bool,
    x10: u32,
}

const FIRST_RUNS: &[FirstRun] = &[
    FirstRun {
        quantum: 0,
        watchdog: 1_000,
        at: 0,
        count: 0,
        hit: 1,
        stops: false,
        x10: 2,
    },
    FirstRun {
        quantum: 0,
        watchdog: 1_000,
        at: 1,
        count: 0,
        hit: 0,
        stops: false,
        x10: 0,
    },
    FirstRun {
        quantum: 2,
        watchdog: 1_000,
        at: 2,
        count: 2,
        hit: 1,
        stops: false,
        x10: 10,
    },
    FirstRun {
        quantum: 2,
        watchdog: 1_000,
        at: 3,
        count: 2,
        hit: 0,
        stops: false,
        x10: 8,
    },
    FirstRun {
        quantum: 4,
        watchdog: 1_000,
        at: 4,
        count: 4,
        hit: 1,
        stops: false,
        x10: 10,
    },
    FirstRun {
        quantum: 4096,
        watchdog: 2,
        at: 2,
        count: 2,
        hit: 1,
        stops: true,
        x10: 10,
    },
    FirstRun {
        quantum: 4096,
        watchdog: 2,
        at: 3,
        count: 2,
        hit: 0,
        stops: true,
        x10: 8,
    },
    FirstRun {
        quantum: 2,
        watchdog: 2,
        at: 2,
        count: 2,
        hit: 1,
        stops: false,
        x10: 10,
    },
];

#[test]
fn strikes_at_the_end(rt: HostRuntime) -> Result<(), AllocError> {
    for row in FIRST_RUNS {
        assert_first_run(&rt, rt.alloc(), row)?;
    }
    Ok(())
}

fn assert_first_run(rt: &impl Abort, alloc: Global, row: &FirstRun) -> Result<(), AllocError> {
    let faults = [fault(row.at, register(10, 1))];
    let mut replica = opened(rt, alloc, &faults, row.watchdog)?;
    assert_first(rt, &mut replica, row);
    Ok(())
}

fn assert_first(rt: &impl Abort, replica: &mut Replica, row: &FirstRun) {
    let stop = row.stops.then_some(Stop::Watchdog);
    let want = Ran {
        count: row.count,
        hit: row.hit,
        stop,
    };
    assert_eq!(rt; run(rt, replica, row.quantum), want);
    let x31 = if row.count < 3 { 0 } else { 2 };
    let pc = ENTRY.wrapping_add(row.count.wrapping_mul(4));
    assert_thread(rt, replica, stop, row.x10, x31, pc);
}
