//! Runs of a thread over a small loop: three turns of a store, a count down and a branch, and then a word that stops.
use ro_event::{Call, CallTable, FUNCTIONS, Function, Stop, TrapCause, Which};
use ro_exec::{Cpu, Learnt};
use ro_pages::{Memory, Pages};
use ro_region::{Range, Regions};
use ro_thread::{RunEnd, Thread, run};
use std::alloc::{AllocError, Global};
use std::process::Abort;
use std::test::Fail;

const CODE: u32 = 0x1_0000;

const DATA: u32 = 0x1_1000;

const UNBACKED: u32 = 0x1_2000;

const ECALL: u32 = 0x0000_0073;

const EBREAK: u32 = 0x0010_0073;

// lw x8, 0(x7)
const LOAD: u32 = 0x0003_A403;

// jalr x0, 0(x7)
const JUMP: u32 = 0x0003_8067;

// sw x6, 0(x5); addi x6, x6, -1; bne x6, x0, -8
const TURN: [u32; 3] = [0x0062_A023, 0xFFF3_0313, 0xFE03_1CE3];

fn range(start: u32, length: u32, write: bool, execute: bool) -> Range {
    Range {
        start,
        length,
        read: true,
        write,
        execute,
    }
}

// What addresses mean.
#[derive(Drop)]
struct Guest {
    regions: Regions,
    calls: CallTable,
}

fn small_guest(alloc: Global) -> Result<Guest, AllocError> {
    let ranges = [
        range(CODE, 0x20, false, true),
        range(DATA, 4, true, false),
        range(UNBACKED, 0x1000, true, true),
    ];
    let mut addresses = [None; FUNCTIONS];
    addresses[4] = Some(CODE + 0x18);
    Ok(Guest {
        regions: Regions::new(alloc, &ranges)?,
        calls: CallTable::new(addresses),
    })
}

fn back(rt: &impl Abort, pages: &mut Pages, page: u32) -> Result<(), AllocError> {
    assert!(rt; page < 0x10_0000);
    pages.reserve(1)?;
    assert!(rt; !pages.backed(page));
    pages.back(page);
    Ok(())
}

fn put(rt: &impl Abort, memory: &mut impl Memory, address: u32, value: u32) {
    assert!(rt; address % 4 == 0);
    assert!(rt; memory.backed(address / 4096));
    memory.store(address, 4, value);
}

fn get(rt: &impl Abort, memory: &impl Memory, address: u32) -> u32 {
    assert!(rt; address % 4 == 0);
    assert!(rt; memory.backed(address / 4096));
    memory.load(address, 4)
}

// A memory with the loop and a word behind it.
fn memory(rt: &impl Abort, alloc: Global, word: u32) -> Result<Pages, AllocError> {
    let mut pages = Pages::new(alloc)?;
    back(rt, &mut pages, CODE / 4096)?;
    back(rt, &mut pages, DATA / 4096)?;
    put(rt, &mut pages, CODE, TURN[0]);
    put(rt, &mut pages, CODE + 4, TURN[1]);
    put(rt, &mut pages, CODE + 8, TURN[2]);
    put(rt, &mut pages, CODE + 12, word);
    Ok(pages)
}

// A thread at the loop's begin, for three turns, with so many instructions since its last release.
fn thread(since: u32, x7: u32) -> Thread {
    let mut cpu = Cpu {
        registers: [0; 31],
        pc: CODE,
    };
    cpu.set(5, DATA);
    cpu.set(6, 3);
    cpu.set(7, x7);
    cpu.set(17, 93);
    Thread {
        cpu,
        since,
        done: 40,
        stop: None,
    }
}

// Runs the thread over a memory.
fn ran(
    rt: &impl Abort,
    thread: &mut Thread,
    pages: &mut Pages,
    guest: &Guest,
    most: u32,
    watchdog: u32,
) -> RunEnd {
    assert!(rt; thread.since <= watchdog);
    assert!(rt; thread.done < 1000);
    let mut learnt = Learnt::nothing();
    run(
        thread,
        pages,
        &mut learnt,
        &guest.regions,
        &guest.calls,
        most,
        watchdog,
    )
}

// What a thread is after a run: its count, where it stands, x6, pc, its counts, and the word that it stored last.
#[derive(Drop)]
struct After {
    ran: RunEnd,
    x6: u32,
    pc: u32,
    since: u32,
    done: u128,
    stored: u32,
}

fn assert_after(rt: &impl Abort, ran: RunEnd, thread: &Thread, pages: &Pages, after: &After) {
    assert_eq!(rt; ran, after.ran);
    assert_eq!(rt; thread.cpu.get(6), after.x6);
    assert_eq!(rt; thread.cpu.pc, after.pc);
    assert_eq!(rt; thread.since, after.since);
    assert_eq!(rt; thread.done, after.done);
    assert_eq!(rt; thread.stop, None);
    assert_eq!(rt; get(rt, pages, DATA), after.stored);
}

const SYSTEM_EXIT: Call = Call {
    which: Which::System(93),
    a0: 0,
    a1: 0,
    a2: 0,
    a3: 0,
};

const MUTEX_INIT: Call = Call {
    which: Which::Function(Function::MutexInit),
    a0: 0,
    a1: 0,
    a2: 0,
    a3: 0,
};

const THREAD_EXIT: Call = Call {
    which: Which::Function(Function::Exit),
    a0: 0,
    a1: 0,
    a2: 0,
    a3: 0,
};

// a word behind the loop, and x7; the stop at it
const STOPS: &[(u32, u32, Stop)] = &[
    (ECALL, 0, Stop::Calls(SYSTEM_EXIT)),
    (EBREAK, 0, Stop::Trap(TrapCause::Breakpoint)),
    (0, 0, Stop::Trap(TrapCause::NoInstruction)),
    (LOAD, DATA + 1, Stop::Trap(TrapCause::MisalignedLoad)),
    (LOAD, DATA + 4, Stop::Trap(TrapCause::ForbiddenLoad)),
    (LOAD, UNBACKED + 8, Stop::PageFault(0x12)),
    (JUMP, 2, Stop::Trap(TrapCause::MisalignedTarget)),
];

#[test]
fn stops(rt: HostRuntime) -> Result<(), Fail> {
    let guest = small_guest(rt.alloc())?;
    let mut pages = memory(&rt, rt.alloc(), ECALL)?;
    for row in STOPS {
        let (word, x7, stop) = *row;
        put(&rt, &mut pages, CODE + 12, word);
        put(&rt, &mut pages, DATA, 77);
        let mut thread = thread(5, x7);
        let ran = ran(&rt, &mut thread, &mut pages, &guest, 4096, 10_000);
        let after = After {
            ran: RunEnd {
                count: 9,
                stop: Some(stop),
            },
            x6: 0,
            pc: CODE + 12,
            since: 14,
            done: 49,
            stored: 1,
        };
        assert_after(&rt, ran, &thread, &pages, &after);
    }
    Ok(())
}

// x7, to which the loop's end jumps; the stop there
const JUMPS: &[(u32, Stop)] = &[
    (CODE + 0x18, Stop::Calls(MUTEX_INIT)),
    (0x7FFF_FFF0, Stop::Calls(THREAD_EXIT)),
    (DATA, Stop::Trap(TrapCause::ForbiddenFetch)),
    (UNBACKED, Stop::PageFault(0x12)),
];

#[test]
fn stops_where_it_jumps(rt: HostRuntime) -> Result<(), Fail> {
    let guest = small_guest(rt.alloc())?;
    let mut pages = memory(&rt, rt.alloc(), JUMP)?;
    for row in JUMPS {
        let (x7, stop) = *row;
        let mut thread = thread(0, x7);
        let ran = ran(&rt, &mut thread, &mut pages, &guest, 4096, 10_000);
        let after = After {
            ran: RunEnd {
                count: 10,
                stop: Some(stop),
            },
            x6: 0,
            pc: x7,
            since: 10,
            done: 50,
            stored: 1,
        };
        assert_after(&rt, ran, &thread, &pages, &after);
    }
    Ok(())
}

// since before the call, most and the watchdog; the count, the stop, x6, pc, and what was stored
type Counted = (u32, u32, u32, u32, Option<Stop>, u32, u32, u32);

const COUNTED: &[Counted] = &[
    (0, 0, 10_000, 0, None, 3, CODE, 77),
    (0, 1, 10_000, 1, None, 3, CODE + 4, 3),
    (0, 4, 10_000, 4, None, 2, CODE + 4, 2),
    // all of the loop, where a stop stands then, and one more
    (0, 9, 10_000, 9, None, 0, CODE + 12, 1),
    (
        0,
        10,
        10_000,
        9,
        Some(Stop::Trap(TrapCause::Breakpoint)),
        0,
        CODE + 12,
        1,
    ),
    // the watchdog before the first instruction, with nothing to do and with all
    (7, 0, 7, 0, None, 3, CODE, 77),
    (7, 9, 7, 0, Some(Stop::Watchdog), 3, CODE, 77),
    (0, 9, 0, 0, Some(Stop::Watchdog), 3, CODE, 77),
    // and behind one and four
    (6, 1, 7, 1, None, 3, CODE + 4, 3),
    (6, 2, 7, 1, Some(Stop::Watchdog), 3, CODE + 4, 3),
    (3, 9, 7, 4, Some(Stop::Watchdog), 2, CODE + 4, 2),
    // at the place of another stop it is the watchdog's
    (1, 4096, 10, 9, Some(Stop::Watchdog), 0, CODE + 12, 1),
    (
        1,
        4096,
        11,
        9,
        Some(Stop::Trap(TrapCause::Breakpoint)),
        0,
        CODE + 12,
        1,
    ),
    (0, 9, 4_294_967_295, 9, None, 0, CODE + 12, 1),
    (
        4_294_967_294,
        9,
        4_294_967_295,
        1,
        Some(Stop::Watchdog),
        3,
        CODE + 4,
        3,
    ),
];

#[test]
fn counts(rt: HostRuntime) -> Result<(), Fail> {
    let guest = small_guest(rt.alloc())?;
    let mut pages = memory(&rt, rt.alloc(), EBREAK)?;
    for row in COUNTED {
        let (since, most, watchdog, count, stop, x6, pc, stored) = *row;
        put(&rt, &mut pages, DATA, 77);
        assert!(rt; since <= watchdog);
        assert!(rt; count <= watchdog - since);
        let mut thread = thread(since, 0);
        let ran = ran(&rt, &mut thread, &mut pages, &guest, most, watchdog);
        let after = After {
            ran: RunEnd { count, stop },
            x6,
            pc,
            since: since + count,
            done: 40 + u128::from(count),
            stored,
        };
        assert_after(&rt, ran, &thread, &pages, &after);
    }
    Ok(())
}

// the quantum and the watchdog; all that is counted, the stop, x6, pc, and what was stored
const IN_QUANTA: &[(u32, u32, u32, Stop, u32, u32, u32)] = &[
    (
        1,
        10_000,
        9,
        Stop::Trap(TrapCause::Breakpoint),
        0,
        CODE + 12,
        1,
    ),
    (
        2,
        10_000,
        9,
        Stop::Trap(TrapCause::Breakpoint),
        0,
        CODE + 12,
        1,
    ),
    (
        4096,
        10_000,
        9,
        Stop::Trap(TrapCause::Breakpoint),
        0,
        CODE + 12,
        1,
    ),
    (1, 8, 8, Stop::Watchdog, 0, CODE + 8, 1),
    (2, 8, 8, Stop::Watchdog, 0, CODE + 8, 1),
    (4096, 8, 8, Stop::Watchdog, 0, CODE + 8, 1),
];

// by quanta the same, to the stop
#[test]
fn quanta(rt: HostRuntime) -> Result<(), Fail> {
    let guest = small_guest(rt.alloc())?;
    let mut pages = memory(&rt, rt.alloc(), EBREAK)?;
    for row in IN_QUANTA {
        let (quantum, watchdog, count, stop, x6, pc, stored) = *row;
        put(&rt, &mut pages, DATA, 77);
        let mut thread = thread(0, 0);
        let mut all = 0;
        for _ in 0..10u32 {
            assert!(rt; all <= 9);
            let ran = ran(&rt, &mut thread, &mut pages, &guest, quantum, watchdog);
            assert!(rt; ran.count <= 9);
            all += ran.count;
            if ran.stop.is_some() {
                assert_eq!(rt; ran.stop, Some(stop));
                break;
            }
        }
        let after = After {
            ran: RunEnd {
                count,
                stop: Some(stop),
            },
            x6,
            pc,
            since: count,
            done: 40 + u128::from(count),
            stored,
        };
        let ran = RunEnd {
            count: all,
            stop: Some(stop),
        };
        assert_after(&rt, ran, &thread, &pages, &after);
    }
    Ok(())
}
