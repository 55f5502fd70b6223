//! One instruction each: what it executes, and where a thread stands. Traps are named by their numbers.
use ro_event::{Call, CallTable, FUNCTIONS, Function, Stop, TrapCause, Which};
use ro_exec::{Cpu, Step, step};
use ro_pages::{Memory, Pages};
use ro_region::{Range, Regions};
use std::alloc::{AllocError, Global};
use std::process::Abort;
use std::test::Fail;

const CODE: u32 = 0x1_0000;

const DATA: u32 = 0x1_1000;

const FORBIDDEN: u32 = 0x1_2000;

const UNBACKED: u32 = 0x1_3000;

const UNREADABLE: u32 = 0x1_4000;

const CREATE: u32 = 0x1_0800;

fn range(start: u32, write: bool, execute: bool) -> Range {
    Range {
        start,
        length: 0x1000,
        read: true,
        write,
        execute,
    }
}

fn regions(alloc: Global) -> Result<Regions, AllocError> {
    Regions::new(
        alloc,
        &[
            range(CODE, false, true),
            range(DATA, true, false),
            range(UNBACKED, true, true),
            Range {
                read: false,
                ..range(UNREADABLE, true, false)
            },
        ],
    )
}

fn calls() -> CallTable {
    let mut addresses = [None; FUNCTIONS];
    addresses[0] = Some(CREATE);
    CallTable::new(addresses)
}

fn back(rt: &impl Abort, pages: &mut Pages, page: u32) -> Result<(), AllocError> {
    assert!(rt; page < 0x10_0000);
    pages.reserve(1)?;
    assert!(rt; !pages.backed(page));
    pages.back(page);
    Ok(())
}

fn put(rt: &impl Abort, memory: &mut impl Memory, address: u32, value: u32) {
    assert!(rt; address % 4 == 0);
    assert!(rt; memory.backed(address / 4096));
    memory.store(address, 4, value);
}

fn get(rt: &impl Abort, memory: &impl Memory, address: u32) -> u32 {
    assert!(rt; address % 4 == 0);
    assert!(rt; memory.backed(address / 4096));
    memory.load(address, 4)
}

// a word, x5 and x6; the outcome, then x7 and pc; at x5 0x11000 stand the bytes 01 7F FF 80
type Row = (u32, u32, u32, Step, u32, u32);

const EXECUTED: &[Row] = &[
    // lb, lbu, lh, lhu, lh, lw
    (0x0032_8383, DATA, 0, Step::Did, 0xFFFF_FF80, CODE + 4),
    (0x0032_C383, DATA, 0, Step::Did, 0x80, CODE + 4),
    (0x0022_9383, DATA, 0, Step::Did, 0xFFFF_80FF, CODE + 4),
    (0x0022_D383, DATA, 0, Step::Did, 0x80FF, CODE + 4),
    (0x0002_9383, DATA, 0, Step::Did, 0x7F01, CODE + 4),
    (0x0002_A383, DATA, 0, Step::Did, 0x80FF_7F01, CODE + 4),
    // lh from an odd address, lw from a forbidden and from an unbacked page
    (
        0x0012_9383,
        DATA,
        0,
        Step::Stopped(Stop::Trap(TrapCause::MisalignedLoad)),
        7,
        CODE,
    ),
    (
        0x0002_A383,
        FORBIDDEN,
        0,
        Step::Stopped(Stop::Trap(TrapCause::ForbiddenLoad)),
        7,
        CODE,
    ),
    (
        0x0002_A383,
        UNBACKED,
        0,
        Step::Stopped(Stop::PageFault(0x13)),
        7,
        CODE,
    ),
    // sw to an address that is no multiple of 4, to the code, and to an unbacked page
    (
        0x0062_A123,
        DATA,
        9,
        Step::Stopped(Stop::Trap(TrapCause::MisalignedStore)),
        7,
        CODE,
    ),
    (
        0x0062_A023,
        CODE,
        9,
        Step::Stopped(Stop::Trap(TrapCause::ForbiddenStore)),
        7,
        CODE,
    ),
    (
        0x0062_A023,
        UNBACKED,
        9,
        Step::Stopped(Stop::PageFault(0x13)),
        7,
        CODE,
    ),
    // jalr to 1(x5), to 2(x5), and with rd = rs1; jal back by 4
    (0x0012_83E7, DATA, 0, Step::Did, CODE + 4, DATA),
    (
        0x0022_83E7,
        DATA,
        0,
        Step::Stopped(Stop::Trap(TrapCause::MisalignedTarget)),
        7,
        CODE,
    ),
    (0x0002_82E7, DATA, 0, Step::Did, 7, DATA),
    (0xFFDF_F3EF, 0, 0, Step::Did, CODE + 4, CODE - 4),
    // beq, blt and bltu by 8, and beq by 6
    (0x0062_8463, 3, 3, Step::Did, 7, CODE + 8),
    (0x0062_8463, 3, 4, Step::Did, 7, CODE + 4),
    (0x0062_C463, 0xFFFF_FFFF, 1, Step::Did, 7, CODE + 8),
    (0x0062_E463, 0xFFFF_FFFF, 1, Step::Did, 7, CODE + 4),
    (
        0x0062_8363,
        3,
        3,
        Step::Stopped(Stop::Trap(TrapCause::MisalignedTarget)),
        7,
        CODE,
    ),
    (0x0062_8363, 3, 4, Step::Did, 7, CODE + 4),
    // addi to x0, addi -1, sra, auipc, lui, mulhsu, div, fence
    (0x0012_8013, 5, 0, Step::Did, 7, CODE + 4),
    (0xFFF2_8393, 0, 0, Step::Did, 0xFFFF_FFFF, CODE + 4),
    (
        0x4062_D3B3,
        0x8000_0000,
        31,
        Step::Did,
        0xFFFF_FFFF,
        CODE + 4,
    ),
    (0xFFFF_F397, 0, 0, Step::Did, CODE - 0x1000, CODE + 4),
    (0x8000_03B7, 0, 0, Step::Did, 0x8000_0000, CODE + 4),
    (
        0x0262_A3B3,
        0xFFFF_FFFF,
        0xFFFF_FFFF,
        Step::Did,
        0xFFFF_FFFF,
        CODE + 4,
    ),
    (
        0x0262_C3B3,
        0x8000_0000,
        0xFFFF_FFFF,
        Step::Did,
        0x8000_0000,
        CODE + 4,
    ),
    (0x0FF0_000F, 0, 0, Step::Did, 7, CODE + 4),
    // ebreak, fence.i and a word of zeros
    (
        0x0010_0073,
        0,
        0,
        Step::Stopped(Stop::Trap(TrapCause::Breakpoint)),
        7,
        CODE,
    ),
    (
        0x0000_100F,
        0,
        0,
        Step::Stopped(Stop::Trap(TrapCause::NoInstruction)),
        7,
        CODE,
    ),
    (
        0x0000_0000,
        0,
        0,
        Step::Stopped(Stop::Trap(TrapCause::NoInstruction)),
        7,
        CODE,
    ),
    // lr.w from an address that is no multiple of 4, also in a forbidden page, and from forbidden ones; with a second register
    (
        0x1002_A3AF,
        DATA + 2,
        9,
        Step::Stopped(Stop::Trap(TrapCause::MisalignedLoad)),
        7,
        CODE,
    ),
    (
        0x1002_A3AF,
        FORBIDDEN + 1,
        9,
        Step::Stopped(Stop::Trap(TrapCause::MisalignedLoad)),
        7,
        CODE,
    ),
    (
        0x1002_A3AF,
        FORBIDDEN,
        9,
        Step::Stopped(Stop::Trap(TrapCause::ForbiddenLoad)),
        7,
        CODE,
    ),
    (
        0x1002_A3AF,
        UNREADABLE,
        9,
        Step::Stopped(Stop::Trap(TrapCause::ForbiddenLoad)),
        7,
        CODE,
    ),
    (
        0x1062_A3AF,
        DATA,
        9,
        Step::Stopped(Stop::Trap(TrapCause::NoInstruction)),
        7,
        CODE,
    ),
    // sc.w so, and to what may only be read
    (
        0x1862_A3AF,
        DATA + 1,
        9,
        Step::Stopped(Stop::Trap(TrapCause::MisalignedStore)),
        7,
        CODE,
    ),
    (
        0x1862_A3AF,
        CODE,
        9,
        Step::Stopped(Stop::Trap(TrapCause::ForbiddenStore)),
        7,
        CODE,
    ),
    // amoadd.w so, and at what may only be read, or only be written
    (
        0x0062_A3AF,
        DATA + 3,
        9,
        Step::Stopped(Stop::Trap(TrapCause::MisalignedStore)),
        7,
        CODE,
    ),
    (
        0x0062_A3AF,
        FORBIDDEN + 2,
        9,
        Step::Stopped(Stop::Trap(TrapCause::MisalignedStore)),
        7,
        CODE,
    ),
    (
        0x0062_A3AF,
        CODE,
        9,
        Step::Stopped(Stop::Trap(TrapCause::ForbiddenStore)),
        7,
        CODE,
    ),
    (
        0x0062_A3AF,
        UNREADABLE,
        9,
        Step::Stopped(Stop::Trap(TrapCause::ForbiddenStore)),
        7,
        CODE,
    ),
    // lr.d, and an atomic instruction with another code
    (
        0x1002_B3AF,
        DATA,
        9,
        Step::Stopped(Stop::Trap(TrapCause::NoInstruction)),
        7,
        CODE,
    ),
    (
        0x2862_A3AF,
        DATA,
        9,
        Step::Stopped(Stop::Trap(TrapCause::NoInstruction)),
        7,
        CODE,
    ),
];

#[test]
fn executes(rt: HostRuntime) -> Result<(), Fail> {
    let regions = regions(rt.alloc())?;
    let calls = calls();
    let mut pages = Pages::new(rt.alloc())?;
    back(&rt, &mut pages, CODE / 4096)?;
    back(&rt, &mut pages, DATA / 4096)?;
    for row in EXECUTED {
        assert_executes(&rt, &mut pages, &regions, &calls, row);
    }
    Ok(())
}

fn assert_executes(
    rt: &impl Abort,
    pages: &mut Pages,
    regions: &Regions,
    calls: &CallTable,
    row: &Row,
) {
    let (word, x5, x6, want, x7, pc) = *row;
    put(rt, pages, CODE, word);
    put(rt, pages, DATA, 0x80FF_7F01);
    let mut cpu = Cpu {
        registers: [0; 31],
        pc: CODE,
    };
    cpu.set(5, x5);
    cpu.set(6, x6);
    cpu.set(7, 7);
    assert_eq!(rt; step(&mut cpu, pages, regions, calls), want, "{word:x}");
    assert_eq!(rt; cpu.get(7), x7, "{word:x}");
    assert_eq!(rt; cpu.pc, pc, "{word:x}");
    assert_eq!(rt; cpu.get(0), 0);
    assert_eq!(rt; get(rt, pages, DATA), 0x80FF_7F01);
}

// sb, sh and sw of 0x44332211 at x5, over the same bytes
const STORED: &[(u32, u32, u32)] = &[
    (0x0062_8023, DATA, 0x80FF_7F11),
    (0x0062_8023, DATA + 3, 0x11FF_7F01),
    (0x0062_9023, DATA, 0x80FF_2211),
    (0x0062_9023, DATA + 2, 0x2211_7F01),
    (0x0062_A023, DATA, 0x4433_2211),
];

#[test]
fn stores(rt: HostRuntime) -> Result<(), Fail> {
    let regions = regions(rt.alloc())?;
    let calls = calls();
    let mut pages = Pages::new(rt.alloc())?;
    back(&rt, &mut pages, CODE / 4096)?;
    back(&rt, &mut pages, DATA / 4096)?;
    for row in STORED {
        assert_stores(&rt, &mut pages, &regions, &calls, *row);
    }
    Ok(())
}

fn assert_stores(
    rt: &impl Abort,
    pages: &mut Pages,
    regions: &Regions,
    calls: &CallTable,
    row: (u32, u32, u32),
) {
    let (word, x5, want) = row;
    put(rt, pages, CODE, word);
    put(rt, pages, DATA, 0x80FF_7F01);
    let mut cpu = Cpu {
        registers: [0; 31],
        pc: CODE,
    };
    cpu.set(5, x5);
    cpu.set(6, 0x4433_2211);
    assert_eq!(rt;
        step(&mut cpu, pages, regions, calls),
        Step::Did,
        "{word:x}"
    );
    assert_eq!(rt; get(rt, pages, DATA), want, "{word:x}");
}

// atomic instructions on the word at x5, where x6 is 9: what they ask the kernel to do, by the address and the operand
const ASKED: &[(u32, u32, u32)] = &[
    // lr.w x7, (x5), of code too, and of a page that is not backed
    (0x1002_A3AF, DATA, 0),
    (0x1002_A3AF, CODE + 4, 0),
    (0x1002_A3AF, UNBACKED, 0),
    // sc.w x7, x6, (x5), also where nothing may be read
    (0x1862_A3AF, DATA + 0xFFC, 9),
    (0x1862_A3AF, UNREADABLE, 9),
    (0x1862_A3AF, UNBACKED, 9),
    // amoswap.w, amoadd.w, amoxor.w, amoand.w, amoor.w, amomin.w, amomax.w, amominu.w, amomaxu.w
    (0x0862_A3AF, DATA, 9),
    (0x0062_A3AF, DATA, 9),
    (0x2062_A3AF, DATA, 9),
    (0x6062_A3AF, DATA, 9),
    (0x4062_A3AF, DATA, 9),
    (0x8062_A3AF, DATA, 9),
    (0xA062_A3AF, DATA, 9),
    (0xC062_A3AF, DATA, 9),
    (0xE062_A3AF, DATA, 9),
    (0x0062_A3AF, UNBACKED + 8, 9),
    // amoadd.w.aqrl; with x0 for its operand, with x0 for its destination, with x5 for all three
    (0x0662_A3AF, DATA, 9),
    (0x0002_A3AF, DATA, 0),
    (0x0062_A02F, DATA, 9),
    (0x0052_A2AF, DATA, DATA),
];

#[test]
fn asks(rt: HostRuntime) -> Result<(), Fail> {
    let regions = regions(rt.alloc())?;
    let calls = calls();
    let mut pages = Pages::new(rt.alloc())?;
    back(&rt, &mut pages, CODE / 4096)?;
    back(&rt, &mut pages, DATA / 4096)?;
    for row in ASKED {
        assert_asks(&rt, &mut pages, &regions, &calls, *row);
    }
    Ok(())
}

fn assert_asks(
    rt: &impl Abort,
    pages: &mut Pages,
    regions: &Regions,
    calls: &CallTable,
    row: (u32, u32, u32),
) {
    let (word, x5, operand) = row;
    put(rt, pages, CODE, word);
    put(rt, pages, DATA, 0x80FF_7F01);
    let mut cpu = Cpu {
        registers: [0; 31],
        pc: CODE,
    };
    cpu.set(5, x5);
    cpu.set(6, 9);
    let before = cpu;
    let want = Stop::Calls(Call {
        which: Which::Atomic(word),
        a0: x5,
        a1: operand,
        a2: 0,
        a3: 0,
    });
    assert_eq!(rt;
        step(&mut cpu, pages, regions, calls),
        Step::Stopped(want),
        "{word:x}"
    );
    assert_eq!(rt; cpu, before);
    assert_eq!(rt; get(rt, pages, DATA), 0x80FF_7F01);
}

const STANDING: &[(u32, Stop)] = &[
    (
        CODE,
        Stop::Calls(Call {
            which: Which::System(17),
            a0: 10,
            a1: 11,
            a2: 12,
            a3: 13,
        }),
    ),
    (CODE + 2, Stop::Trap(TrapCause::MisalignedPc)),
    (
        0x7FFF_FFF0,
        Stop::Calls(Call {
            which: Which::Function(Function::Exit),
            a0: 10,
            a1: 11,
            a2: 12,
            a3: 13,
        }),
    ),
    (
        CREATE,
        Stop::Calls(Call {
            which: Which::Function(Function::Create),
            a0: 10,
            a1: 11,
            a2: 12,
            a3: 13,
        }),
    ),
    (DATA, Stop::Trap(TrapCause::ForbiddenFetch)),
    (CODE + 0x1000 - 4, Stop::Trap(TrapCause::NoInstruction)),
    (UNBACKED, Stop::PageFault(0x13)),
];

#[test]
fn stands(rt: HostRuntime) -> Result<(), Fail> {
    let regions = regions(rt.alloc())?;
    let calls = calls();
    let mut pages = Pages::new(rt.alloc())?;
    back(&rt, &mut pages, CODE / 4096)?;
    put(&rt, &mut pages, CODE, 0x0000_0073);
    for (pc, want) in STANDING {
        assert_stands(&rt, &mut pages, &regions, &calls, *pc, *want);
    }
    Ok(())
}

fn assert_stands(
    rt: &impl Abort,
    pages: &mut Pages,
    regions: &Regions,
    calls: &CallTable,
    pc: u32,
    want: Stop,
) {
    let mut cpu = Cpu {
        registers: [0; 31],
        pc,
    };
    for number in 10..18u8 {
        cpu.set(number, u32::from(number));
    }
    let before = cpu;
    assert_eq!(rt;
        step(&mut cpu, pages, regions, calls),
        Step::Stopped(want),
        "{pc:x}"
    );
    assert_eq!(rt; cpu, before);
}
