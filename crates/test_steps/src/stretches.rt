//! The stretch that a run keeps, and the rows that a quick step does itself. What it does is proved; that it does it is not.
use ro_event::{CallTable, FUNCTIONS};
use ro_exec::{Bank, Cpu, NONE, Open, Stretch, quick_step, step};
use ro_pages::{Memory, Pages};
use ro_region::{Kind, Range, Regions};
use std::alloc::{AllocError, Global};
use std::process::Abort;
use std::test::Fail;

const CODE: u32 = 0x1_0000;

const DATA: u32 = 0x1_1000;

const UNBACKED: u32 = 0x1_2000;

const CALL: u32 = 0x1_0404;

fn range(start: u32, length: u32, write: bool, execute: bool) -> Range {
    Range {
        start,
        length,
        read: true,
        write,
        execute,
    }
}

fn regions(alloc: Global) -> Result<Regions, AllocError> {
    Regions::new(
        alloc,
        &[
            range(CODE, 0x822, false, true),
            range(DATA, 0x1000, true, false),
            range(UNBACKED, 0x1000, true, true),
        ],
    )
}

fn calls() -> CallTable {
    let mut addresses = [None; FUNCTIONS];
    addresses[6] = Some(CALL);
    CallTable::new(addresses)
}

fn memory(rt: &impl Abort, alloc: Global) -> Result<Pages, AllocError> {
    let mut pages = Pages::new(alloc)?;
    pages.reserve(2)?;
    assert!(rt; !pages.backed(CODE / 4096));
    pages.back(CODE / 4096);
    assert!(rt; !pages.backed(DATA / 4096));
    pages.back(DATA / 4096);
    Ok(pages)
}

// whether the stretch from CODE on holds a pc
const KEPT: &[(u32, bool)] = &[
    (CODE, true),
    (CALL - 4, true),
    (CALL, false),
    (CODE + 2, false),
    (CODE + 1, false),
    (CODE - 4, false),
    (0xFFFF_FFFC, false),
];

// a call, and where no code is
const NO_CODE: &[u32] = &[CALL, DATA, UNBACKED, 0x7FFF_FFF0, 0xFFFF_FFFC];

#[test]
fn keeps_code(rt: HostRuntime) -> Result<(), Fail> {
    let regions = regions(rt.alloc())?;
    let calls = calls();
    let pages = memory(&rt, rt.alloc())?;
    let mut first = NONE;
    assert!(rt; first.follow(CODE, &pages, &regions, &calls));
    assert_eq!(rt;
        first,
        Stretch {
            from: CODE,
            words: 0x101,
            place: 0
        }
    );
    for (pc, want) in KEPT {
        assert_eq!(rt; first.holds(*pc), *want, "at {pc:x}");
    }
    let mut second = first;
    assert!(rt; second.follow(CODE + 0x40, &pages, &regions, &calls));
    assert_eq!(rt; second, first);
    assert!(rt; second.follow(CALL + 4, &pages, &regions, &calls));
    assert_eq!(rt;
        second,
        Stretch {
            from: CALL + 4,
            words: 0x106,
            place: 0
        }
    );
    for pc in NO_CODE {
        let mut kept = first;
        assert!(rt; !kept.follow(*pc, &pages, &regions, &calls), "at {pc:x}");
        assert_eq!(rt; kept, first, "at {pc:x}");
    }
    Ok(())
}

// where code is looked up next: at the end of a stretch, or where a jump left it
#[test]
fn looks_where_code_was_left(rt: HostRuntime) -> Result<(), Fail> {
    let regions = regions(rt.alloc())?;
    let calls = calls();
    let pages = memory(&rt, rt.alloc())?;
    let mut code = NONE;
    let mut until = CODE + 8;
    assert!(rt; code.goes_along(&mut until, CODE + 8, &pages, &regions, &calls));
    assert_eq!(rt; until, CALL);
    assert_eq!(rt; code.after(until, CODE + 8), CODE + 12);
    assert!(rt; code.leads(&mut until, CODE));
    assert_eq!(rt; until, CALL, "behind a jump inside the stretch");
    assert!(rt; !code.leads(&mut until, CALL + 6));
    assert!(rt; code.leads(&mut until, CALL + 4));
    assert_eq!(rt; until, CALL + 4, "behind a jump over the call");
    assert!(rt; code.goes_along(&mut until, CALL + 4, &pages, &regions, &calls));
    assert_eq!(rt; until, CODE + 0x820);
    Ok(())
}

// an address and a size; whether a store there is shown, once its page was learnt
const SHOWN: &[(u32, u32, bool)] = &[
    (DATA + 4, 4, true),
    (DATA + 5, 1, true),
    (DATA + 6, 2, true),
    (DATA + 6, 4, false),
    (DATA + 7, 2, false),
    // permitted, but no whole word
    (DATA + 2, 2, false),
    (DATA, 4, false),
    (DATA + 0xFF8, 4, true),
    (DATA + 0xFFC, 1, false),
    (CODE, 4, false),
    (UNBACKED, 4, false),
    (0xFFFF_FFFC, 4, false),
];

#[test]
fn shows_data(rt: HostRuntime) -> Result<(), Fail> {
    let list = [
        range(DATA + 2, 0xFFA, true, false),
        range(CODE, 0x1000, false, false),
        range(UNBACKED, 0x1000, true, false),
    ];
    let regions = Regions::new(rt.alloc(), &list)?;
    let pages = memory(&rt, rt.alloc())?;
    for row in SHOWN {
        let (address, size, want) = *row;
        assert!(rt; size == 1 || size == 2 || size == 4);
        let mut open = Open::new();
        let before = open.shows(address, size, &pages, &regions, Kind::Write);
        assert!(rt; !before, "{size} at {address:x}");
        let shown = open.shows(address, size, &pages, &regions, Kind::Write);
        assert_eq!(rt; shown, want, "{size} at {address:x}");
    }
    Ok(())
}

// Whether a quick step does a word, with DATA in x5, whose page was learnt, and 2 in x6.
fn does(
    rt: &impl Abort,
    pages: &mut Pages,
    regions: &Regions,
    calls: &CallTable,
    word: u32,
) -> bool {
    assert!(rt; pages.backed(CODE / 4096));
    pages.store(CODE, 4, word);
    let mut stretch = NONE;
    let mut reads = Open::new();
    let mut writes = Open::new();
    reads.shows(DATA, 4, pages, regions, Kind::Read);
    writes.shows(DATA, 4, pages, regions, Kind::Write);
    let mut bank = Bank::new(&[0; 31]);
    bank.set(5, DATA);
    bank.set(6, 2);
    let mut pc = CODE;
    let mut until = CODE;
    quick_step::<Pages, Cpu>(
        &mut bank,
        &mut pc,
        pages,
        &mut reads,
        &mut writes,
        regions,
        calls,
        &mut stretch,
        &mut until,
    )
}

// x7 with x5 and x6: an operation, one with an immediate of 1, and a multiplication or a division
const OF_EACH_FUNCT3: &[u32] = &[0x0062_83B3, 0x0012_8393, 0x0262_83B3];

// lui, auipc, jal, jalr, sub, sra, srai
const OF_ONE_FUNCT3: &[u32] = &[
    0x8000_03B7,
    0xFFFF_F397,
    0xFFDF_F3EF,
    0x0002_83E7,
    0x4062_83B3,
    0x4062_D3B3,
    0x4012_D393,
];

// lw from where no load is permitted, sw to the code, ecall, ebreak, a compressed word, zeros
const NOT_QUICK: &[u32] = &[
    0x0000_2383,
    0x8062_A023,
    0x0000_0073,
    0x0010_0073,
    0x0000_0001,
    0,
];

#[test]
fn does_each_row(rt: HostRuntime) -> Result<(), Fail> {
    let regions = regions(rt.alloc())?;
    let calls = calls();
    let mut pages = memory(&rt, rt.alloc())?;
    for k in 0..8u32 {
        let op = k * 0x1000;
        for word in OF_EACH_FUNCT3 {
            assert!(rt;
                does(&rt, &mut pages, &regions, &calls, *word + op),
                "{word:x} {k}"
            );
        }
        // a branch by 8, an access at x5
        let branch = does(&rt, &mut pages, &regions, &calls, 0x0062_8463 + op);
        assert_eq!(rt; branch, k != 2 && k != 3, "a branch of {k}");
        let load = does(&rt, &mut pages, &regions, &calls, 0x0002_8383 + op);
        assert_eq!(rt; load, k < 3 || k == 4 || k == 5, "a load of {k}");
        let store = does(&rt, &mut pages, &regions, &calls, 0x0062_8023 + op);
        assert_eq!(rt; store, k < 3, "a store of {k}");
    }
    for word in OF_ONE_FUNCT3 {
        assert!(rt; does(&rt, &mut pages, &regions, &calls, *word), "{word:x}");
    }
    for word in NOT_QUICK {
        assert!(rt; !does(&rt, &mut pages, &regions, &calls, *word), "{word:x}");
    }
    Ok(())
}
