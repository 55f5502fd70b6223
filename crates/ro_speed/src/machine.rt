//! A thread with the memory of a small guest.
ghost use Rattle.std.specs.Prelude.{◌≡◌, ◌<◌, ◌^◌};
ghost use Rattle.ro_exec.specs.Registers.{register};

use ro_event::{CallTable, FUNCTIONS};
use ro_exec::{Cpu, Learnt};
use ro_pages::{FewPages, Memory, Pages};
use ro_region::{Range, Regions};
use ro_thread::{Thread, run};
use std::alloc::{AllocError, Global};

const CODE: u32 = 0x1_0000;

const DATA: u32 = 0x1_1000;

const HEAP: u32 = 0x1_2000;

/// How many pages of the heap are backed.
const HEAP_PAGES: u32 = 32;

const STACK_TOP: u32 = 0x7001_0000;

/// The pages that no heap has.
const FIRST_PAGES: [u32; 3] = [CODE / 4096, DATA / 4096, STACK_TOP / 4096 - 1];

/// One thread, and all that its instructions need.
#[derive(Drop)]
pub struct Machine<M: Memory> {
    thread: Thread,
    memory: M,
    regions: Regions,
    calls: CallTable,
}

impl Machine<Pages> {
    /// A machine that runs these words for so many turns.
    pub fn new(alloc: Global, words: &[u32], turns: u32) -> Result<Machine<Pages>, AllocError> {
        let mut pages = Pages::new(alloc)?;
        for page in FIRST_PAGES {
            back(&mut pages, page)?;
        }
        for page in HEAP / 4096..HEAP / 4096 + HEAP_PAGES {
            back(&mut pages, page)?;
        }
        let mut place = CODE;
        for word in words {
            if place % 4 == 0 && pages.backed(place / 4096) {
                pages.store(place, 4, *word);
            }
            place = place.wrapping_add(4);
        }
        let mut cpu = Cpu {
            registers: [0; 31],
            pc: CODE,
        };
        cpu.set(2, STACK_TOP - 16);
        cpu.set(5, DATA);
        cpu.set(6, turns);
        cpu.set(8, 1);
        Ok(Machine {
            thread: Thread {
                cpu,
                since: 0,
                done: 0,
                stop: None,
            },
            memory: pages,
            regions: regions(alloc)?,
            calls: calls(),
        })
    }

    /// The same machine over a few pages, those beside the heap, as a lease has them.
    pub fn with_few(self, alloc: Global) -> Result<Machine<FewPages>, AllocError> {
        let Machine {
            thread,
            memory: mut pages,
            regions,
            calls,
        } = self;
        let mut few = FewPages::new(alloc)?;
        for page in FIRST_PAGES {
            lend(&mut pages, page, &mut few);
        }
        Ok(Machine {
            thread,
            memory: few,
            regions,
            calls,
        })
    }
}

impl<M: Memory> Machine<M> {
    /// Runs to the first stop by quanta of instructions, each after a release, and counts the instructions before it.
    pub fn run(&mut self, quantum: u32) -> u64 {
        let mut count: u64 = 0;
        let mut learnt = Learnt::nothing();
        for _ in 0..u64::MAX {
            self.thread.since = 0;
            if self.thread.done > u128::from(u64::MAX) {
                break;
            }
            let ran = run(
                &mut self.thread,
                &mut self.memory,
                &mut learnt,
                &self.regions,
                &self.calls,
                quantum,
                u32::MAX,
            );
            count = count.saturating_add(u64::from(ran.count));
            if ran.stop.is_some() {
                break;
            }
        }
        count
    }

    /// The value of a register.
    pub fn register(&self, number: u8) -> u32
        requires { number < 32 }
        ensures { result ≡ register self.now.thread.cpu number }
    {
        self.thread.cpu.get(number)
    }
}

/// Backs a page.
fn back(pages: &mut Pages, page: u32) -> Result<(), AllocError> {
    pages.reserve(1)?;
    if page < 0x10_0000 && !pages.backed(page) {
        pages.back(page);
    }
    Ok(())
}

/// Lends a page.
fn lend(pages: &mut Pages, page: u32, few: &mut FewPages) {
    if page < 0x10_0000 && pages.backed(page) && !few.has_page(page) && few.has_room() {
        pages.lend(page, few);
    }
}

/// Small segments that fill no page, a heap of 1 MiB, and the stacks of 16 threads.
fn regions(alloc: Global) -> Result<Regions, AllocError> {
    let mut ranges = Vec::new(alloc);
    ranges.push(range(CODE, 0x420, false, true))?;
    ranges.push(range(DATA, 0x7A4, true, false))?;
    ranges.push(range(HEAP, 0x10_0000, true, false))?;
    for thread in 0..16u32 {
        ranges.push(range(0x7000_0000 + thread * 0x2_0000, 0x1_0000, true, false))?;
    }
    Regions::new(alloc, &ranges)
}

fn range(start: u32, length: u32, write: bool, execute: bool) -> Range {
    Range {
        start,
        length,
        read: true,
        write,
        execute,
    }
}

/// Short functions of POSIX threads, none of which the loops call.
fn calls() -> CallTable {
    let mut addresses = [None; FUNCTIONS];
    for place in 0..FUNCTIONS {
        addresses[place] = Some(CODE + 0x3A8 + place as u32 * 12);
    }
    CallTable::new(addresses)
}
