//! How fast a guest's instructions run: four loops of instructions, each run for as many turns as is asked.
//!
//! `ro_speed LOOP TURNS` prints how many instructions ran, two registers to compare, and the nanoseconds that it took. Words
//! behind these are the quantum, the instructions of one run; and `few`, by which the loop runs over a few pages, as a lease has
//! them, where it needs no more. With no words each loop runs a few turns, and no time is printed.
#![tactic(auto)]

mod guests;
mod machine;

use anyhow::{Context, Result, ensure};
use guests::Guest;
use machine::Machine;
use ro_pages::Memory;
use std::alloc::Global;
use std::env;
use std::rt::Clock;
use std::time::Instant;

/// How many instructions a run has where no other number is given.
const QUANTUM: u32 = 4096;

fn ran<M: Memory + Drop>(
    rt: &impl Print,
    guest: Guest,
    mut machine: Machine<M>,
    quantum: u32,
) -> Result<()> {
    let count = machine.run(quantum);
    println!(rt;
        "{} {count} {} {}",
        guest.name(),
        machine.register(8),
        machine.register(9)
    )?;
    Ok(())
}

fn timed<M: Memory + Drop>(
    rt: &(impl Print + Clock),
    guest: Guest,
    mut machine: Machine<M>,
    quantum: u32,
) -> Result<()> {
    let start = Instant::now(rt)?;
    let count = machine.run(quantum);
    let nanoseconds = start.elapsed(rt)?.as_nanos();
    println!(rt;
        "{} {count} {} {} {nanoseconds}",
        guest.name(),
        machine.register(8),
        machine.register(9)
    )?;
    Ok(())
}

// Each loop for a few turns, over a replica's pages and where they do over a few.
fn run_all(rt: &impl Print, alloc: Global) -> Result<()> {
    for guest in [Guest::Mix, Guest::Stack, Guest::Bytes, Guest::Wide] {
        ran(rt, guest, Machine::new(alloc, guest.words(), 100)?, 64)?;
        if guest.is_narrow() {
            let machine = Machine::new(alloc, guest.words(), 100)?;
            ran(rt, guest, machine.with_few(alloc)?, 64)?;
        }
    }
    Ok(())
}

fn main(rt: HostRuntime) -> Result<()> {
    let alloc = rt.alloc();
    let mut words = env::args(&rt)?.skip(1);
    let Some(name) = words.next() else {
        return run_all(&rt, alloc);
    };
    let guest = Guest::named(name.as_str()).context("the loops are mix, stack, bytes and wide")?;
    let turns = words.next().context("how many turns?")?.parse::<u32>()?;
    let mut quantum = QUANTUM;
    let mut has_few = false;
    for word in words {
        if word.as_str() == "few" {
            has_few = true;
        } else {
            quantum = word.parse::<u32>()?;
        }
    }
    let machine = Machine::new(alloc, guest.words(), turns)?;
    if has_few {
        ensure!(guest.is_narrow(), "wide needs more pages than a few");
        timed(&rt, guest, machine.with_few(alloc)?, quantum)
    } else {
        timed(&rt, guest, machine, quantum)
    }
}
