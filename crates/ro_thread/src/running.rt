//! Running a thread.
ghost use Rattle.std.specs.Prelude.{◌≡◌, ◌≤◌, ◌<◌, ◌+◌, ◌-◌, ◌^◌};
ghost use Rattle.ro_exec.specs.Next.{next};
ghost use Rattle.ro_exec.specs.Steps.{IsStep, IsQuick};
ghost use Rattle.ro_exec.specs.Stretches.{IsLearnt};
ghost use Rattle.ro_thread.specs.Runs.{IsRun};
ghost use Rattle.ro_region.specs.Permission.{ranges_of};

use crate::Thread;
use ro_event::{CallTable, Stop};
use ro_exec::{Bank, Cpu, Learnt, Step, quick_step, step, system_call};
use ro_pages::Memory;
use ro_region::Regions;

/// What a run of a thread came to.
#[derive(Clone, Copy, PartialEq, Eq, Debug)]
pub struct RunEnd {
    /// How many instructions were retired.
    pub count: u32,
    /// Where the thread stands still; none where it has done all that it was to do.
    pub stop: Option<Stop>,
}

/// Runs a thread until it stands at a stop, or for `most` instructions. It stands at the watchdog's stop once it has run for
/// `watchdog` instructions since its last release. What earlier runs in the memory have learnt of it spares this one looks at
/// its code and its data, and it learns more.
///
/// It is a function of its own, so that `step` has one caller, and becomes a part of its loop: where a memory's `step` has
/// two callers, LLVM inlines it into neither, and an instruction takes half as long again.
#[inline(never)]
pub fn run<M: Memory>(
    thread: &mut Thread,
    memory: &mut M,
    learnt: &mut Learnt,
    regions: &Regions,
    calls: &CallTable,
    most: u32,
    watchdog: u32,
) -> RunEnd
    requires learnt { IsLearnt (record { ranges = ranges_of regions.now; calls = calls.now }) (M.backing memory.old) (M.kept memory.old) learnt.old }
    requires watched { thread.old.since ≤ watchdog }
    requires countable { thread.old.done + most < 2 ^ 128 }
    ensures run { IsRun (record { ranges = ranges_of regions.now; calls = calls.now }) watchdog (M.backing memory.old) most result.count result.stop (record { thread = thread.old; memory = M.memory memory.old }) (record { thread = thread.new; memory = M.memory memory.new }) }
    ensures pages { M.backing memory.new ≡ M.backing memory.old }
    ensures kept { M.kept memory.new ≡ M.kept memory.old }
    ensures learnt { IsLearnt (record { ranges = ranges_of regions.now; calls = calls.now }) (M.backing memory.old) (M.kept memory.old) learnt.new }
{
    let bound = most.min(watchdog - thread.since);
    let mut registers = Bank::new(&thread.cpu.registers);
    let mut pc = thread.cpu.pc;
    // a copy, so that it can stay in registers
    let mut stretch = learnt.code;
    let mut until = pc;
    let mut left = bound;
    while left > 0 {
        if !quick_step::<M, Thread>(
            &mut registers,
            &mut pc,
            memory,
            &mut learnt.reads,
            &mut learnt.writes,
            regions,
            calls,
            &mut stretch,
            &mut until,
        ) {
            // variables of their own, so that the pc and the code can stay in registers
            let mut place = pc;
            learnt.code = stretch;
            let step = slow_step(&mut registers, &mut place, memory, learnt, regions, calls);
            stretch = learnt.code;
            pc = place;
            until = place;
            if let Step::Stopped(stop) = step {
                let count = ended(thread, &registers, pc, bound, left);
                return RunEnd {
                    count,
                    stop: Some(stop),
                };
            }
        }
        left -= 1;
    }
    learnt.code = stretch;
    let stop = if bound < most {
        Some(Stop::Watchdog)
    } else {
        None
    };
    let count = ended(thread, &registers, pc, bound, 0);
    RunEnd { count, stop }
}

// Ends a run that has `left` of its `bound` instructions left: gives the thread what its registers are then, and counts those
// that ran. They are counted here and not in the loop, which then has one number that goes down.
#[cold]
#[inline(never)]
fn ended(thread: &mut Thread, registers: &Bank, pc: u32, bound: u32, left: u32) -> u32
    requires left { left ≤ bound }
    requires since { thread.old.since + bound < 2 ^ 32 }
    requires done { thread.old.done + bound < 2 ^ 128 }
    ensures ran { result ≡ bound - left }
    ensures thread { thread.new ≡ record thread.old { cpu = record { registers = registers.now; pc = pc }; since = thread.old.since + (bound - left); done = thread.old.done + (bound - left) } }
{
    let count = bound - left;
    thread.cpu.registers = registers.registers();
    thread.cpu.pc = pc;
    thread.since += count;
    thread.done += u128::from(count);
    count
}

// A step that `quick_step` left: a stop, a rare instruction or access, or an access whose page is learnt now. A system call,
// which most stops are, is found in the stretch of code.
#[cold]
#[inline(never)]
fn slow_step<M: Memory>(
    registers: &mut Bank,
    pc: &mut u32,
    memory: &mut M,
    learnt: &mut Learnt,
    regions: &Regions,
    calls: &CallTable,
) -> Step
    requires learnt { IsLearnt (record { ranges = ranges_of regions.now; calls = calls.now }) (M.backing memory.old) (M.kept memory.old) learnt.old }
    ensures step { IsStep (next (record { ranges = ranges_of regions.now; calls = calls.now }) (M.backing memory.old) (M.memory memory.old) (record { registers = registers.old; pc = pc.old })) result (record { registers = registers.old; pc = pc.old }) (record { registers = registers.new; pc = pc.new }) (M.memory memory.old) (M.memory memory.new) }
    ensures pages { M.backing memory.new ≡ M.backing memory.old }
    ensures kept { M.kept memory.new ≡ M.kept memory.old }
    ensures learnt { IsLearnt (record { ranges = ranges_of regions.now; calls = calls.now }) (M.backing memory.old) (M.kept memory.old) learnt.new }
{
    if let Some(stop) = system_call(registers, *pc, learnt.code, memory) {
        return Step::Stopped(stop);
    }
    if quick_again(registers, pc, memory, learnt, regions, calls) {
        return Step::Did;
    }
    let mut cpu = Cpu {
        registers: registers.registers(),
        pc: *pc,
    };
    let step = step(&mut cpu, memory, regions, calls);
    if let Step::Did = step {
        *registers = Bank::new(&cpu.registers);
        *pc = cpu.pc;
    }
    step
}

// Does the step that `quick_step` left where its page has been learnt by now: not where no code is known round the thread's place.
fn quick_again<M: Memory>(
    registers: &mut Bank,
    pc: &mut u32,
    memory: &mut M,
    learnt: &mut Learnt,
    regions: &Regions,
    calls: &CallTable,
) -> bool
    requires learnt { IsLearnt (record { ranges = ranges_of regions.now; calls = calls.now }) (M.backing memory.old) (M.kept memory.old) learnt.old }
    ensures step { IsQuick result (next (record { ranges = ranges_of regions.now; calls = calls.now }) (M.backing memory.old) (M.memory memory.old) (record { registers = registers.old; pc = pc.old })) (record { registers = registers.old; pc = pc.old }) (record { registers = registers.new; pc = pc.new }) (M.memory memory.old) (M.memory memory.new) }
    ensures pages { M.backing memory.new ≡ M.backing memory.old }
    ensures kept { M.kept memory.new ≡ M.kept memory.old }
    ensures learnt { IsLearnt (record { ranges = ranges_of regions.now; calls = calls.now }) (M.backing memory.old) (M.kept memory.old) learnt.new }
{
    if !learnt.code.holds(*pc) {
        return false;
    }
    let mut until = *pc;
    quick_step::<M, Step>(
        registers,
        pc,
        memory,
        &mut learnt.reads,
        &mut learnt.writes,
        regions,
        calls,
        &mut learnt.code,
        &mut until,
    )
}
