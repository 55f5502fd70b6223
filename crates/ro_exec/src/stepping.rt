//! A step: fetching, reading and executing an instruction.
ghost use Rattle.std.specs.Prelude.{◌≡◌};
ghost use Rattle.ro_exec.specs.Next.{next};
ghost use Rattle.ro_exec.specs.Steps.{IsStep};
ghost use Rattle.ro_region.specs.Permission.{ranges_of};

use crate::Cpu;
use crate::execution::execute;
use crate::fetching::fetch;
use crate::outcome::Step;
use ro_decode::decode;
use ro_event::{CallTable, Stop, TrapCause};
use ro_pages::Memory;
use ro_region::Regions;

/// Executes the next instruction of a thread, or says at which stop the thread stands; a stop changes nothing. It backs
/// no page.
#[tactic(auto, unfolding(crate::specs::Next::next))]
#[inline(always)]
pub fn step<M: Memory>(cpu: &mut Cpu, memory: &mut M, regions: &Regions, calls: &CallTable) -> Step
    ensures step { IsStep (next (record { ranges = ranges_of regions.now; calls = calls.now }) (M.backing memory.old) (M.memory memory.old) cpu.old) result cpu.old cpu.new (M.memory memory.old) (M.memory memory.new) }
    ensures pages { M.backing memory.new ≡ M.backing memory.old }
    ensures kept { M.kept memory.new ≡ M.kept memory.old }
{
    match fetch(cpu, memory, regions, calls) {
        Ok(word) => match decode(word) {
            Some(instr) => execute(instr, cpu, memory, regions),
            None => Step::Stopped(Stop::Trap(TrapCause::NoInstruction)),
        },
        Err(stop) => Step::Stopped(stop),
    }
}
