//! Reading the word of the instruction at pc.
ghost use Rattle.std.specs.Prelude.{◌≡◌, IfOk, MatchResult, Some, None};
ghost use Rattle.ro_pages.specs.Bytes.{number_at};
ghost use Rattle.ro_exec.specs.Next.{call_of, fetch_stop};
ghost use Rattle.ro_region.specs.Permission.{ranges_of};

use crate::{Cpu, EXIT_PLACE};
use ro_event::{Call, CallTable, Function, Stop, TrapCause, Which};
use ro_limits::PAGE_SIZE;
use ro_pages::Memory;
use ro_region::{Kind, Regions};

/// The word at pc, or the stop at which the thread stands before it is read.
#[tactic(auto, unfolding(crate::specs::Next::fetch_stop))]
#[inline(always)]
pub fn fetch<M: Memory>(
    cpu: &Cpu,
    memory: &M,
    regions: &Regions,
    calls: &CallTable,
) -> Result<u32, Stop>
    ensures stop { MatchResult result (λ _. fetch_stop (record { ranges = ranges_of regions.now; calls = calls.now }) (M.backing memory.now) cpu.now ≡ None) (λ stop. fetch_stop (record { ranges = ranges_of regions.now; calls = calls.now }) (M.backing memory.now) cpu.now ≡ Some stop) }
    ensures word { IfOk result (λ word. word ≡ number_at (M.memory memory.now) cpu.now.pc 4) }
{
    let pc = cpu.pc;
    if pc % 4 != 0 {
        return Err(Stop::Trap(TrapCause::MisalignedPc));
    }
    if pc == EXIT_PLACE {
        return Err(call(cpu, Which::Function(Function::Exit)));
    }
    if let Some(which) = calls.find(pc) {
        return Err(call(cpu, which));
    }
    if !regions.permits(pc, 4, Kind::Execute) {
        return Err(Stop::Trap(TrapCause::ForbiddenFetch));
    }
    if !memory.backed(pc / PAGE_SIZE) {
        return Err(Stop::PageFault(pc / PAGE_SIZE));
    }
    Ok(memory.load(pc, 4))
}

/// The call that a thread makes, with its arguments.
pub fn call(cpu: &Cpu, which: Which) -> Stop
    ensures { result ≡ call_of cpu.now which }
{
    Stop::Calls(Call {
        which,
        a0: cpu.get(10),
        a1: cpu.get(11),
        a2: cpu.get(12),
        a3: cpu.get(13),
    })
}
