//! The system call that a thread makes, found where its code is.
ghost use Rattle.std.specs.Prelude.{◌≡◌, ◌+◌, ◌*◌, ◌%◌, ◌^◌, ◌≤◌, IfSome};
ghost use Rattle.ro_exec.specs.Next.{Layout, Stands, next};
ghost use Rattle.ro_exec.specs.Stretches.{IsClear, IsKept};

use crate::bank::Bank;
use crate::stretch::Stretch;
use ro_decode::rows::is_ecall;
use ro_event::{Call, Stop, Which};
use ro_pages::Memory;

/// The system call of a thread that stands at one in the stretch. Where nothing is answered the whole step says what comes: this
/// one owes no answer.
#[inline(always)]
pub fn system_call<M: Memory>(
    registers: &Bank,
    pc: u32,
    stretch: Stretch,
    memory: &M,
) -> Option<Stop>
    requires aligned { stretch.from % 4 ≡ 0 }
    requires bounded { stretch.from + 4 * stretch.words ≤ 2 ^ 32 }
    requires kept { IsKept (M.kept memory.now) stretch }
    ensures { (layout : Layout) → IsClear layout (M.backing memory.now) stretch → IfSome result (λ stop. next layout (M.backing memory.now) (M.memory memory.now) (record { registers = registers.now; pc = pc }) ≡ Stands stop) }
{
    if !stretch.holds(pc) {
        return None;
    }
    if !is_ecall(memory.load_at(stretch.place, pc)) {
        return None;
    }
    Some(Stop::Calls(Call {
        which: Which::System(registers.get(17)),
        a0: registers.get(10),
        a1: registers.get(11),
        a2: registers.get(12),
        a3: registers.get(13),
    }))
}
