//! A thread that takes plain steps in a row, with its registers at hand.
ghost use Rattle.std.specs.Prelude.{◌≡◌, ◌+◌, ◌*◌, ◌%◌, ◌^◌, ◌≤◌, IfSome, slice_get};
ghost use Rattle.ro_exec.specs.Stretches.{IsKept};
ghost use Rattle.ro_pages.specs.Held.{memory_of};
ghost use Rattle.ro_machine.specs.Lanes.{cpu_of, Spells};

use crate::looking::{Look, loads_of, stores_of};
use crate::watching::Stretch;
use ro_decode::decode;
use ro_exec::{Bank, Open, Stretch as Code};
use ro_pages::{Memory, Pages};

/// A thread that takes plain steps in a row, with its registers at hand.
#[derive(Drop)]
pub struct Lane {
    pub thread: u32,
    pub registers: Bank,
    pub pc: u32,
    /// The code round it in which no stop stands before an instruction is read.
    pub code: Code,
    /// The data that it may load.
    pub reads: Open,
    /// The data that it may store.
    pub writes: Open,
}

/// Looks at the next step of a thread in its stretch of code; none where it stands in no stretch.
#[inline(always)]
pub(crate) fn look_quickly(lane: &Lane, pages: &Pages) -> Option<Look>
    requires aligned { lane.now.code.from % 4 ≡ 0 }
    requires bounded { lane.now.code.from + 4 * lane.now.code.words ≤ 2 ^ 32 }
    requires kept { IsKept (slice_get pages.now.numbers) lane.now.code }
    ensures { IfSome result (Spells (memory_of pages.now.pages) (cpu_of lane.now)) }
{
    if !lane.code.holds(lane.pc) {
        return None;
    }
    let code = Stretch {
        place: lane.pc,
        count: 4,
    };
    match decode(pages.load_at(lane.code.place, lane.pc)) {
        Some(instr) => Some(Look {
            pc: lane.pc,
            code,
            loads: loads_of(instr, &lane.registers),
            stores: stores_of(instr, &lane.registers),
        }),
        None => None,
    }
}
