//! What is known of a thread's step before it is taken.
ghost use Rattle.std.specs.Prelude.{ℕ, [], ◌∷◌, ◌≡◌, ◌+◌, ◌%◌, ◌^◌, ◌<◌, ◌≤◌, is_none, true};
ghost use Rattle.ro_pages.specs.Bytes.{number_at, number_of};
ghost use Rattle.ro_pages.specs.Held.{memory_of};
ghost use Rattle.ro_decode.specs.Table.{InRange};
ghost use Rattle.ro_exec.specs.Meaning.{loads, stores};
ghost use Rattle.ro_exec.specs.Next.{all_backed, fetch_stop};
ghost use Rattle.ro_machine.specs.Watched.{LooksAt, span_of};
ghost use Rattle.ro_region.specs.Permission.{ranges_of};

use crate::watching::{NO_BYTES, Stretch};
use ro_decode::{Instr, decode};
use ro_event::CallTable;
use ro_exec::{Bank, Cpu, EXIT_PLACE, load_size, store_size};
use ro_pages::Pages;
use ro_region::{Kind, Regions};

/// What is known of a thread's step before it is taken.
#[derive(Clone, Copy, Debug, PartialEq, Eq)]
pub(crate) struct Look {
    /// Where the thread stands.
    pub pc: u32,
    /// The bytes of its instruction, where it is read.
    pub code: Stretch,
    /// The bytes that its instruction loads, if it is executed.
    pub loads: Stretch,
    /// The bytes that its instruction stores, if it is executed.
    pub stores: Stretch,
}

/// Of a step that reads no instruction.
pub(crate) const NOTHING_SEEN: Look = Look {
    pc: 0,
    code: NO_BYTES,
    loads: NO_BYTES,
    stores: NO_BYTES,
};

/// Looks at the next step of a thread.
pub(crate) fn look_ahead(cpu: &Cpu, pages: &Pages, regions: &Regions, calls: &CallTable) -> Look
    ensures { LooksAt (record { ranges = ranges_of regions.now; calls = calls.now }) (memory_of pages.now.pages) cpu.now result }
{
    if !is_fetched(cpu, regions, calls) {
        return Look {
            pc: cpu.pc,
            ..NOTHING_SEEN
        };
    }
    let code = Stretch {
        place: cpu.pc,
        count: 4,
    };
    match decode(word_at(pages, cpu.pc)) {
        Some(instr) => {
            let registers = Bank::new(&cpu.registers);
            Look {
                pc: cpu.pc,
                code,
                loads: loads_of(instr, &registers),
                stores: stores_of(instr, &registers),
            }
        }
        None => Look {
            pc: cpu.pc,
            code,
            loads: NO_BYTES,
            stores: NO_BYTES,
        },
    }
}

/// The bytes that an instruction loads.
#[inline(always)]
pub(crate) fn loads_of(instr: Instr, registers: &Bank) -> Stretch
    requires { InRange instr }
    ensures bytes { (pc : ℕ) → span_of result ≡ loads instr (record { registers = registers.now; pc = pc }) }
    ensures few { result.count ≤ 4 }
{
    match instr {
        Instr::Load { op, rs1, imm, .. } => Stretch {
            place: registers.get(rs1).wrapping_add(imm),
            count: load_size(op),
        },
        _ => NO_BYTES,
    }
}

/// The bytes that it stores.
#[inline(always)]
pub(crate) fn stores_of(instr: Instr, registers: &Bank) -> Stretch
    requires { InRange instr }
    ensures bytes { (pc : ℕ) → span_of result ≡ stores instr (record { registers = registers.now; pc = pc }) }
    ensures few { result.count ≤ 4 }
    ensures at { result.place < 2 ^ 32 }
{
    match instr {
        Instr::Store { op, rs1, imm, .. } => Stretch {
            place: registers.get(rs1).wrapping_add(imm),
            count: store_size(op),
        },
        _ => NO_BYTES,
    }
}

/// Whether the instruction at pc is read: there is no stop before it.
fn is_fetched(cpu: &Cpu, regions: &Regions, calls: &CallTable) -> bool
    ensures fetched { result ≡ is_none (fetch_stop (record { ranges = ranges_of regions.now; calls = calls.now }) all_backed cpu.now) }
    ensures aligned { result ≡ true → cpu.now.pc % 4 ≡ 0 }
{
    if cpu.pc % 4 != 0 {
        return false;
    }
    if cpu.pc == EXIT_PLACE {
        return false;
    }
    if calls.find(cpu.pc).is_some() {
        return false;
    }
    regions.permits(cpu.pc, 4, Kind::Execute)
}

/// The word at an address.
fn word_at(pages: &Pages, address: u32) -> u32
    requires { address + 4 ≤ 2 ^ 32 }
    ensures { result ≡ number_at (memory_of pages.now.pages) address 4 }
{
    let mut bytes = [0; 4];
    pages.read_bytes(address, &mut bytes);
    spelled(bytes[0], bytes[1], bytes[2], bytes[3])
}

/// The number that four bytes spell, the lowest first.
fn spelled(first: u8, second: u8, third: u8, fourth: u8) -> u32
    ensures { result ≡ number_of (first ∷ second ∷ third ∷ fourth ∷ []) }
{
    u32::from(first)
        + 256 * (u32::from(second) + 256 * (u32::from(third) + 256 * u32::from(fourth)))
}
