//! The address that a load, a store or an atomic instruction accesses.
ghost use Rattle.std.specs.Prelude.{ℕ, ◌≡◌};
ghost use Rattle.ro_assembly.specs.Accesses.{touched_at};

use ro_decode::{Instr, decode};
use ro_exec::Cpu;

/// The address of the first byte that a load, a store or an atomic instruction accesses, where x1 to x31 are these. None where the
/// word is none of them.
pub fn address_touched(word: u32, registers: &[u32; 31]) -> Option<u32>
    ensures { (pc : ℕ) → result ≡ touched_at word (record { registers = registers.now; pc = pc }) }
{
    let cpu = Cpu {
        registers: *registers,
        pc: 0,
    };
    match decode(word)? {
        Instr::Load { rs1, imm, .. } | Instr::Store { rs1, imm, .. } => {
            Some(cpu.get(rs1).wrapping_add(imm))
        }
        Instr::Atomic { rs1, .. } => Some(cpu.get(rs1)),
        _ => None,
    }
}
