//! The entry of a word.
ghost use Rattle.std.specs.Prelude.{ℕ, ◌≡◌, ◌<◌, IfSome, None};
ghost use Rattle.ro_decode.specs.Table.{InRange};
ghost use Rattle.ro_coded.specs.Coded.{IsEntry, IsOutside, NamesRegisters, Says, way};

use crate::operations::{branch_op, immediate_op, load_op, muldiv_op, register_op, store_op};
use crate::{Coded, Op};
use ro_decode::{Instr, decode};

/// The entry that says nothing.
pub const FRESH: Coded = Coded {
    op: Op::Fresh,
    rd: 0,
    rs1: 0,
    rs2: 0,
    imm: 0,
};

/// The entry of a word at a place of its page. It says nothing of words that spell no instruction, of FENCE, atomic instructions,
/// ECALL and EBREAK, and of jumps and branches by an immediate that lead to no word of the page.
pub fn entry_of(word: u32, at: u32) -> Coded
    requires { at < 1024 }
    ensures { IsEntry word at result }
{
    match decode(word) {
        Some(instr) => entry(instr, at),
        None => FRESH,
    }
}

/// The entry of an instruction at a place of its page.
#[tactic(auto, unfolding(crate::specs::Coded::meant_by, crate::specs::Coded::HasNone))]
fn entry(instr: Instr, at: u32) -> Coded
    requires at { at < 1024 }
    requires in_range { InRange instr }
    ensures registers { NamesRegisters result }
    ensures says { Says instr at result }
{
    match instr {
        Instr::Lui { rd, imm } => with_immediate(Op::Lui, rd, 0, imm),
        Instr::Auipc { rd, imm } => with_immediate(Op::Auipc, rd, 0, imm),
        Instr::Jal { rd, imm } => match target(at, imm) {
            Some(to) => with_immediate(Op::Jal, rd, 0, to),
            None => FRESH,
        },
        Instr::Jalr { rd, rs1, imm } => with_immediate(Op::Jalr, rd, rs1, imm),
        Instr::Branch { op, rs1, rs2, imm } => match target(at, imm) {
            Some(to) => without_result(branch_op(op), rs1, rs2, to),
            None => FRESH,
        },
        Instr::Load { op, rd, rs1, imm } => with_immediate(load_op(op), rd, rs1, imm),
        Instr::Store { op, rs1, rs2, imm } => without_result(store_op(op), rs1, rs2, imm),
        Instr::AluImm { op, rd, rs1, imm } => with_immediate(immediate_op(op), rd, rs1, imm),
        Instr::Alu { op, rd, rs1, rs2 } => of_registers(register_op(op), rd, rs1, rs2),
        Instr::MulDiv { op, rd, rs1, rs2 } => of_registers(muldiv_op(op), rd, rs1, rs2),
        Instr::Fence { .. } | Instr::Atomic { .. } | Instr::Ecall | Instr::Ebreak => FRESH,
    }
}

/// The place of the word to which a jump at a place of a page leads, if it leads to a word of the page.
fn target(at: u32, imm: u32) -> Option<u32>
    requires { at < 1024 }
    ensures some { IfSome result (λ to. (to < 1024) × (way at to ≡ imm)) }
    ensures none { result ≡ None → IsOutside at imm }
{
    let target = (4 * at).wrapping_add(imm);
    if target % 4 != 0 || target >= 4096 {
        return None;
    }
    Some(target / 4)
}

/// An entry that says to make a register's value of an immediate, and of another register's, if any.
fn with_immediate(op: Op, rd: u8, rs1: u8, imm: u32) -> Coded
    ensures { result ≡ record { op = op; rd = rd; rs1 = rs1; rs2 = 0; imm = imm } }
{
    Coded {
        op,
        rd,
        rs1,
        rs2: 0,
        imm,
    }
}

/// An entry that says to make a register's value of those of two.
fn of_registers(op: Op, rd: u8, rs1: u8, rs2: u8) -> Coded
    ensures { result ≡ record { op = op; rd = rd; rs1 = rs1; rs2 = rs2; imm = 0 } }
{
    Coded {
        op,
        rd,
        rs1,
        rs2,
        imm: 0,
    }
}

/// An entry of two registers and an immediate that makes no register's value.
fn without_result(op: Op, rs1: u8, rs2: u8, imm: u32) -> Coded
    ensures { result ≡ record { op = op; rd = 0; rs1 = rs1; rs2 = rs2; imm = imm } }
{
    Coded {
        op,
        rd: 0,
        rs1,
        rs2,
        imm,
    }
}
