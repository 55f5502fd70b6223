//! The instructions of words whose opcode and funct3 are known, for a reader that finds both by one jump.
ghost use Rattle.std.specs.Prelude.{◌≡◌, ◌↔◌, ◌+◌, ◌*◌, ◌/◌, ◌%◌, ◌<◌, Some, true, false, ◌==◌};
ghost use Rattle.ro_decode.specs.Fields.{opcode_in, funct3_in, funct7_in};
ghost use Rattle.ro_decode.specs.Table.{InRange, instruction_of, load_with, store_with, branch_with, alu_with, other_alu_with, muldiv_with};

use crate::fields::{b_form, i_form, j_form, rd, rs1, rs2, s_form, u_form};
use crate::{AluOp, BranchOp, Instr, LoadOp, MulDivOp, StoreOp};

/// The row of a word, of ten bits: funct3, and above it the opcode. One product brings both to the top.
#[inline(always)]
pub fn row(word: u32) -> u32
    ensures { result ≡ 8 * opcode_in word + funct3_in word }
{
    (word % 128 + word / 4096 % 8 * 4096).wrapping_mul(0x0200_0400) / 0x0040_0000
}

/// LUI.
#[tactic(auto, unfolding(crate::specs::Table::instruction_of))]
#[inline(always)]
pub fn lui(word: u32) -> Instr
    requires opcode { opcode_in word ≡ 0b0110111 }
    ensures instruction { instruction_of word ≡ Some result }
    ensures in_range { InRange result }
{
    Instr::Lui {
        rd: rd(word),
        imm: u_form(word),
    }
}

/// AUIPC.
#[tactic(auto, unfolding(crate::specs::Table::instruction_of))]
#[inline(always)]
pub fn auipc(word: u32) -> Instr
    requires opcode { opcode_in word ≡ 0b0010111 }
    ensures instruction { instruction_of word ≡ Some result }
    ensures in_range { InRange result }
{
    Instr::Auipc {
        rd: rd(word),
        imm: u_form(word),
    }
}

/// JAL.
#[tactic(auto, unfolding(crate::specs::Table::instruction_of))]
#[inline(always)]
pub fn jal(word: u32) -> Instr
    requires opcode { opcode_in word ≡ 0b1101111 }
    ensures instruction { instruction_of word ≡ Some result }
    ensures in_range { InRange result }
{
    Instr::Jal {
        rd: rd(word),
        imm: j_form(word),
    }
}

/// JALR.
#[tactic(auto, unfolding(crate::specs::Table::instruction_of))]
#[inline(always)]
pub fn jalr(word: u32) -> Instr
    requires opcode { opcode_in word ≡ 0b1100111 }
    requires funct3 { funct3_in word ≡ 0 }
    ensures instruction { instruction_of word ≡ Some result }
    ensures in_range { InRange result }
{
    Instr::Jalr {
        rd: rd(word),
        rs1: rs1(word),
        imm: i_form(word),
    }
}

/// A branch.
#[tactic(auto, unfolding(crate::specs::Table::instruction_of))]
#[inline(always)]
pub fn branch(word: u32, op: BranchOp) -> Instr
    requires opcode { opcode_in word ≡ 0b1100011 }
    requires op { branch_with (funct3_in word) ≡ Some op }
    ensures instruction { instruction_of word ≡ Some result }
    ensures in_range { InRange result }
{
    Instr::Branch {
        op,
        rs1: rs1(word),
        rs2: rs2(word),
        imm: b_form(word),
    }
}

/// A load.
#[tactic(auto, unfolding(crate::specs::Table::instruction_of))]
#[inline(always)]
pub fn load(word: u32, op: LoadOp) -> Instr
    requires opcode { opcode_in word ≡ 0b0000011 }
    requires op { load_with (funct3_in word) ≡ Some op }
    ensures instruction { instruction_of word ≡ Some result }
    ensures in_range { InRange result }
{
    Instr::Load {
        op,
        rd: rd(word),
        rs1: rs1(word),
        imm: i_form(word),
    }
}

/// A store.
#[tactic(auto, unfolding(crate::specs::Table::instruction_of))]
#[inline(always)]
pub fn store(word: u32, op: StoreOp) -> Instr
    requires opcode { opcode_in word ≡ 0b0100011 }
    requires op { store_with (funct3_in word) ≡ Some op }
    ensures instruction { instruction_of word ≡ Some result }
    ensures in_range { InRange result }
{
    Instr::Store {
        op,
        rs1: rs1(word),
        rs2: rs2(word),
        imm: s_form(word),
    }
}

/// An operation on a register and an immediate that is no shift.
#[tactic(auto, unfolding(crate::specs::Table::instruction_of))]
#[inline(always)]
pub fn alu_imm(word: u32, op: AluOp) -> Instr
    requires opcode { opcode_in word ≡ 0b0010011 }
    requires no_left_shift { (funct3_in word == 0b001) ≡ false }
    requires no_right_shift { (funct3_in word == 0b101) ≡ false }
    requires op { alu_with (funct3_in word) ≡ Some op }
    ensures instruction { instruction_of word ≡ Some result }
    ensures in_range { InRange result }
{
    Instr::AluImm {
        op,
        rd: rd(word),
        rs1: rs1(word),
        imm: i_form(word),
    }
}

/// A shift to the left by an immediate.
#[tactic(auto, unfolding(crate::specs::Table::instruction_of))]
#[inline(always)]
pub fn sll_imm(word: u32) -> Instr
    requires opcode { opcode_in word ≡ 0b0010011 }
    requires funct3 { funct3_in word ≡ 0b001 }
    requires funct7 { funct7_in word ≡ 0 }
    ensures instruction { instruction_of word ≡ Some result }
    ensures in_range { InRange result }
{
    Instr::AluImm {
        op: AluOp::Sll,
        rd: rd(word),
        rs1: rs1(word),
        imm: u32::from(rs2(word)),
    }
}

/// A shift to the right by an immediate.
#[tactic(auto, unfolding(crate::specs::Table::instruction_of))]
#[inline(always)]
pub fn srl_imm(word: u32) -> Instr
    requires opcode { opcode_in word ≡ 0b0010011 }
    requires funct3 { funct3_in word ≡ 0b101 }
    requires funct7 { funct7_in word ≡ 0 }
    ensures instruction { instruction_of word ≡ Some result }
    ensures in_range { InRange result }
{
    Instr::AluImm {
        op: AluOp::Srl,
        rd: rd(word),
        rs1: rs1(word),
        imm: u32::from(rs2(word)),
    }
}

/// A shift to the right by an immediate that spreads the sign.
#[tactic(auto, unfolding(crate::specs::Table::instruction_of))]
#[inline(always)]
pub fn sra_imm(word: u32) -> Instr
    requires opcode { opcode_in word ≡ 0b0010011 }
    requires funct3 { funct3_in word ≡ 0b101 }
    requires funct7 { funct7_in word ≡ 0b0100000 }
    ensures instruction { instruction_of word ≡ Some result }
    ensures in_range { InRange result }
{
    Instr::AluImm {
        op: AluOp::Sra,
        rd: rd(word),
        rs1: rs1(word),
        imm: u32::from(rs2(word)),
    }
}

/// An operation on two registers.
#[tactic(auto, unfolding(crate::specs::Table::instruction_of))]
#[inline(always)]
pub fn alu(word: u32, op: AluOp) -> Instr
    requires opcode { opcode_in word ≡ 0b0110011 }
    requires funct7 { funct7_in word ≡ 0 }
    requires op { alu_with (funct3_in word) ≡ Some op }
    ensures instruction { instruction_of word ≡ Some result }
    ensures in_range { InRange result }
{
    Instr::Alu {
        op,
        rd: rd(word),
        rs1: rs1(word),
        rs2: rs2(word),
    }
}

/// SUB or SRA.
#[tactic(auto, unfolding(crate::specs::Table::instruction_of))]
#[inline(always)]
pub fn other_alu(word: u32, op: AluOp) -> Instr
    requires opcode { opcode_in word ≡ 0b0110011 }
    requires funct7 { funct7_in word ≡ 0b0100000 }
    requires op { other_alu_with (funct3_in word) ≡ Some op }
    ensures instruction { instruction_of word ≡ Some result }
    ensures in_range { InRange result }
{
    Instr::Alu {
        op,
        rd: rd(word),
        rs1: rs1(word),
        rs2: rs2(word),
    }
}

/// A multiplication or a division.
#[tactic(auto, unfolding(crate::specs::Table::instruction_of))]
#[inline(always)]
pub fn muldiv(word: u32, op: MulDivOp) -> Instr
    requires opcode { opcode_in word ≡ 0b0110011 }
    requires funct7 { funct7_in word ≡ 1 }
    requires op { muldiv_with (funct3_in word) ≡ Some op }
    ensures instruction { instruction_of word ≡ Some result }
    ensures in_range { InRange result }
{
    Instr::MulDiv {
        op,
        rd: rd(word),
        rs1: rs1(word),
        rs2: rs2(word),
    }
}

/// Whether a word is ECALL.
#[inline(always)]
pub fn is_ecall(word: u32) -> bool
    ensures { (result ≡ true) ↔ (instruction_of word ≡ Some Instr.Ecall) }
{
    word == 0x0000_0073
}
