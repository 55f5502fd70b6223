//! Writing the word of an instruction.
ghost use Rattle.std.specs.Prelude.{◌≡◌, ◌%◌, ◌<◌};
ghost use Rattle.ro_decode.specs.Table.{InRange, word_of, r_word as r_word_of, i_word as i_word_of, s_word as s_word_of, b_word as b_word_of, u_word as u_word_of, j_word as j_word_of, alu_imm_word, IsAluImmediate};

use crate::operations::{
    alu_code, atomic_code, branch_code, load_code, muldiv_code, store_code, upper_alu_code,
};
use crate::{AluOp, Instr};

/// The word that spells an instruction whose fields are in range.
///
/// RISC-V Unprivileged ISA 20191213, chapter 24, "RV32/64G Instruction Set Listings", the tables RV32I, RV32M and RV32A.
#[tactic(auto, unfolding(crate::specs::Table::word_of))]
pub fn encode(instr: Instr) -> u32
    requires { InRange instr }
    ensures { result ≡ word_of instr }
{
    match instr {
        Instr::Lui { rd, imm } => u_word(imm, rd, 0b0110111),
        Instr::Auipc { rd, imm } => u_word(imm, rd, 0b0010111),
        Instr::Jal { rd, imm } => j_word(imm, rd, 0b1101111),
        Instr::Jalr { rd, rs1, imm } => i_word(imm, rs1, 0b000, rd, 0b1100111),
        Instr::Branch { op, rs1, rs2, imm } => { b_word(imm, rs2, rs1, branch_code(op), 0b1100011) }
        Instr::Load { op, rd, rs1, imm } => i_word(imm, rs1, load_code(op), rd, 0b0000011),
        Instr::Store { op, rs1, rs2, imm } => s_word(imm, rs2, rs1, store_code(op), 0b0100011),
        Instr::AluImm { op, rd, rs1, imm } => immediate_word(op, rd, rs1, imm),
        Instr::Alu { op, rd, rs1, rs2 } => {
            r_word(
                upper_alu_code(op),
                u32::from(rs2),
                rs1,
                alu_code(op),
                rd,
                0b0110011,
            )
        }
        Instr::MulDiv { op, rd, rs1, rs2 } => {
            r_word(
                0b0000001,
                u32::from(rs2),
                rs1,
                muldiv_code(op),
                rd,
                0b0110011,
            )
        }
        Instr::Fence { rd, rs1, bits } => i_word(bits, rs1, 0b000, rd, 0b0001111),
        Instr::Atomic {
            op,
            rd,
            rs1,
            rs2,
            order,
        } => {
            r_word(
                atomic_code(op) * 4 + u32::from(order),
                u32::from(rs2),
                rs1,
                0b010,
                rd,
                0b0101111,
            )
        }
        Instr::Ecall => 0x0000_0073,
        Instr::Ebreak => 0x0010_0073,
    }
}

fn immediate_word(op: AluOp, rd: u8, rs1: u8, imm: u32) -> u32
    requires rd { rd < 32 }
    requires rs1 { rs1 < 32 }
    requires imm { IsAluImmediate op imm }
    ensures { result ≡ alu_imm_word op rd rs1 imm }
{
    match op {
        AluOp::Sll => r_word(0, imm, rs1, 0b001, rd, 0b0010011),
        AluOp::Srl => r_word(0, imm, rs1, 0b101, rd, 0b0010011),
        AluOp::Sra => r_word(0b0100000, imm, rs1, 0b101, rd, 0b0010011),
        op => i_word(imm, rs1, alu_code(op), rd, 0b0010011),
    }
}

fn r_word(funct7: u32, rs2: u32, rs1: u8, funct3: u32, rd: u8, opcode: u32) -> u32
    requires funct7 { funct7 < 128 }
    requires rs2 { rs2 < 32 }
    requires rs1 { rs1 < 32 }
    requires funct3 { funct3 < 8 }
    requires rd { rd < 32 }
    requires opcode { opcode < 128 }
    ensures { result ≡ r_word_of funct7 rs2 rs1 funct3 rd opcode }
{
    opcode | u32::from(rd) << 7 | funct3 << 12 | u32::from(rs1) << 15 | rs2 << 20 | funct7 << 25
}

fn i_word(imm: u32, rs1: u8, funct3: u32, rd: u8, opcode: u32) -> u32
    requires rs1 { rs1 < 32 }
    requires funct3 { funct3 < 8 }
    requires rd { rd < 32 }
    requires opcode { opcode < 128 }
    ensures { result ≡ i_word_of imm rs1 funct3 rd opcode }
{
    opcode | u32::from(rd) << 7 | funct3 << 12 | u32::from(rs1) << 15 | imm % 0x1000 << 20
}

fn s_word(imm: u32, rs2: u8, rs1: u8, funct3: u32, opcode: u32) -> u32
    requires rs2 { rs2 < 32 }
    requires rs1 { rs1 < 32 }
    requires funct3 { funct3 < 8 }
    requires opcode { opcode < 128 }
    ensures { result ≡ s_word_of imm rs2 rs1 funct3 opcode }
{
    opcode
        | imm % 32 << 7
        | funct3 << 12
        | u32::from(rs1) << 15
        | u32::from(rs2) << 20
        | (imm >> 5) % 128 << 25
}

fn b_word(imm: u32, rs2: u8, rs1: u8, funct3: u32, opcode: u32) -> u32
    requires rs2 { rs2 < 32 }
    requires rs1 { rs1 < 32 }
    requires funct3 { funct3 < 8 }
    requires opcode { opcode < 128 }
    ensures { result ≡ b_word_of imm rs2 rs1 funct3 opcode }
{
    opcode
        | (imm >> 11) % 2 << 7
        | (imm >> 1) % 16 << 8
        | funct3 << 12
        | u32::from(rs1) << 15
        | u32::from(rs2) << 20
        | (imm >> 5) % 64 << 25
        | (imm >> 12) % 2 << 31
}

fn u_word(imm: u32, rd: u8, opcode: u32) -> u32
    requires imm { imm % 4096 ≡ 0 }
    requires rd { rd < 32 }
    requires opcode { opcode < 128 }
    ensures { result ≡ u_word_of imm rd opcode }
{
    opcode | u32::from(rd) << 7 | (imm >> 12) << 12
}

fn j_word(imm: u32, rd: u8, opcode: u32) -> u32
    requires rd { rd < 32 }
    requires opcode { opcode < 128 }
    ensures { result ≡ j_word_of imm rd opcode }
{
    opcode
        | u32::from(rd) << 7
        | (imm >> 12) % 256 << 12
        | (imm >> 11) % 2 << 20
        | (imm >> 1) % 1024 << 21
        | (imm >> 20) % 2 << 31
}
