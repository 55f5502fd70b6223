//! Reading a word: the instruction that it spells.
ghost use Rattle.std.specs.Prelude.{◌≡◌, ◌==◌, if◌then◌else◌, Some, None, IfSome};
ghost use Rattle.std.specs.Option.{option_map};
ghost use Rattle.ro_decode.specs.Fields.{rd_in, funct3_in, rs1_in, rs2_in, i_immediate, s_immediate, b_immediate, field};
ghost use Rattle.ro_decode.specs.Table.{load_with, store_with, branch_with, register_row, immediate_row, atomic_in, atomic_row, instruction_of, InRange};

use crate::fields::{
    b_form, funct3, funct5, funct7, i_form, j_form, opcode, order, rd, rs1, rs2, s_form, u_form,
};
use crate::operations::{alu_op, atomic_op, branch_op, load_op, muldiv_op, other_alu_op, store_op};
use crate::{AluOp, AtomicOp, Instr};

/// Two registers and an operation.
#[inline(always)]
fn register_instruction(word: u32) -> Option<Instr>
    ensures { result ≡ register_row word }
{
    let rd = rd(word);
    let rs1 = rs1(word);
    let rs2 = rs2(word);
    match funct7(word) {
        0b0000000 => {
            let op = alu_op(funct3(word))?;
            Some(Instr::Alu { op, rd, rs1, rs2 })
        }
        0b0100000 => {
            let op = other_alu_op(funct3(word))?;
            Some(Instr::Alu { op, rd, rs1, rs2 })
        }
        0b0000001 => {
            let op = muldiv_op(funct3(word))?;
            Some(Instr::MulDiv { op, rd, rs1, rs2 })
        }
        _ => None,
    }
}

/// A register, an immediate and an operation. A shift's amount stands where rs2 does.
#[inline(always)]
fn immediate_instruction(word: u32) -> Option<Instr>
    ensures { result ≡ immediate_row word }
{
    match funct3(word) {
        0b001 => match funct7(word) {
            0b0000000 => Some(shift(AluOp::Sll, word)),
            _ => None,
        },
        0b101 => match funct7(word) {
            0b0000000 => Some(shift(AluOp::Srl, word)),
            0b0100000 => Some(shift(AluOp::Sra, word)),
            _ => None,
        },
        _ => {
            let op = alu_op(funct3(word))?;
            Some(Instr::AluImm {
                op,
                rd: rd(word),
                rs1: rs1(word),
                imm: i_form(word),
            })
        }
    }
}

#[inline(always)]
fn shift(op: AluOp, word: u32) -> Instr
    ensures { result ≡ Instr.AluImm op (rd_in word) (rs1_in word) (rs2_in word) }
{
    Instr::AluImm {
        op,
        rd: rd(word),
        rs1: rs1(word),
        imm: u32::from(rs2(word)),
    }
}

/// A jump to a register's place.
#[inline(always)]
fn jalr(word: u32) -> Option<Instr>
    ensures { result ≡ (if funct3_in word == 0 then Some (Instr.Jalr (rd_in word) (rs1_in word) (i_immediate word)) else None) }
{
    match funct3(word) {
        0b000 => Some(Instr::Jalr {
            rd: rd(word),
            rs1: rs1(word),
            imm: i_form(word),
        }),
        _ => None,
    }
}

#[inline(always)]
fn branch(word: u32) -> Option<Instr>
    ensures { result ≡ option_map (λ op. Instr.Branch op (rs1_in word) (rs2_in word) (b_immediate word)) (branch_with (funct3_in word)) }
{
    let op = branch_op(funct3(word))?;
    Some(Instr::Branch {
        op,
        rs1: rs1(word),
        rs2: rs2(word),
        imm: b_form(word),
    })
}

#[inline(always)]
fn load(word: u32) -> Option<Instr>
    ensures { result ≡ option_map (λ op. Instr.Load op (rd_in word) (rs1_in word) (i_immediate word)) (load_with (funct3_in word)) }
{
    let op = load_op(funct3(word))?;
    Some(Instr::Load {
        op,
        rd: rd(word),
        rs1: rs1(word),
        imm: i_form(word),
    })
}

#[inline(always)]
fn store(word: u32) -> Option<Instr>
    ensures { result ≡ option_map (λ op. Instr.Store op (rs1_in word) (rs2_in word) (s_immediate word)) (store_with (funct3_in word)) }
{
    let op = store_op(funct3(word))?;
    Some(Instr::Store {
        op,
        rs1: rs1(word),
        rs2: rs2(word),
        imm: s_form(word),
    })
}

/// FENCE, whatever its other bits are.
#[inline(always)]
fn fence(word: u32) -> Option<Instr>
    ensures { result ≡ (if funct3_in word == 0 then Some (Instr.Fence (rd_in word) (rs1_in word) (field word 20 12)) else None) }
{
    match funct3(word) {
        0b000 => Some(Instr::Fence {
            rd: rd(word),
            rs1: rs1(word),
            bits: word >> 20,
        }),
        _ => None,
    }
}

/// The operation of an atomic instruction's word. The word of LR names no second register.
///
/// RISC-V Unprivileged ISA 20191213, chapter 8, ""A" Standard Extension for Atomic Instructions", and the table RV32A of chapter 24.
pub fn atomic_operation(word: u32) -> Option<AtomicOp>
    ensures { result ≡ atomic_in word }
{
    match funct5(word) {
        0b00010 => match rs2(word) {
            0 => Some(AtomicOp::LoadReserved),
            _ => None,
        },
        funct5 => atomic_op(funct5),
    }
}

fn atomic_instruction(word: u32) -> Option<Instr>
    ensures { result ≡ atomic_row word }
{
    let op = atomic_operation(word)?;
    Some(Instr::Atomic {
        op,
        rd: rd(word),
        rs1: rs1(word),
        rs2: rs2(word),
        order: order(word),
    })
}

/// An atomic instruction on a word, whatever its bits aq and rl are.
fn atomic(word: u32) -> Option<Instr>
    ensures { result ≡ (if funct3_in word == 0b010 then atomic_row word else None) }
{
    match funct3(word) {
        0b010 => atomic_instruction(word),
        _ => None,
    }
}

/// The instruction that the word spells, or `None` where it spells none of RV32IMA: every word of another extension,
/// FENCE.I, shifts by an immediate whose upper seven bits are others than the table's, and LR with a second register.
///
/// RISC-V Unprivileged ISA 20191213, chapter 24, "RV32/64G Instruction Set Listings", the tables RV32I, RV32M and RV32A.
#[tactic(auto, unfolding(crate::specs::Table::instruction_of))]
#[inline(always)]
pub fn decode(word: u32) -> Option<Instr>
    ensures instruction { result ≡ instruction_of word }
    ensures in_range { IfSome result InRange }
{
    match opcode(word) {
        0b0110111 => Some(Instr::Lui {
            rd: rd(word),
            imm: u_form(word),
        }),
        0b0010111 => Some(Instr::Auipc {
            rd: rd(word),
            imm: u_form(word),
        }),
        0b1101111 => Some(Instr::Jal {
            rd: rd(word),
            imm: j_form(word),
        }),
        0b1100111 => jalr(word),
        0b1100011 => branch(word),
        0b0000011 => load(word),
        0b0100011 => store(word),
        0b0010011 => immediate_instruction(word),
        0b0110011 => register_instruction(word),
        0b0001111 => fence(word),
        0b0101111 => atomic(word),
        _ => match word {
            0x0000_0073 => Some(Instr::Ecall),
            0x0010_0073 => Some(Instr::Ebreak),
            _ => None,
        },
    }
}
