//! The codes of operations: funct3 of an instruction's word, funct7 where it has one, and funct5 of an atomic instruction.
//!
//! RISC-V Unprivileged ISA 20191213, chapter 24, the columns funct3, funct7 and funct5.
ghost use Rattle.std.specs.Prelude.{◌≡◌, ◌<◌};
ghost use Rattle.ro_decode.specs.Table.{load_with, store_with, branch_with, muldiv_with, alu_with, other_alu_with, atomic_with, alu_funct3, alu_funct7, muldiv_funct3, load_funct3, store_funct3, branch_funct3, atomic_funct5};

use crate::{AluOp, AtomicOp, BranchOp, LoadOp, MulDivOp, StoreOp};

#[inline(always)]
pub fn branch_op(funct3: u32) -> Option<BranchOp>
    ensures { result ≡ branch_with funct3 }
{
    match funct3 {
        0b000 => Some(BranchOp::Beq),
        0b001 => Some(BranchOp::Bne),
        0b100 => Some(BranchOp::Blt),
        0b101 => Some(BranchOp::Bge),
        0b110 => Some(BranchOp::Bltu),
        0b111 => Some(BranchOp::Bgeu),
        _ => None,
    }
}

#[inline(always)]
pub fn load_op(funct3: u32) -> Option<LoadOp>
    ensures { result ≡ load_with funct3 }
{
    match funct3 {
        0b000 => Some(LoadOp::Lb),
        0b001 => Some(LoadOp::Lh),
        0b010 => Some(LoadOp::Lw),
        0b100 => Some(LoadOp::Lbu),
        0b101 => Some(LoadOp::Lhu),
        _ => None,
    }
}

#[inline(always)]
pub fn store_op(funct3: u32) -> Option<StoreOp>
    ensures { result ≡ store_with funct3 }
{
    match funct3 {
        0b000 => Some(StoreOp::Sb),
        0b001 => Some(StoreOp::Sh),
        0b010 => Some(StoreOp::Sw),
        _ => None,
    }
}

/// The operations whose funct7 is 0.
#[inline(always)]
pub fn alu_op(funct3: u32) -> Option<AluOp>
    ensures { result ≡ alu_with funct3 }
{
    match funct3 {
        0b000 => Some(AluOp::Add),
        0b001 => Some(AluOp::Sll),
        0b010 => Some(AluOp::Slt),
        0b011 => Some(AluOp::Sltu),
        0b100 => Some(AluOp::Xor),
        0b101 => Some(AluOp::Srl),
        0b110 => Some(AluOp::Or),
        0b111 => Some(AluOp::And),
        _ => None,
    }
}

/// The operations whose funct7 is 0100000.
#[inline(always)]
pub fn other_alu_op(funct3: u32) -> Option<AluOp>
    ensures { result ≡ other_alu_with funct3 }
{
    match funct3 {
        0b000 => Some(AluOp::Sub),
        0b101 => Some(AluOp::Sra),
        _ => None,
    }
}

#[inline(always)]
pub fn muldiv_op(funct3: u32) -> Option<MulDivOp>
    ensures { result ≡ muldiv_with funct3 }
{
    match funct3 {
        0b000 => Some(MulDivOp::Mul),
        0b001 => Some(MulDivOp::Mulh),
        0b010 => Some(MulDivOp::Mulhsu),
        0b011 => Some(MulDivOp::Mulhu),
        0b100 => Some(MulDivOp::Div),
        0b101 => Some(MulDivOp::Divu),
        0b110 => Some(MulDivOp::Rem),
        0b111 => Some(MulDivOp::Remu),
        _ => None,
    }
}

/// The atomic operations on two operands: all but LR.
pub fn atomic_op(funct5: u32) -> Option<AtomicOp>
    ensures { result ≡ atomic_with funct5 }
{
    match funct5 {
        0b00000 => Some(AtomicOp::AmoAdd),
        0b00001 => Some(AtomicOp::AmoSwap),
        0b00011 => Some(AtomicOp::StoreConditional),
        0b00100 => Some(AtomicOp::AmoXor),
        0b01000 => Some(AtomicOp::AmoOr),
        0b01100 => Some(AtomicOp::AmoAnd),
        0b10000 => Some(AtomicOp::AmoMin),
        0b10100 => Some(AtomicOp::AmoMax),
        0b11000 => Some(AtomicOp::AmoMinu),
        0b11100 => Some(AtomicOp::AmoMaxu),
        _ => None,
    }
}

pub fn branch_code(op: BranchOp) -> u32
    ensures value { result ≡ branch_funct3 op }
    ensures below { result < 8 }
{
    match op {
        BranchOp::Beq => 0b000,
        BranchOp::Bne => 0b001,
        BranchOp::Blt => 0b100,
        BranchOp::Bge => 0b101,
        BranchOp::Bltu => 0b110,
        BranchOp::Bgeu => 0b111,
    }
}

pub fn load_code(op: LoadOp) -> u32
    ensures value { result ≡ load_funct3 op }
    ensures below { result < 8 }
{
    match op {
        LoadOp::Lb => 0b000,
        LoadOp::Lh => 0b001,
        LoadOp::Lw => 0b010,
        LoadOp::Lbu => 0b100,
        LoadOp::Lhu => 0b101,
    }
}

pub fn store_code(op: StoreOp) -> u32
    ensures value { result ≡ store_funct3 op }
    ensures below { result < 8 }
{
    match op {
        StoreOp::Sb => 0b000,
        StoreOp::Sh => 0b001,
        StoreOp::Sw => 0b010,
    }
}

pub fn alu_code(op: AluOp) -> u32
    ensures value { result ≡ alu_funct3 op }
    ensures below { result < 8 }
{
    match op {
        AluOp::Add => 0b000,
        AluOp::Sub => 0b000,
        AluOp::Sll => 0b001,
        AluOp::Slt => 0b010,
        AluOp::Sltu => 0b011,
        AluOp::Xor => 0b100,
        AluOp::Srl => 0b101,
        AluOp::Sra => 0b101,
        AluOp::Or => 0b110,
        AluOp::And => 0b111,
    }
}

pub fn upper_alu_code(op: AluOp) -> u32
    ensures value { result ≡ alu_funct7 op }
    ensures below { result < 128 }
{
    match op {
        AluOp::Sub | AluOp::Sra => 0b0100000,
        _ => 0b0000000,
    }
}

pub fn muldiv_code(op: MulDivOp) -> u32
    ensures value { result ≡ muldiv_funct3 op }
    ensures below { result < 8 }
{
    match op {
        MulDivOp::Mul => 0b000,
        MulDivOp::Mulh => 0b001,
        MulDivOp::Mulhsu => 0b010,
        MulDivOp::Mulhu => 0b011,
        MulDivOp::Div => 0b100,
        MulDivOp::Divu => 0b101,
        MulDivOp::Rem => 0b110,
        MulDivOp::Remu => 0b111,
    }
}

pub fn atomic_code(op: AtomicOp) -> u32
    ensures value { result ≡ atomic_funct5 op }
    ensures below { result < 32 }
{
    match op {
        AtomicOp::AmoAdd => 0b00000,
        AtomicOp::AmoSwap => 0b00001,
        AtomicOp::LoadReserved => 0b00010,
        AtomicOp::StoreConditional => 0b00011,
        AtomicOp::AmoXor => 0b00100,
        AtomicOp::AmoOr => 0b01000,
        AtomicOp::AmoAnd => 0b01100,
        AtomicOp::AmoMin => 0b10000,
        AtomicOp::AmoMax => 0b10100,
        AtomicOp::AmoMinu => 0b11000,
        AtomicOp::AmoMaxu => 0b11100,
    }
}
