//! The names of registers and operations.
ghost use Rattle.std.specs.Prelude.{◌≡◌, ◌<◌};
ghost use Rattle.ro_assembly.specs.Names.{register_name, alu_name, alu_imm_name, muldiv_name, load_name, store_name, branch_name, atomic_name};

use ro_decode::{AluOp, AtomicOp, BranchOp, LoadOp, MulDivOp, StoreOp};

/// The name of a register in the calling convention.
pub fn register_name(number: u8) -> &'static str
    requires { number < 32 }
    ensures { result.now ≡ register_name number }
{
    match number {
        0 => "zero",
        1 => "ra",
        2 => "sp",
        3 => "gp",
        4 => "tp",
        5 => "t0",
        6 => "t1",
        7 => "t2",
        8 => "s0",
        9 => "s1",
        10 => "a0",
        11 => "a1",
        12 => "a2",
        13 => "a3",
        14 => "a4",
        15 => "a5",
        16 => "a6",
        17 => "a7",
        18 => "s2",
        19 => "s3",
        20 => "s4",
        21 => "s5",
        22 => "s6",
        23 => "s7",
        24 => "s8",
        25 => "s9",
        26 => "s10",
        27 => "s11",
        28 => "t3",
        29 => "t4",
        30 => "t5",
        31 => "t6",
        _ => unreachable!(),
    }
}

pub(crate) fn alu_name(op: AluOp) -> &'static str
    ensures { result.now ≡ alu_name op }
{
    match op {
        AluOp::Add => "add",
        AluOp::Sub => "sub",
        AluOp::Sll => "sll",
        AluOp::Slt => "slt",
        AluOp::Sltu => "sltu",
        AluOp::Xor => "xor",
        AluOp::Srl => "srl",
        AluOp::Sra => "sra",
        AluOp::Or => "or",
        AluOp::And => "and",
    }
}

/// The name of an operation on a register and an immediate.
pub(crate) fn alu_imm_name(op: AluOp) -> &'static str
    ensures { result.now ≡ alu_imm_name op }
{
    match op {
        AluOp::Add => "addi",
        AluOp::Sub => "subi",
        AluOp::Sll => "slli",
        AluOp::Slt => "slti",
        AluOp::Sltu => "sltiu",
        AluOp::Xor => "xori",
        AluOp::Srl => "srli",
        AluOp::Sra => "srai",
        AluOp::Or => "ori",
        AluOp::And => "andi",
    }
}

pub(crate) fn muldiv_name(op: MulDivOp) -> &'static str
    ensures { result.now ≡ muldiv_name op }
{
    match op {
        MulDivOp::Mul => "mul",
        MulDivOp::Mulh => "mulh",
        MulDivOp::Mulhsu => "mulhsu",
        MulDivOp::Mulhu => "mulhu",
        MulDivOp::Div => "div",
        MulDivOp::Divu => "divu",
        MulDivOp::Rem => "rem",
        MulDivOp::Remu => "remu",
    }
}

pub(crate) fn load_name(op: LoadOp) -> &'static str
    ensures { result.now ≡ load_name op }
{
    match op {
        LoadOp::Lb => "lb",
        LoadOp::Lh => "lh",
        LoadOp::Lw => "lw",
        LoadOp::Lbu => "lbu",
        LoadOp::Lhu => "lhu",
    }
}

pub(crate) fn store_name(op: StoreOp) -> &'static str
    ensures { result.now ≡ store_name op }
{
    match op {
        StoreOp::Sb => "sb",
        StoreOp::Sh => "sh",
        StoreOp::Sw => "sw",
    }
}

pub(crate) fn branch_name(op: BranchOp) -> &'static str
    ensures { result.now ≡ branch_name op }
{
    match op {
        BranchOp::Beq => "beq",
        BranchOp::Bne => "bne",
        BranchOp::Blt => "blt",
        BranchOp::Bge => "bge",
        BranchOp::Bltu => "bltu",
        BranchOp::Bgeu => "bgeu",
    }
}

pub(crate) fn atomic_name(op: AtomicOp) -> &'static str
    ensures { result.now ≡ atomic_name op }
{
    match op {
        AtomicOp::LoadReserved => "lr.w",
        AtomicOp::StoreConditional => "sc.w",
        AtomicOp::AmoSwap => "amoswap.w",
        AtomicOp::AmoAdd => "amoadd.w",
        AtomicOp::AmoXor => "amoxor.w",
        AtomicOp::AmoAnd => "amoand.w",
        AtomicOp::AmoOr => "amoor.w",
        AtomicOp::AmoMin => "amomin.w",
        AtomicOp::AmoMax => "amomax.w",
        AtomicOp::AmoMinu => "amominu.w",
        AtomicOp::AmoMaxu => "amomaxu.w",
    }
}
