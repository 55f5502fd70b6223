//! The op by which an entry says an instruction with an operation.
//!
//! Each clause speaks of all entries with that op.
#![tactic(auto, unfolding(crate::specs::Coded::meant_by))]

ghost use Rattle.std.specs.Prelude.{ℕ, ◌≡◌, ◌≢◌, Some};
ghost use Rattle.ro_decode.specs.declared.Instr.TheVariants as instr;
ghost use Rattle.ro_decode.specs.declared.AluOp.TheVariants as alu;
ghost use Rattle.ro_coded.specs.Coded.{meant_by, way};
ghost use Rattle.ro_coded.specs.declared.Coded.{Coded};

use crate::Op;
use ro_decode::{AluOp, BranchOp, LoadOp, MulDivOp, StoreOp};

/// A branch.
pub fn branch_op(op: BranchOp) -> Op
    ensures { (c : Coded) (at : ℕ) → meant_by result c at ≡ Some (instr.Branch op c.rs1 c.rs2 (way at c.imm)) }
{
    match op {
        BranchOp::Beq => Op::Beq,
        BranchOp::Bne => Op::Bne,
        BranchOp::Blt => Op::Blt,
        BranchOp::Bge => Op::Bge,
        BranchOp::Bltu => Op::Bltu,
        BranchOp::Bgeu => Op::Bgeu,
    }
}

/// A load.
pub fn load_op(op: LoadOp) -> Op
    ensures { (c : Coded) (at : ℕ) → meant_by result c at ≡ Some (instr.Load op c.rd c.rs1 c.imm) }
{
    match op {
        LoadOp::Lb => Op::Lb,
        LoadOp::Lh => Op::Lh,
        LoadOp::Lw => Op::Lw,
        LoadOp::Lbu => Op::Lbu,
        LoadOp::Lhu => Op::Lhu,
    }
}

/// A store.
pub fn store_op(op: StoreOp) -> Op
    ensures { (c : Coded) (at : ℕ) → meant_by result c at ≡ Some (instr.Store op c.rs1 c.rs2 c.imm) }
{
    match op {
        StoreOp::Sb => Op::Sb,
        StoreOp::Sh => Op::Sh,
        StoreOp::Sw => Op::Sw,
    }
}

/// An operation on a register and an immediate, of which there is no `Sub`.
pub fn immediate_op(op: AluOp) -> Op
    requires { op ≢ alu.Sub }
    ensures { (c : Coded) (at : ℕ) → meant_by result c at ≡ Some (instr.AluImm op c.rd c.rs1 c.imm) }
{
    match op {
        AluOp::Add => Op::Addi,
        AluOp::Sub => unreachable!(),
        AluOp::Sll => Op::Slli,
        AluOp::Slt => Op::Slti,
        AluOp::Sltu => Op::Sltiu,
        AluOp::Xor => Op::Xori,
        AluOp::Srl => Op::Srli,
        AluOp::Sra => Op::Srai,
        AluOp::Or => Op::Ori,
        AluOp::And => Op::Andi,
    }
}

/// An operation on two registers.
pub fn register_op(op: AluOp) -> Op
    ensures { (c : Coded) (at : ℕ) → meant_by result c at ≡ Some (instr.Alu op c.rd c.rs1 c.rs2) }
{
    match op {
        AluOp::Add => Op::Add,
        AluOp::Sub => Op::Sub,
        AluOp::Sll => Op::Sll,
        AluOp::Slt => Op::Slt,
        AluOp::Sltu => Op::Sltu,
        AluOp::Xor => Op::Xor,
        AluOp::Srl => Op::Srl,
        AluOp::Sra => Op::Sra,
        AluOp::Or => Op::Or,
        AluOp::And => Op::And,
    }
}

/// A multiplication or a division.
pub fn muldiv_op(op: MulDivOp) -> Op
    ensures { (c : Coded) (at : ℕ) → meant_by result c at ≡ Some (instr.MulDiv op c.rd c.rs1 c.rs2) }
{
    match op {
        MulDivOp::Mul => Op::Mul,
        MulDivOp::Mulh => Op::Mulh,
        MulDivOp::Mulhsu => Op::Mulhsu,
        MulDivOp::Mulhu => Op::Mulhu,
        MulDivOp::Div => Op::Div,
        MulDivOp::Divu => Op::Divu,
        MulDivOp::Rem => Op::Rem,
        MulDivOp::Remu => Op::Remu,
    }
}
