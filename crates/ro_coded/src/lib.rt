//! Code that is decoded once: for each word of a page an entry of eight bytes that says what to do.
#![tactic(auto)]

mod code;
mod making;
mod operations;

pub use code::{Code, ENTRIES};
pub use making::{FRESH, entry_of};

/// What an entry says to do: nothing yet, or one instruction.
#[derive(Clone, Copy, PartialEq, Eq, Debug)]
pub enum Op {
    Fresh,
    Lui,
    Auipc,
    Jal,
    Jalr,
    Beq,
    Bne,
    Blt,
    Bge,
    Bltu,
    Bgeu,
    Lb,
    Lh,
    Lw,
    Lbu,
    Lhu,
    Sb,
    Sh,
    Sw,
    Addi,
    Slli,
    Slti,
    Sltiu,
    Xori,
    Srli,
    Srai,
    Ori,
    Andi,
    Add,
    Sub,
    Sll,
    Slt,
    Sltu,
    Xor,
    Srl,
    Sra,
    Or,
    And,
    Mul,
    Mulh,
    Mulhsu,
    Mulhu,
    Div,
    Divu,
    Rem,
    Remu,
}

/// An entry: what to do, and with what. Of `Jal` and the branches the immediate is the place of the target's word in the page; a field
/// that the op doesn't use means nothing.
#[derive(Clone, Copy, PartialEq, Eq, Debug)]
pub struct Coded {
    pub op: Op,
    pub rd: u8,
    pub rs1: u8,
    pub rs2: u8,
    pub imm: u32,
}
