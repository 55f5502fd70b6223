//! Arithmetic, multiplications, divisions, atomic operations and comparisons at the borders of their numbers.
use ro_alu::{alu, amo, muldiv, taken};
use ro_decode::{AluOp, AtomicOp, BranchOp, MulDivOp};

const LEAST: u32 = 0x8000_0000;

const GREATEST: u32 = 0x7FFF_FFFF;

const MINUS_ONE: u32 = 0xFFFF_FFFF;

const COMPUTED: &[(AluOp, u32, u32, u32)] = &[
    (AluOp::Add, MINUS_ONE, 1, 0),
    (AluOp::Sub, 0, 1, MINUS_ONE),
    (AluOp::Sub, LEAST, 1, GREATEST),
    (AluOp::Sll, 1, 31, LEAST),
    (AluOp::Sll, 3, 32, 3),
    (AluOp::Srl, LEAST, 31, 1),
    (AluOp::Srl, MINUS_ONE, 0, MINUS_ONE),
    (AluOp::Sra, LEAST, 31, MINUS_ONE),
    (AluOp::Sra, LEAST, 0xFFFF_FFE4, 0xF800_0000),
    (AluOp::Slt, LEAST, GREATEST, 1),
    (AluOp::Slt, GREATEST, LEAST, 0),
    (AluOp::Sltu, LEAST, GREATEST, 0),
    (AluOp::Sltu, 0, MINUS_ONE, 1),
    (AluOp::Xor, 0xFF00_FF00, 0x0FF0_0FF0, 0xF0F0_F0F0),
    (AluOp::Or, 0xFF00_FF00, 0x0FF0_0FF0, 0xFFF0_FFF0),
    (AluOp::And, 0xFF00_FF00, 0x0FF0_0FF0, 0x0F00_0F00),
];

// the borders of shifts and comparisons
#[test]
fn computes(rt: HostRuntime) {
    for row in COMPUTED {
        let (op, a, b, want) = *row;
        assert_eq!(rt; alu(op, a, b), want, "{op:?} {a:x} {b:x}");
    }
}

const MULTIPLIED: &[(MulDivOp, u32, u32, u32)] = &[
    (MulDivOp::Mul, MINUS_ONE, MINUS_ONE, 1),
    (MulDivOp::Mulh, MINUS_ONE, MINUS_ONE, 0),
    (MulDivOp::Mulhsu, MINUS_ONE, MINUS_ONE, MINUS_ONE),
    (MulDivOp::Mulhu, MINUS_ONE, MINUS_ONE, 0xFFFF_FFFE),
    (MulDivOp::Mulh, LEAST, LEAST, 0x4000_0000),
    (MulDivOp::Mulhsu, LEAST, LEAST, 0xC000_0000),
    (MulDivOp::Div, 5, 0, MINUS_ONE),
    (MulDivOp::Rem, 5, 0, 5),
    (MulDivOp::Div, LEAST, MINUS_ONE, LEAST),
    (MulDivOp::Rem, LEAST, MINUS_ONE, 0),
    (MulDivOp::Div, 0xFFFF_FFF9, 2, 0xFFFF_FFFD),
    (MulDivOp::Rem, 0xFFFF_FFF9, 2, MINUS_ONE),
    (MulDivOp::Rem, 7, 0xFFFF_FFFE, 1),
    (MulDivOp::Divu, 5, 0, MINUS_ONE),
    (MulDivOp::Remu, 5, 0, 5),
    (MulDivOp::Divu, LEAST, MINUS_ONE, 0),
    (MulDivOp::Remu, LEAST, MINUS_ONE, LEAST),
];

// the standard's table 7.1, and products of the largest numbers
#[test]
fn multiplies_and_divides(rt: HostRuntime) {
    for row in MULTIPLIED {
        let (op, a, b, want) = *row;
        assert_eq!(rt; muldiv(op, a, b), want, "{op:?} {a:x} {b:x}");
    }
}

// a word in memory and an operand; the word then
const COMBINED: &[(AtomicOp, u32, u32, u32)] = &[
    (AtomicOp::LoadReserved, 5, 0, 5),
    (AtomicOp::StoreConditional, 5, 9, 9),
    (AtomicOp::AmoSwap, MINUS_ONE, 0, 0),
    (AtomicOp::AmoSwap, 0, MINUS_ONE, MINUS_ONE),
    (AtomicOp::AmoAdd, MINUS_ONE, 1, 0),
    (AtomicOp::AmoAdd, GREATEST, 1, LEAST),
    (AtomicOp::AmoAdd, LEAST, LEAST, 0),
    (AtomicOp::AmoAdd, 0, MINUS_ONE, MINUS_ONE),
    (AtomicOp::AmoXor, 0xFF00_FF00, 0x0FF0_0FF0, 0xF0F0_F0F0),
    (AtomicOp::AmoXor, MINUS_ONE, MINUS_ONE, 0),
    (AtomicOp::AmoAnd, 0xFF00_FF00, 0x0FF0_0FF0, 0x0F00_0F00),
    (AtomicOp::AmoAnd, MINUS_ONE, 0, 0),
    (AtomicOp::AmoOr, 0xFF00_FF00, 0x0FF0_0FF0, 0xFFF0_FFF0),
    (AtomicOp::AmoOr, 0, LEAST, LEAST),
    (AtomicOp::AmoMin, LEAST, GREATEST, LEAST),
    (AtomicOp::AmoMin, GREATEST, LEAST, LEAST),
    (AtomicOp::AmoMin, 0, MINUS_ONE, MINUS_ONE),
    (AtomicOp::AmoMin, MINUS_ONE, 0, MINUS_ONE),
    (AtomicOp::AmoMin, 7, 7, 7),
    (AtomicOp::AmoMax, LEAST, GREATEST, GREATEST),
    (AtomicOp::AmoMax, GREATEST, LEAST, GREATEST),
    (AtomicOp::AmoMax, 0, MINUS_ONE, 0),
    (AtomicOp::AmoMax, MINUS_ONE, 0, 0),
    (AtomicOp::AmoMinu, LEAST, GREATEST, GREATEST),
    (AtomicOp::AmoMinu, GREATEST, LEAST, GREATEST),
    (AtomicOp::AmoMinu, 0, MINUS_ONE, 0),
    (AtomicOp::AmoMinu, MINUS_ONE, 0, 0),
    (AtomicOp::AmoMaxu, LEAST, GREATEST, LEAST),
    (AtomicOp::AmoMaxu, GREATEST, LEAST, LEAST),
    (AtomicOp::AmoMaxu, 0, MINUS_ONE, MINUS_ONE),
    (AtomicOp::AmoMaxu, MINUS_ONE, 0, MINUS_ONE),
];

#[test]
fn combines(rt: HostRuntime) {
    for (op, word, operand, want) in COMBINED {
        assert_eq!(rt;
            amo(*op, *word, *operand),
            *want,
            "{op:?} {word:x} {operand:x}"
        );
    }
}

const COMPARED: &[(BranchOp, u32, u32, bool)] = &[
    (BranchOp::Beq, 3, 3, true),
    (BranchOp::Bne, 3, 3, false),
    (BranchOp::Blt, LEAST, GREATEST, true),
    (BranchOp::Bltu, LEAST, GREATEST, false),
    (BranchOp::Bge, LEAST, LEAST, true),
    (BranchOp::Bge, LEAST, 0, false),
    (BranchOp::Bgeu, LEAST, 0, true),
];

#[test]
fn compares(rt: HostRuntime) {
    for row in COMPARED {
        let (op, a, b, want) = *row;
        assert_eq!(rt; taken(op, a, b), want, "{op:?} {a:x} {b:x}");
    }
}
