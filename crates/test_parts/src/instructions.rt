//! Instructions and the words that an assembler gives for them, and words that are none.
use ro_decode::rows::row;
use ro_decode::{
    AluOp, AtomicOp, BranchOp, Instr, LoadOp, MulDivOp, StoreOp, atomic_operation, decode,
    destination, encode,
};
use std::process::Abort;

// words that clang's assembler gives for the instructions beside them
const WORDS: &[(u32, Instr)] = &[
    // lui x5, 0xfffff
    (
        0xFFFF_F2B7,
        Instr::Lui {
            rd: 5,
            imm: 0xFFFF_F000,
        },
    ),
    // auipc x1, 0x1
    (0x0000_1097, Instr::Auipc { rd: 1, imm: 0x1000 }),
    // jal x1, .+2048
    (0x0010_00EF, Instr::Jal { rd: 1, imm: 0x800 }),
    // jal x0, .-4
    (
        0xFFDF_F06F,
        Instr::Jal {
            rd: 0,
            imm: 0xFFFF_FFFC,
        },
    ),
    // jalr x0, -1(x1)
    (
        0xFFF0_8067,
        Instr::Jalr {
            rd: 0,
            rs1: 1,
            imm: 0xFFFF_FFFF,
        },
    ),
    // bltu x10, x11, .-4096
    (
        0x80B5_6063,
        Instr::Branch {
            op: BranchOp::Bltu,
            rs1: 10,
            rs2: 11,
            imm: 0xFFFF_F000,
        },
    ),
    // beq x1, x2, .+2048
    (
        0x0020_80E3,
        Instr::Branch {
            op: BranchOp::Beq,
            rs1: 1,
            rs2: 2,
            imm: 0x800,
        },
    ),
    // lhu x7, 2047(x2)
    (
        0x7FF1_5383,
        Instr::Load {
            op: LoadOp::Lhu,
            rd: 7,
            rs1: 2,
            imm: 0x7FF,
        },
    ),
    // sh x7, -2048(x2)
    (
        0x8071_1023,
        Instr::Store {
            op: StoreOp::Sh,
            rs1: 2,
            rs2: 7,
            imm: 0xFFFF_F800,
        },
    ),
    // srai x5, x6, 31
    (
        0x41F3_5293,
        Instr::AluImm {
            op: AluOp::Sra,
            rd: 5,
            rs1: 6,
            imm: 31,
        },
    ),
    // sltiu x5, x6, -1
    (
        0xFFF3_3293,
        Instr::AluImm {
            op: AluOp::Sltu,
            rd: 5,
            rs1: 6,
            imm: 0xFFFF_FFFF,
        },
    ),
    // sub x10, x10, x11
    (
        0x40B5_0533,
        Instr::Alu {
            op: AluOp::Sub,
            rd: 10,
            rs1: 10,
            rs2: 11,
        },
    ),
    // divu x11, x11, x10
    (
        0x02A5_D5B3,
        Instr::MulDiv {
            op: MulDivOp::Divu,
            rd: 11,
            rs1: 11,
            rs2: 10,
        },
    ),
    // mulhsu x5, x6, x7
    (
        0x0273_22B3,
        Instr::MulDiv {
            op: MulDivOp::Mulhsu,
            rd: 5,
            rs1: 6,
            rs2: 7,
        },
    ),
    // fence
    (
        0x0FF0_000F,
        Instr::Fence {
            rd: 0,
            rs1: 0,
            bits: 0xFF,
        },
    ),
    (0x0000_0073, Instr::Ecall),
    (0x0010_0073, Instr::Ebreak),
];

#[test]
fn reads_and_writes_words(rt: HostRuntime) {
    for (word, instr) in WORDS {
        assert_reads_and_writes(&rt, *word, *instr);
    }
}

fn assert_reads_and_writes(rt: &impl Abort, word: u32, instr: Instr) {
    assert_eq!(rt; decode(word), Some(instr), "at {word:x}");
    match decode(word) {
        Some(read) => assert_eq!(rt; encode(read), word),
        None => assert!(rt; false),
    }
}

// words that clang's assembler gives for atomic instructions; rd, rs1 and rs2, and the bits aq and rl
const ATOMICS: &[(u32, AtomicOp, u8, u8, u8, u8)] = &[
    (0x0053_252F, AtomicOp::AmoAdd, 10, 6, 5, 0),
    (0x1003_22AF, AtomicOp::LoadReserved, 5, 6, 0, 0),
    (0x1853_23AF, AtomicOp::StoreConditional, 7, 6, 5, 0),
    (0x0E53_252F, AtomicOp::AmoSwap, 10, 6, 5, 3),
    (0x1403_22AF, AtomicOp::LoadReserved, 5, 6, 0, 2),
    (0x1A53_23AF, AtomicOp::StoreConditional, 7, 6, 5, 1),
    (0x2053_252F, AtomicOp::AmoXor, 10, 6, 5, 0),
    (0x6053_252F, AtomicOp::AmoAnd, 10, 6, 5, 0),
    (0x4053_252F, AtomicOp::AmoOr, 10, 6, 5, 0),
    (0x8053_252F, AtomicOp::AmoMin, 10, 6, 5, 0),
    (0xA053_252F, AtomicOp::AmoMax, 10, 6, 5, 0),
    (0xC053_252F, AtomicOp::AmoMinu, 10, 6, 5, 0),
    (0xE053_252F, AtomicOp::AmoMaxu, 10, 6, 5, 0),
];

#[test]
fn reads_and_writes_atomics(rt: HostRuntime) {
    for (word, op, rd, rs1, rs2, order) in ATOMICS {
        let (op, rd, rs1, rs2, order) = (*op, *rd, *rs1, *rs2, *order);
        let instr = Instr::Atomic {
            op,
            rd,
            rs1,
            rs2,
            order,
        };
        assert_eq!(rt; decode(*word), Some(instr), "at {word:x}");
        match decode(*word) {
            Some(read) => assert_eq!(rt; encode(read), *word),
            None => assert!(rt; false),
        }
        assert_eq!(rt; atomic_operation(*word), Some(op), "at {word:x}");
        assert_eq!(rt; destination(*word), rd, "at {word:x}");
    }
}

// fence.i, shifts and operations with another upper code, csrrw, lr.w with a second register, lr.d, an atomic instruction with
// another code, fadd.s, a compressed word
const OTHER_WORDS: &[u32] = &[
    0x0000_100F,
    0x40B5_1533,
    0x4005_1513,
    0x3052_9073,
    0x1053_22AF,
    0x1003_32AF,
    0x2853_252F,
    0x0010_7053,
    0x0000_0001,
    0x0000_0000,
    0xFFFF_FFFF,
];

#[test]
fn refuses_other_words(rt: HostRuntime) {
    for word in OTHER_WORDS {
        assert_eq!(rt; decode(*word), None, "at {word:x}");
    }
}

// the opcode and funct3, by the table of the standard
const ROWS: &[(u32, u32)] = &[
    // lui x1, 0x12345; lw x8, 0(x7); bne x6, x0, -8; sh x6, 0(x5); and x5, x6, x7; jalr x0, 0(x1)
    (0x1234_50B7, 8 * 0b0110111 + 5),
    (0x0003_A403, 8 * 0b0000011 + 2),
    (0xFE03_1CE3, 8 * 0b1100011 + 1),
    (0x0062_9023, 8 * 0b0100011 + 1),
    (0x0073_72B3, 8 * 0b0110011 + 7),
    (0x0000_8067, 8 * 0b1100111),
    // words that end in other bits
    (0x0003_A400, 2),
    (0x0003_A402, 8 * 0b0000010 + 2),
    (0xFFFF_FFFE, 8 * 0b1111110 + 7),
];

#[test]
fn finds_rows(rt: HostRuntime) {
    for (word, want) in ROWS {
        assert_eq!(rt; row(*word), *want, "at {word:x}");
    }
}
