//! Entries of words that clang's assembler gives for the instructions beside them, and a page's entries.
use ro_coded::{Code, Coded, ENTRIES, FRESH, Op, entry_of};
use std::test::Fail;

// a word that is no jump by an immediate; op, rd, rs1, rs2 and the immediate of its entry
const WORDS: &[(u32, Op, u8, u8, u8, u32)] = &[
    // lui x5, 0xfffff
    (0xFFFF_F2B7, Op::Lui, 5, 0, 0, 0xFFFF_F000),
    // lui x31, 0
    (0x0000_0FB7, Op::Lui, 31, 0, 0, 0),
    // auipc x1, 0x80000
    (0x8000_0097, Op::Auipc, 1, 0, 0, 0x8000_0000),
    // auipc x2, 0x7ffff
    (0x7FFF_F117, Op::Auipc, 2, 0, 0, 0x7FFF_F000),
    // jalr x1, 2047(x5)
    (0x7FF2_80E7, Op::Jalr, 1, 5, 0, 2047),
    // jalr x0, -2048(x1)
    (0x8000_8067, Op::Jalr, 0, 1, 0, 0xFFFF_F800),
    // lb x7, 2047(x2)
    (0x7FF1_0383, Op::Lb, 7, 2, 0, 2047),
    // lh x7, -2048(x2)
    (0x8001_1383, Op::Lh, 7, 2, 0, 0xFFFF_F800),
    // lw x31, -1(x30)
    (0xFFFF_2F83, Op::Lw, 31, 30, 0, 0xFFFF_FFFF),
    // lbu x1, 0(x31)
    (0x000F_C083, Op::Lbu, 1, 31, 0, 0),
    // lhu x3, -2(x4)
    (0xFFE2_5183, Op::Lhu, 3, 4, 0, 0xFFFF_FFFE),
    // sb x7, 2047(x2)
    (0x7E71_0FA3, Op::Sb, 0, 2, 7, 2047),
    // sh x31, -2048(x30)
    (0x81FF_1023, Op::Sh, 0, 30, 31, 0xFFFF_F800),
    // sw x1, -4(x2)
    (0xFE11_2E23, Op::Sw, 0, 2, 1, 0xFFFF_FFFC),
    // addi x5, x6, 2047
    (0x7FF3_0293, Op::Addi, 5, 6, 0, 2047),
    // addi x5, x6, -2048
    (0x8003_0293, Op::Addi, 5, 6, 0, 0xFFFF_F800),
    // slli x5, x6, 31
    (0x01F3_1293, Op::Slli, 5, 6, 0, 31),
    // slti x5, x6, -1
    (0xFFF3_2293, Op::Slti, 5, 6, 0, 0xFFFF_FFFF),
    // sltiu x5, x6, -2048
    (0x8003_3293, Op::Sltiu, 5, 6, 0, 0xFFFF_F800),
    // xori x5, x6, -1
    (0xFFF3_4293, Op::Xori, 5, 6, 0, 0xFFFF_FFFF),
    // srli x5, x6, 0
    (0x0003_5293, Op::Srli, 5, 6, 0, 0),
    // srai x5, x6, 31
    (0x41F3_5293, Op::Srai, 5, 6, 0, 31),
    // ori x5, x6, 1024
    (0x4003_6293, Op::Ori, 5, 6, 0, 1024),
    // andi x5, x6, -16
    (0xFF03_7293, Op::Andi, 5, 6, 0, 0xFFFF_FFF0),
    // add x5, x6, x7
    (0x0073_02B3, Op::Add, 5, 6, 7, 0),
    // sub x5, x6, x7
    (0x4073_02B3, Op::Sub, 5, 6, 7, 0),
    // sll x5, x6, x7
    (0x0073_12B3, Op::Sll, 5, 6, 7, 0),
    // slt x5, x6, x7
    (0x0073_22B3, Op::Slt, 5, 6, 7, 0),
    // sltu x5, x6, x7
    (0x0073_32B3, Op::Sltu, 5, 6, 7, 0),
    // xor x5, x6, x7
    (0x0073_42B3, Op::Xor, 5, 6, 7, 0),
    // srl x5, x6, x7
    (0x0073_52B3, Op::Srl, 5, 6, 7, 0),
    // sra x5, x6, x7
    (0x4073_52B3, Op::Sra, 5, 6, 7, 0),
    // or x5, x6, x7
    (0x0073_62B3, Op::Or, 5, 6, 7, 0),
    // and x5, x6, x7
    (0x0073_72B3, Op::And, 5, 6, 7, 0),
    // mul x5, x6, x7
    (0x0273_02B3, Op::Mul, 5, 6, 7, 0),
    // mulh x5, x6, x7
    (0x0273_12B3, Op::Mulh, 5, 6, 7, 0),
    // mulhsu x5, x6, x7
    (0x0273_22B3, Op::Mulhsu, 5, 6, 7, 0),
    // mulhu x5, x6, x7
    (0x0273_32B3, Op::Mulhu, 5, 6, 7, 0),
    // div x5, x6, x7
    (0x0273_42B3, Op::Div, 5, 6, 7, 0),
    // divu x5, x6, x7
    (0x0273_52B3, Op::Divu, 5, 6, 7, 0),
    // rem x5, x6, x7
    (0x0273_62B3, Op::Rem, 5, 6, 7, 0),
    // remu x5, x6, x7
    (0x0273_72B3, Op::Remu, 5, 6, 7, 0),
];

#[test]
fn says_what_words_spell(rt: HostRuntime) {
    for (word, op, rd, rs1, rs2, imm) in WORDS {
        let want = Coded {
            op: *op,
            rd: *rd,
            rs1: *rs1,
            rs2: *rs2,
            imm: *imm,
        };
        assert_eq!(rt; entry_of(*word, 0), want, "at {word:x}");
        assert_eq!(rt; entry_of(*word, 1023), want, "at {word:x}");
    }
}

// a jump within its page, and its word's place; op, rd, rs1, rs2 and the place of the target's word
const JUMPS: &[(u32, u32, Op, u8, u8, u8, u32)] = &[
    // jal x1, .+0
    (0x0000_00EF, 0, Op::Jal, 1, 0, 0, 0),
    // jal x1, .+4092
    (0x7FD0_00EF, 0, Op::Jal, 1, 0, 0, 1023),
    // jal x0, .-4092
    (0x804F_F06F, 1023, Op::Jal, 0, 0, 0, 0),
    // beq x1, x2, .+0
    (0x0020_8063, 1023, Op::Beq, 0, 1, 2, 1023),
    // bne x3, x0, .-8
    (0xFE01_9CE3, 9, Op::Bne, 0, 3, 0, 7),
    // blt x10, x11, .+4092
    (0x7EB5_4EE3, 0, Op::Blt, 0, 10, 11, 1023),
    // bge x31, x30, .-4092
    (0x81EF_D263, 1023, Op::Bge, 0, 31, 30, 0),
    // bltu x10, x11, .+2048
    (0x00B5_60E3, 511, Op::Bltu, 0, 10, 11, 1023),
    // bgeu x10, x11, .-2048
    (0x80B5_70E3, 512, Op::Bgeu, 0, 10, 11, 0),
];

#[test]
fn says_where_jumps_lead(rt: HostRuntime) {
    for (word, at, op, rd, rs1, rs2, to) in JUMPS {
        let want = Coded {
            op: *op,
            rd: *rd,
            rs1: *rs1,
            rs2: *rs2,
            imm: *to,
        };
        assert_eq!(rt; entry_of(*word, *at), want, "at {word:x}");
    }
}

// a jump out of its page, or to an address that is no word's, and its word's place
const FAR_JUMPS: &[(u32, u32)] = &[
    // jal x1, .+4096
    (0x0000_10EF, 0),
    // jal x1, .+4
    (0x0040_00EF, 1023),
    // jal x0, .-4
    (0xFFDF_F06F, 0),
    // jal x0, .+1048572
    (0x7FDF_F06F, 512),
    // jal x0, .-1048576
    (0x8000_006F, 512),
    // jal x1, .+2
    (0x0020_00EF, 7),
    // jal x1, .-6
    (0xFFBF_F0EF, 7),
    // beq x1, x2, .-4096
    (0x8020_8063, 1023),
    // bltu x10, x11, .+2048
    (0x00B5_60E3, 512),
    // bge x10, x11, .-4
    (0xFEB5_5EE3, 0),
    // bgeu x10, x11, .+2
    (0x00B5_7163, 0),
    // bne x10, x11, .-2
    (0xFEB5_1FE3, 512),
];

// instructions of which no entry says anything, and words that are none
const OTHER_WORDS: &[u32] = &[
    // fence
    0x0FF0_000F,
    // amoadd.w x10, x5, (x6)
    0x0053_252F,
    // lr.w x5, (x6)
    0x1003_22AF,
    // ecall
    0x0000_0073,
    // ebreak
    0x0010_0073,
    // a shift with another upper code, a branch with another funct3, a compressed word
    0x4005_1513,
    0x0000_2063,
    0x0000_0001,
    0xFFFF_FFFF,
];

#[test]
fn says_nothing_of_others(rt: HostRuntime) {
    for (word, at) in FAR_JUMPS {
        assert_eq!(rt; entry_of(*word, *at), FRESH, "at {word:x}");
    }
    for word in OTHER_WORDS {
        assert_eq!(rt; entry_of(*word, 0), FRESH, "at {word:x}");
    }
}

// lui x5, 0xfffff; addi x5, x6, -2048
const LUI: u32 = 0xFFFF_F2B7;

const ADDI: u32 = 0x8003_0293;

#[test]
fn learns_and_forgets_words(rt: HostRuntime) -> Result<(), Fail> {
    let mut code = Code::fresh(rt.alloc())?;
    for at in 0..ENTRIES as u32 {
        assert_eq!(rt; *code.at(at), FRESH);
    }
    code.learn(0, LUI);
    code.learn(1, ADDI);
    code.learn(1023, LUI);
    assert_eq!(rt; *code.at(0), entry_of(LUI, 0));
    assert_eq!(rt; *code.at(1), entry_of(ADDI, 1));
    assert_eq!(rt; *code.at(2), FRESH);
    assert_eq!(rt; *code.at(1023), entry_of(LUI, 1023));
    assert_eq!(rt; *code.at(1024), FRESH);
    code.learn(1, LUI);
    code.forget(1023);
    assert_eq!(rt; *code.at(0), entry_of(LUI, 0));
    assert_eq!(rt; *code.at(1), entry_of(LUI, 1));
    assert_eq!(rt; *code.at(1023), FRESH);
    Ok(())
}
