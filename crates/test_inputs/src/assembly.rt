//! Instructions against their texts.
use ro_assembly::{address_touched, instruction_text};
use std::test::Fail;

// Where the instructions stand.
const PC: u32 = 0x1_0064;

// The words that an assembler makes of these texts, in which the places of jumps and branches are those from `PC`.
const ROWS: &[(u32, &str)] = &[
    (0x1234_5037, "lui zero, 0x12345"),
    (0xFFFF_F097, "auipc ra, 0xfffff"),
    (0x02C0_016F, "jal sp, 00010090"),
    (0x0002_01E7, "jalr gp, 0(tp)"),
    (0x0062_8863, "beq t0, t1, 00010074"),
    (0xFE83_9EE3, "bne t2, s0, 00010060"),
    (0x7EA4_CFE3, "blt s1, a0, 00011062"),
    (0x80C5_D063, "bge a1, a2, 0000f064"),
    (0x00E6_E463, "bltu a3, a4, 0001006c"),
    (0xFF07_FCE3, "bgeu a5, a6, 0001005c"),
    (0x0009_0883, "lb a7, 0(s2)"),
    (0xFFEA_1983, "lh s3, -2(s4)"),
    (0x008B_2A83, "lw s5, 8(s6)"),
    (0x7FFC_4B83, "lbu s7, 2047(s8)"),
    (0x800D_5C83, "lhu s9, -2048(s10)"),
    (0xFFBE_0FA3, "sb s11, -1(t3)"),
    (0x01DF_1123, "sh t4, 2(t5)"),
    (0x7FF0_2E23, "sw t6, 2044(zero)"),
    (0xFFF1_0093, "addi ra, sp, -1"),
    (0x0052_2193, "slti gp, tp, 5"),
    (0xFFB3_3293, "sltiu t0, t1, -5"),
    (0x8004_4393, "xori t2, s0, -2048"),
    (0x7FF5_6493, "ori s1, a0, 2047"),
    (0x0FF6_7593, "andi a1, a2, 255"),
    (0x0037_1693, "slli a3, a4, 3"),
    (0x01F8_5793, "srli a5, a6, 31"),
    (0x4019_5893, "srai a7, s2, 1"),
    (0x015A_09B3, "add s3, s4, s5"),
    (0x418B_8B33, "sub s6, s7, s8"),
    (0x01BD_1CB3, "sll s9, s10, s11"),
    (0x01EE_AE33, "slt t3, t4, t5"),
    (0x0010_3FB3, "sltu t6, zero, ra"),
    (0x0041_C133, "xor sp, gp, tp"),
    (0x0073_52B3, "srl t0, t1, t2"),
    (0x40A4_D433, "sra s0, s1, a0"),
    (0x00D6_65B3, "or a1, a2, a3"),
    (0x0107_F733, "and a4, a5, a6"),
    (0x0339_08B3, "mul a7, s2, s3"),
    (0x036A_9A33, "mulh s4, s5, s6"),
    (0x039C_2BB3, "mulhsu s7, s8, s9"),
    (0x03CD_BD33, "mulhu s10, s11, t3"),
    (0x03FF_4EB3, "div t4, t5, t6"),
    (0x0220_D033, "divu zero, ra, sp"),
    (0x0252_61B3, "rem gp, tp, t0"),
    (0x0283_F333, "remu t1, t2, s0"),
    (0x100A_29AF, "lr.w s3, (s4)"),
    (0x18B6_252F, "sc.w a0, a1, (a2)"),
    (0x0E21_A0AF, "amoswap.w ra, sp, (gp)"),
    (0x0053_222F, "amoadd.w tp, t0, (t1)"),
    (0x2084_A3AF, "amoxor.w t2, s0, (s1)"),
    (0x60E7_A6AF, "amoand.w a3, a4, (a5)"),
    (0x4119_282F, "amoor.w a6, a7, (s2)"),
    (0x816B_AAAF, "amomin.w s5, s6, (s7)"),
    (0xA19D_2C2F, "amomax.w s8, s9, (s10)"),
    (0xC1CE_ADAF, "amominu.w s11, t3, (t4)"),
    (0xE1F0_2F2F, "amomaxu.w t5, t6, (zero)"),
    (0x1601_202F, "lr.w zero, (sp)"),
    (0x0FF0_000F, "fence"),
    (0x0000_0073, "ecall"),
    (0x0010_0073, "ebreak"),
    // words that are no instructions
    (0x0000_0000, ".word 0x00000000"),
    (0x0000_100F, ".word 0x0000100f"),
    (0x1053_22AF, ".word 0x105322af"),
    (0xFFFF_FFFF, ".word 0xffffffff"),
];

#[test]
fn texts(rt: HostRuntime) -> Result<(), Fail> {
    for (word, want) in ROWS {
        let text = instruction_text(rt.alloc(), *word, PC)?;
        assert_eq!(rt; text.as_str(), *want);
    }
    Ok(())
}

// Places that lie past either end of the addresses.
#[test]
fn places_wrap(rt: HostRuntime) -> Result<(), Fail> {
    for (word, pc, want) in [
        (0xFFDF_F06F, 0, "jal zero, fffffffc"),
        (0x0080_006F, 0xFFFF_FFFC, "jal zero, 00000004"),
    ] {
        let text = instruction_text(rt.alloc(), word, pc)?;
        assert_eq!(rt; text.as_str(), want);
    }
    Ok(())
}

// lw s5, 8(s6), sb s11, -1(t3), sw t6, 2044(zero), amoadd.w a0, a1, (s6), lr.w a0, (t3), sc.w a0, a1, (zero) and two that access
// nothing, where x22 and x28 are these
#[test]
fn addresses(rt: HostRuntime) {
    let mut registers = [7; 31];
    registers[22 - 1] = 0x1_0000;
    registers[28 - 1] = 0;
    for (word, want) in [
        (0x008B_2A83, Some(0x1_0008)),
        (0xFFBE_0FA3, Some(0xFFFF_FFFF)),
        (0x7FF0_2E23, Some(2044)),
        (0x00BB_252F, Some(0x1_0000)),
        (0x100E_252F, Some(0)),
        (0x18B0_252F, Some(0)),
        (0xFFF1_0093, None),
        (0, None),
    ] {
        assert_eq!(rt; address_touched(word, &registers), want, "of {word:x}");
    }
}
