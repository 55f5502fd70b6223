//! The fields of a word, and the immediates that it spells, as the 32 bits that the machine adds.
//!
//! RISC-V Unprivileged ISA 20191213, sections 2.2, "Base Instruction Formats", and 2.3, "Immediate Encoding Variants".
ghost use Rattle.std.specs.Prelude.{◌≡◌, ◌<◌};
ghost use Rattle.ro_decode.specs.Fields.{opcode_in, rd_in, funct3_in, rs1_in, rs2_in, funct7_in, i_immediate, s_immediate, b_immediate, u_immediate, j_immediate, field};

/// Bits 6 to 0.
#[inline(always)]
pub fn opcode(word: u32) -> u32
    ensures { result ≡ opcode_in word }
{
    word & 0x7F
}

/// Bits 11 to 7.
#[inline(always)]
pub fn rd(word: u32) -> u8
    ensures { result ≡ rd_in word }
{
    (word >> 7 & 31) as u8
}

/// Bits 14 to 12.
#[inline(always)]
pub fn funct3(word: u32) -> u32
    ensures { result ≡ funct3_in word }
{
    word >> 12 & 7
}

/// Bits 19 to 15.
#[inline(always)]
pub fn rs1(word: u32) -> u8
    ensures { result ≡ rs1_in word }
{
    (word >> 15 & 31) as u8
}

/// Bits 24 to 20.
#[inline(always)]
pub fn rs2(word: u32) -> u8
    ensures { result ≡ rs2_in word }
{
    (word >> 20 & 31) as u8
}

/// Bits 31 to 25.
#[inline(always)]
pub fn funct7(word: u32) -> u32
    ensures { result ≡ funct7_in word }
{
    word >> 25
}

/// Bits 31 to 27, of an atomic instruction.
#[inline(always)]
pub fn funct5(word: u32) -> u32
    ensures { result ≡ field word 27 5 }
{
    word >> 27
}

/// Bits 26 and 25, of an atomic instruction: aq and rl.
#[inline(always)]
pub fn order(word: u32) -> u8
    ensures { result ≡ field word 25 2 }
{
    (word >> 25 & 3) as u8
}

/// The register that a word's instruction writes, where it writes one.
pub fn destination(word: u32) -> u8
    ensures number { result ≡ rd_in word }
    ensures below { result < 32 }
{
    rd(word)
}

/// The immediate of loads, JALR and operations on a register and an immediate: one shift that spreads the sign.
#[tactic(auto, using(crate::proofs::Signs::spread))]
#[inline(always)]
pub fn i_form(word: u32) -> u32
    ensures { result ≡ i_immediate word }
{
    word.cast_signed().wrapping_shr(20).cast_unsigned()
}

/// The immediate of stores: that of loads with other lowest five bits.
#[inline(always)]
pub fn s_form(word: u32) -> u32
    ensures { result ≡ s_immediate word }
{
    i_form(word) / 32 * 32 + (word >> 7 & 31)
}

/// The immediate of branches: that of loads, of which bits 11 and 4 to 0 are others.
#[inline(always)]
pub fn b_form(word: u32) -> u32
    ensures { result ≡ b_immediate word }
{
    let spread = i_form(word);
    spread / 4096 * 4096 + spread / 32 % 64 * 32 + (word >> 7 & 1) * 2048 + (word >> 8 & 15) * 2
}

/// The immediate of LUI and AUIPC, with its twelve zeros.
#[inline(always)]
pub fn u_form(word: u32) -> u32
    ensures { result ≡ u_immediate word }
{
    word & 0xFFFF_F000
}

/// The immediate of JAL: that of loads, of which bits 19 to 11 and 0 are others.
#[inline(always)]
pub fn j_form(word: u32) -> u32
    ensures { result ≡ j_immediate word }
{
    let spread = i_form(word);
    spread / 0x10_0000 * 0x10_0000
        + spread / 2 % 1024 * 2
        + (word >> 12 & 0xFF) * 4096
        + (word >> 20 & 1) * 2048
}
