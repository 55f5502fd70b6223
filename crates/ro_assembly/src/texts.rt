//! The text of an instruction.
ghost use Rattle.std.specs.Prelude.{◌≡◌, ◌<◌, IfOk};
ghost use Rattle.std.specs.Fmt.{signed_decimal};
ghost use Rattle.std.specs.String.{string_bytes};
ghost use Rattle.ro_decode.specs.Table.{InRange};
ghost use Rattle.ro_assembly.specs.Names.{register_name, atomic_name};
ghost use Rattle.ro_assembly.specs.Texts.{eight_digits, upper, based, two, three, pointed, atomic_text, text_of, word_text};

use crate::names::{
    alu_imm_name, alu_name, atomic_name, branch_name, load_name, muldiv_name, register_name,
    store_name,
};
use ro_decode::{AtomicOp, Instr, decode};
use std::alloc::{AllocError, Global};
use std::fmt;

/// What the immediate of LUI and AUIPC is a multiple of.
const UPPER: u32 = 4096;

/// A number by its eight hexadecimal digits.
#[derive(Clone, Copy)]
struct EightDigits(u32);

impl fmt::Display for EightDigits {
    ghost use Rattle.std.specs.Prelude.{Some};
    ghost use Rattle.ro_assembly.specs.Texts.{eight_digits};

    ghost output = { λ n. Some (eight_digits n.0) };

    fn fmt<W: fmt::Write>(&self, f: &mut fmt::Formatter<W>) -> fmt::Result {
        write!(f, "{:08x}", self.0)
    }
}

/// The text of the instruction that a word at pc spells, as assemblers write it: registers by the names of the calling
/// convention, the places that jumps and branches go to as addresses of eight hexadecimal digits. What a FENCE or an atomic
/// instruction orders is left out. A word that is no instruction is `.word` and its eight digits.
pub fn instruction_text(alloc: Global, word: u32, pc: u32) -> Result<String, AllocError>
    ensures { IfOk result (λ text. string_bytes text ≡ word_text word pc) }
{
    match decode(word) {
        Some(instr) => text_of(alloc, instr, pc),
        None => format!(in alloc; ".word 0x{}", EightDigits(word)),
    }
}

// The text of an instruction at pc.
fn text_of(alloc: Global, instr: Instr, pc: u32) -> Result<String, AllocError>
    requires { InRange instr }
    ensures { IfOk result (λ text. string_bytes text ≡ text_of pc instr) }
{
    match instr {
        Instr::Lui { rd, imm } => with_upper(alloc, "lui", rd, imm),
        Instr::Auipc { rd, imm } => with_upper(alloc, "auipc", rd, imm),
        Instr::Jal { rd, imm } => jump(alloc, "jal", rd, pc.wrapping_add(imm)),
        Instr::Jalr { rd, rs1, imm } => with_address(alloc, "jalr", rd, rs1, imm.cast_signed()),
        Instr::Branch { op, rs1, rs2, imm } => {
            branch(alloc, branch_name(op), rs1, rs2, pc.wrapping_add(imm))
        }
        Instr::Load { op, rd, rs1, imm } => {
            with_address(alloc, load_name(op), rd, rs1, imm.cast_signed())
        }
        Instr::Store { op, rs1, rs2, imm } => {
            with_address(alloc, store_name(op), rs2, rs1, imm.cast_signed())
        }
        Instr::AluImm { op, rd, rs1, imm } => {
            with_number(alloc, alu_imm_name(op), rd, rs1, imm.cast_signed())
        }
        Instr::Alu { op, rd, rs1, rs2 } => with_registers(alloc, alu_name(op), rd, rs1, rs2),
        Instr::MulDiv { op, rd, rs1, rs2 } => {
            with_registers(alloc, muldiv_name(op), rd, rs1, rs2)
        }
        Instr::Fence { .. } => String::from_str(alloc, "fence"),
        Instr::Atomic {
            op,
            rd,
            rs1,
            rs2,
            ..
        } => atomic(alloc, op, rd, rs1, rs2),
        Instr::Ecall => String::from_str(alloc, "ecall"),
        Instr::Ebreak => String::from_str(alloc, "ebreak"),
    }
}

// A register and the upper 20 bits of a number.
fn with_upper(alloc: Global, name: &str, rd: u8, imm: u32) -> Result<String, AllocError>
    requires { rd < 32 }
    ensures { IfOk result (λ text. string_bytes text ≡ two name.now (register_name rd) (upper imm)) }
{
    let rd = register_name(rd);
    format!(in alloc; "{name} {rd}, 0x{:x}", imm / UPPER)
}

// A register, and the place that a jump goes to.
fn jump(alloc: Global, name: &str, rd: u8, place: u32) -> Result<String, AllocError>
    requires { rd < 32 }
    ensures { IfOk result (λ text. string_bytes text ≡ two name.now (register_name rd) (eight_digits place)) }
{
    let rd = register_name(rd);
    format!(in alloc; "{name} {rd}, {}", EightDigits(place))
}

// Two registers, and the place that a branch goes to.
fn branch(alloc: Global, name: &str, rs1: u8, rs2: u8, place: u32) -> Result<String, AllocError>
    requires one { rs1 < 32 }
    requires other { rs2 < 32 }
    ensures { IfOk result (λ text. string_bytes text ≡ three name.now (register_name rs1) (register_name rs2) (eight_digits place)) }
{
    let (rs1, rs2) = (register_name(rs1), register_name(rs2));
    format!(in alloc; "{name} {rs1}, {rs2}, {}", EightDigits(place))
}

// A register, and an address by another one and how far from there it is.
fn with_address(
    alloc: Global,
    name: &str,
    register: u8,
    rs1: u8,
    offset: i32,
) -> Result<String, AllocError>
    requires one { register < 32 }
    requires other { rs1 < 32 }
    ensures { IfOk result (λ text. string_bytes text ≡ two name.now (register_name register) (based rs1 offset)) }
{
    let (register, rs1) = (register_name(register), register_name(rs1));
    format!(in alloc; "{name} {register}, {offset}({rs1})")
}

// Two registers and a number.
fn with_number(
    alloc: Global,
    name: &str,
    rd: u8,
    rs1: u8,
    number: i32,
) -> Result<String, AllocError>
    requires one { rd < 32 }
    requires other { rs1 < 32 }
    ensures { IfOk result (λ text. string_bytes text ≡ three name.now (register_name rd) (register_name rs1) (signed_decimal number)) }
{
    let (rd, rs1) = (register_name(rd), register_name(rs1));
    format!(in alloc; "{name} {rd}, {rs1}, {number}")
}

// Three registers.
fn with_registers(alloc: Global, name: &str, rd: u8, rs1: u8, rs2: u8) -> Result<String, AllocError>
    requires one { rd < 32 }
    requires second { rs1 < 32 }
    requires third { rs2 < 32 }
    ensures { IfOk result (λ text. string_bytes text ≡ three name.now (register_name rd) (register_name rs1) (register_name rs2)) }
{
    let (rd, rs1, rs2) = (register_name(rd), register_name(rs1), register_name(rs2));
    format!(in alloc; "{name} {rd}, {rs1}, {rs2}")
}

// An atomic instruction.
fn atomic(alloc: Global, op: AtomicOp, rd: u8, rs1: u8, rs2: u8) -> Result<String, AllocError>
    requires rd { rd < 32 }
    requires rs1 { rs1 < 32 }
    requires rs2 { rs2 < 32 }
    ensures { IfOk result (λ text. string_bytes text ≡ atomic_text op rd rs1 rs2) }
{
    match op {
        AtomicOp::LoadReserved => pointing(alloc, atomic_name(op), rd, rs1),
        _ => two_pointing(alloc, atomic_name(op), rd, rs2, rs1),
    }
}

// A register, and one with an address.
fn pointing(alloc: Global, name: &str, rd: u8, rs1: u8) -> Result<String, AllocError>
    requires rd { rd < 32 }
    requires rs1 { rs1 < 32 }
    ensures { IfOk result (λ text. string_bytes text ≡ two name.now (register_name rd) (pointed rs1)) }
{
    let (rd, rs1) = (register_name(rd), register_name(rs1));
    format!(in alloc; "{name} {rd}, ({rs1})")
}

// Two registers, and one with an address.
fn two_pointing(alloc: Global, name: &str, rd: u8, rs2: u8, rs1: u8) -> Result<String, AllocError>
    requires rd { rd < 32 }
    requires rs2 { rs2 < 32 }
    requires rs1 { rs1 < 32 }
    ensures { IfOk result (λ text. string_bytes text ≡ three name.now (register_name rd) (register_name rs2) (pointed rs1)) }
{
    let (rd, rs2, rs1) = (register_name(rd), register_name(rs2), register_name(rs1));
    format!(in alloc; "{name} {rd}, {rs2}, ({rs1})")
}
