//! The header of a file.
ghost use Rattle.std.specs.Prelude.{◌≡◌, ◌≤◌, IfNone, length};
ghost use Rattle.std.specs.Option.{option_map};
ghost use Rattle.ro_elf.specs.Checks.{first_failing};
ghost use Rattle.ro_elf.specs.Errors.{number_of};
ghost use Rattle.ro_elf.specs.Header.{header_checks, has_version_one as version_one, has_header_sizes, holds_headers, HoldsHeaders, section_table_of};

use crate::errors::ExeError;
use crate::numbers::{half_at, word_at};

/// The size of the header, in bytes.
const HEADER_SIZE: usize = 52;

/// The size of a program header, in bytes.
pub(crate) const PROGRAM_HEADER_SIZE: usize = 32;

/// How many program headers a file may have.
pub(crate) const MOST_PROGRAM_HEADERS: usize = 32;

const MAGIC: [u8; 4] = [0x7F, b'E', b'L', b'F'];

// Where the fields of the header stand, by their names in ELF32.
const EI_CLASS: usize = 4;

const EI_DATA: usize = 5;

const EI_VERSION: usize = 6;

const E_TYPE: usize = 16;

const E_MACHINE: usize = 18;

const E_VERSION: usize = 20;

pub(crate) const E_ENTRY: usize = 24;

pub(crate) const E_PHOFF: usize = 28;

const E_SHOFF: usize = 32;

const E_FLAGS: usize = 36;

const E_PHENTSIZE: usize = 42;

pub(crate) const E_PHNUM: usize = 44;

const E_SHENTSIZE: usize = 46;

const E_SHNUM: usize = 48;

// The values that are accepted.
const ELFCLASS32: u8 = 1;

const ELFDATA2LSB: u8 = 1;

const EV_CURRENT: u8 = 1;

const ET_EXEC: u16 = 2;

const EM_RISCV: u16 = 243;

/// The flags of compressed code (1), of hard floats (2 and 4) and of RV32E (8) (RISC-V psABI).
const REFUSED_FLAGS: u32 = 0xF;

/// Where the section headers of a file stand: their offset in the file and the size of each in bytes, and how many
/// there are. None of it is checked.
#[derive(Clone, Copy, PartialEq, Eq, Debug, Default)]
pub struct SectionTable {
    pub offset: u32,
    pub entry_size: u16,
    pub count: u16,
}

// Where the section headers stand.
pub(crate) fn section_table(bytes: &[u8]) -> SectionTable
    requires { 52 ≤ length bytes.now }
    ensures { result ≡ section_table_of bytes.now }
{
    SectionTable {
        offset: word_at(bytes, E_SHOFF),
        entry_size: half_at(bytes, E_SHENTSIZE),
        count: half_at(bytes, E_SHNUM),
    }
}

// The first check of the header that the file fails.
pub(crate) fn bad_header(bytes: &[u8]) -> Option<ExeError>
    ensures first { option_map number_of result ≡ first_failing (header_checks bytes.now) }
    ensures whole { IfNone result (HoldsHeaders bytes.now) }
{
    if bytes.len() < HEADER_SIZE {
        Some(ExeError::Short)
    } else if !bytes.starts_with(&MAGIC) {
        Some(ExeError::Magic)
    } else if bytes[EI_CLASS] != ELFCLASS32 {
        Some(ExeError::Class)
    } else if bytes[EI_DATA] != ELFDATA2LSB {
        Some(ExeError::Encoding)
    } else if !has_version_one(bytes) {
        Some(ExeError::Version)
    } else if half_at(bytes, E_TYPE) != ET_EXEC {
        Some(ExeError::FileType)
    } else if half_at(bytes, E_MACHINE) != EM_RISCV {
        Some(ExeError::Machine)
    } else if word_at(bytes, E_FLAGS) & REFUSED_FLAGS != 0 {
        Some(ExeError::Flags)
    } else if !has_program_headers(bytes) {
        Some(ExeError::ProgramHeaders)
    } else if !holds_program_headers(bytes) {
        Some(ExeError::HeadersCut)
    } else {
        None
    }
}

// Whether both version fields are 1.
fn has_version_one(bytes: &[u8]) -> bool
    requires { 52 ≤ length bytes.now }
    ensures { result ≡ version_one bytes.now }
{
    bytes[EI_VERSION] == EV_CURRENT && word_at(bytes, E_VERSION) == u32::from(EV_CURRENT)
}

// Whether the program headers have their size, and 1 to 32 are there.
fn has_program_headers(bytes: &[u8]) -> bool
    requires { 52 ≤ length bytes.now }
    ensures { result ≡ has_header_sizes bytes.now }
{
    let count = half_at(bytes, E_PHNUM) as usize;
    half_at(bytes, E_PHENTSIZE) as usize == PROGRAM_HEADER_SIZE
        && count >= 1
        && count <= MOST_PROGRAM_HEADERS
}

// Whether the program headers lie in the file.
fn holds_program_headers(bytes: &[u8]) -> bool
    requires { 52 ≤ length bytes.now }
    ensures { result ≡ holds_headers bytes.now }
{
    let size = PROGRAM_HEADER_SIZE * half_at(bytes, E_PHNUM) as usize;
    word_at(bytes, E_PHOFF) as usize + size <= bytes.len()
}
