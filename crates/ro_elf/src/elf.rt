//! Reading the headers of a file.
ghost use Rattle.std.specs.Prelude.{◌≡◌, ◌<◌, ◌≤◌, IfOk, IfErr, Some, None, All, AllPairs, length};
ghost use Rattle.ro_elf.specs.Errors.{number_of};
ghost use Rattle.ro_elf.specs.Elf.{memory_of, bad_headers, elf_of, IsLoaded, SharesNone};

use crate::errors::ExeError;
use crate::header::{
    E_ENTRY, E_PHNUM, E_PHOFF, MOST_PROGRAM_HEADERS, SectionTable, bad_header, section_table,
};
use crate::numbers::{half_at, word_at};
use crate::segments::{Segment, bad_segments, headers_at, segments_in};
use arrayvec::ArrayVec;
use std::marker::Model;

/// How many segments an executable may have.
pub const MOST_SEGMENTS: usize = MOST_PROGRAM_HEADERS;

/// What the headers of an accepted executable say.
#[derive(Drop)]
pub struct Elf {
    entry: u32,
    sections: SectionTable,
    segments: ArrayVec<Segment, MOST_SEGMENTS>,
}

impl Model for Elf {
    ghost use Rattle.ro_elf.specs.Elf.{Elf as ElfOf};

    ghost Value = { ElfOf };

    ghost view = { λ e. record { entry = e.entry; sections = e.sections; segments = e.segments.items } };
}

impl Elf {
    /// The address of the first instruction.
    pub fn entry(&self) -> u32
        ensures { result ≡ self.now.entry }
    {
        self.entry
    }

    /// Where the section headers stand; they aren't checked.
    pub fn sections(&self) -> SectionTable
        ensures { result ≡ self.now.sections }
    {
        self.sections
    }

    /// The segments, in the order of their program headers.
    pub fn segments(&self) -> &[Segment]
        ensures { result.now ≡ self.now.segments }
    {
        self.segments.as_slice()
    }
}

/// Reads the headers of an ELF32 executable for RISC-V without compressed instructions, hard floats or RV32E, statically
/// linked (ELF32; RISC-V psABI). Section headers aren't looked at.
///
/// # Errors
/// The first check that the file fails, of those with the numbers 1 to 15, exactly where it fails one.
pub fn read_elf(bytes: &[u8]) -> Result<Elf, ExeError>
    ensures accepted { IfOk result (λ elf. bad_headers bytes.now ≡ None) }
    ensures read { IfOk result (λ elf. elf ≡ elf_of bytes.now) }
    ensures refused { IfErr result (λ error. bad_headers bytes.now ≡ Some (number_of error)) }

    // Each segment has its bytes in the file, and its place in memory, which is its own.
    ensures loaded { IfOk result (λ elf. All (IsLoaded (length bytes.now)) elf.segments) }
    ensures apart { IfOk result (λ elf. AllPairs SharesNone elf.segments) }

    // They have 1 byte to 4 MiB of memory together.
    ensures some { IfOk result (λ elf. 0 < memory_of elf.segments) }
    ensures few { IfOk result (λ elf. memory_of elf.segments ≤ 4194304) }
{
    if let Some(error) = bad_header(bytes) {
        return Err(error);
    }
    let headers = headers_at(
        bytes,
        word_at(bytes, E_PHOFF) as usize,
        half_at(bytes, E_PHNUM) as usize,
    );
    let segments = segments_in(headers.as_slice());
    let entry = word_at(bytes, E_ENTRY);
    match bad_segments(
        bytes.len() as u64,
        entry,
        headers.as_slice(),
        segments.as_slice(),
    ) {
        Some(error) => Err(error),
        None => Ok(Elf {
            entry,
            sections: section_table(bytes),
            segments,
        }),
    }
}
