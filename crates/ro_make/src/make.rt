//! The file.
ghost use Rattle.std.specs.Prelude.{◌≡◌, ◌%◌, ◌<◌, ◌≤◌, ◌++◌, IfOk, OnOk, None, All, length, map, flat_map};
ghost use Rattle.ro_elf.specs.Elf.{bad_headers};
ghost use Rattle.ro_make.specs.Names.{named, word};
ghost use Rattle.ro_make.specs.Made.{program_of, file_of};

use crate::headers::{HEADERS, headers, section_headers};
use crate::names::{strings, symbols};
use ro_elf::SectionTable;
use std::alloc::{AllocError, Global};

const NO_SECTIONS: SectionTable = SectionTable {
    offset: 0,
    entry_size: 0,
    count: 0,
};

/// The executable made of words, the first of which is its entry: an ELF32 file for RISC-V. Its one segment is the file's
/// headers and the words, at the address 0x10000, and may be read (4), written (2) and executed (1) as the flags say. Where
/// functions are named, a symbol table gives each its address.
pub fn image_bytes(
    alloc: Global,
    words: &[u32],
    flags: u32,
    names: &[(&str, u32)],
) -> Result<Vec<u8>, AllocError>
    requires words { length words.now ≤ 65536 }
    requires names { length names.now ≤ 65536 }
    requires short { All (λ name. length name.0.now ≤ 64) names.now }
    ensures made { IfOk result (λ file. file.items ≡ file_of words.now flags (map (λ name. named name.0.now name.1) names.now)) }

    // Such a file is accepted, where it has words and may be executed.
    ensures accepted { IfOk result (λ file. 0 < length words.now → flags % 2 ≡ 1 → bad_headers file.items ≡ None) }
{
    file_bytes(alloc, words, flags, names)
}

// The headers and the words, and where functions are named, the symbols, their strings and the section headers.
fn file_bytes(
    alloc: Global,
    words: &[u32],
    flags: u32,
    names: &[(&str, u32)],
) -> Result<Vec<u8>, AllocError>
    requires words { length words.now ≤ 65536 }
    requires names { length names.now ≤ 65536 }
    requires short { All (λ name. length name.0.now ≤ 64) names.now }
    ensures { IfOk result (λ file. file.items ≡ file_of words.now flags (map (λ name. named name.0.now name.1) names.now)) }
{
    if names.is_empty() {
        return program(alloc, words, flags, NO_SECTIONS);
    }
    let symbols = symbols(alloc, names)?;
    let strings = strings(alloc, names)?;
    let place = (HEADERS + 4 * words.len()) as u32;
    let symbols_size = symbols.len() as u32;
    let strings_size = strings.len() as u32;
    let sections = SectionTable {
        offset: place + symbols_size + strings_size,
        entry_size: 40,
        count: 3,
    };
    let mut file = program(alloc, words, flags, sections)?;
    file.extend_from_slice(symbols.as_slice())?;
    file.extend_from_slice(strings.as_slice())?;
    file.extend_from_slice(&section_headers(place, symbols_size, strings_size))?;
    Ok(file)
}

// The headers and the words.
fn program(
    alloc: Global,
    words: &[u32],
    flags: u32,
    sections: SectionTable,
) -> Result<Vec<u8>, AllocError>
    requires { length words.now ≤ 65536 }
    ensures { IfOk result (λ file. file.items ≡ program_of words.now flags sections) }
{
    let size = HEADERS + 4 * words.len();
    let mut file = Vec::with_capacity(alloc, size)?;
    file.extend_from_slice(&headers(size as u32, flags, sections))?;
    push_words(&mut file, words)?;
    Ok(file)
}

// Words at the end, the lowest byte of each first.
fn push_words(file: &mut Vec<u8>, words: &[u32]) -> Result<(), AllocError>
    ensures { OnOk result (file.new.items ≡ file.old.items ++ flat_map word words.now) }
{
    for word in words {
        file.extend_from_slice(&word.to_le_bytes())?;
    }
    Ok(())
}
