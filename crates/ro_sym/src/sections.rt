//! Sections: which holds the symbols, and which their names.
ghost use Rattle.std.specs.Prelude.{◌≡◌, ◌+◌, ◌*◌, ◌≤◌, IfOk, IfErr, Ok, Err, length, map, find};
ghost use Rattle.ro_elf.specs.Errors.{number_of};
ghost use Rattle.ro_sym.specs.Sections.{section_in, holds_sections as holds_headers, section_headers, is_symbol_table, is_strings, is_held, content_of, holds_symbols as holds_table, symbols_with, symbols_among as among, symbols_of};

use ro_elf::{ExeError, SectionTable, word_at};

/// The size of a section header, in bytes.
const HEADER_SIZE: usize = 40;

/// The size of a symbol, in bytes.
pub(crate) const SYMBOL_SIZE: usize = 16;

// Where the fields of a section header stand, by their names in ELF32.
const SH_TYPE: usize = 4;

const SH_OFFSET: usize = 16;

const SH_SIZE: usize = 20;

const SH_LINK: usize = 24;

// The types of sections that are looked at.
const SHT_SYMTAB: u32 = 2;

const SHT_STRTAB: u32 = 3;

/// A section header: its type, where its bytes stand in the file and how many there are, and the number of the section
/// that it is linked to.
#[derive(Clone, Copy, PartialEq, Eq, Debug)]
pub(crate) struct Section {
    pub(crate) kind: u32,
    pub(crate) offset: u32,
    pub(crate) size: u32,
    pub(crate) link: u32,
}

/// The symbols of a file, and the bytes that their names stand in.
#[derive(Clone, Copy)]
pub(crate) struct SymbolTable<'a> {
    pub(crate) symbols: &'a [[u8; SYMBOL_SIZE]],
    pub(crate) strings: &'a [u8],
}

impl Section {
    // The section header that 40 bytes spell.
    #[tactic(auto, unfolding(crate::specs::Sections::section_in))]
    fn from_header(header: &[u8; HEADER_SIZE]) -> Self
        ensures { result ≡ section_in header.now }
    {
        Section {
            kind: word_at(header, SH_TYPE),
            offset: word_at(header, SH_OFFSET),
            size: word_at(header, SH_SIZE),
            link: word_at(header, SH_LINK),
        }
    }

    fn has_symbols(&self) -> bool
        ensures { result ≡ is_symbol_table self.now }
    {
        self.kind == SHT_SYMTAB
    }

    fn has_strings(&self) -> bool
        ensures { result ≡ is_strings self.now }
    {
        self.kind == SHT_STRTAB
    }

    // Whether its bytes lie in the file.
    fn lies_in(&self, bytes: &[u8]) -> bool
        ensures { result ≡ is_held bytes.now self.now }
    {
        self.offset as usize + self.size as usize <= bytes.len()
    }

    // Its bytes.
    fn content<'a>(&self, bytes: &'a [u8]) -> &'a [u8]
        requires { self.now.offset + self.now.size ≤ length bytes.now }
        ensures { result.now ≡ content_of bytes.now self.now }
    {
        let start = self.offset as usize;
        &bytes[start..start + self.size as usize]
    }
}

/// The symbols of a file, and the bytes that their names stand in: those of its first symbol table.
///
/// # Errors
/// `Symbols`, where the section headers, the symbols or their strings aren't as they must be (ELF32).
pub(crate) fn find_symbols(bytes: &[u8], table: SectionTable) -> Result<SymbolTable<'_>, ExeError>
    ensures found { IfOk result (λ f. symbols_of bytes.now table ≡ Ok (record { symbols = f.symbols.now; strings = f.strings.now })) }
    ensures refused { IfErr result (λ error. symbols_of bytes.now table ≡ Err (number_of error)) }
{
    if table.offset == 0 || table.count == 0 {
        return Ok(SymbolTable {
            symbols: &[],
            strings: &[],
        });
    }
    if !holds_sections(bytes, table) {
        return Err(ExeError::Symbols);
    }
    symbols_among(bytes, headers_of(bytes, table))
}

// Whether the section headers have their size and lie in the file.
fn holds_sections(bytes: &[u8], table: SectionTable) -> bool
    ensures { result ≡ holds_headers bytes.now table }
{
    table.entry_size as usize == HEADER_SIZE
        && table.offset as usize + HEADER_SIZE * table.count as usize <= bytes.len()
}

// The section headers.
fn headers_of(bytes: &[u8], table: SectionTable) -> &[[u8; HEADER_SIZE]]
    requires { table.offset + 40 * table.count ≤ length bytes.now }
    ensures { result.now ≡ section_headers bytes.now table }
{
    let start = table.offset as usize;
    let (headers, _) = bytes[start..start + HEADER_SIZE * table.count as usize].as_chunks();
    headers
}

// The first symbol table among section headers.
fn find_symbol_table(headers: &[[u8; HEADER_SIZE]]) -> Option<Section>
    ensures { result ≡ find is_symbol_table (map section_in headers.now) }
{
    headers
        .iter()
        .map(|header| Section::from_header(header))
        .find(|section| section.has_symbols())
}

// The symbols of the first symbol table among section headers.
fn symbols_among<'a>(
    bytes: &'a [u8],
    headers: &[[u8; HEADER_SIZE]],
) -> Result<SymbolTable<'a>, ExeError>
    ensures found { IfOk result (λ f. among bytes.now headers.now ≡ Ok (record { symbols = f.symbols.now; strings = f.strings.now })) }
    ensures refused { IfErr result (λ error. among bytes.now headers.now ≡ Err (number_of error)) }
{
    let Some(symbols) = find_symbol_table(headers) else {
        return Ok(SymbolTable {
            symbols: &[],
            strings: &[],
        });
    };
    if !holds_symbols(bytes, headers.len(), symbols) {
        return Err(ExeError::Symbols);
    }
    symbols_in(
        bytes,
        symbols,
        Section::from_header(&headers[symbols.link as usize]),
    )
}

// Whether symbols lie in the file, each whole, and name a section for their strings.
fn holds_symbols(bytes: &[u8], count: usize, symbols: Section) -> bool
    ensures { result ≡ holds_table bytes.now count symbols }
{
    symbols.lies_in(bytes)
        && symbols.size as usize % SYMBOL_SIZE == 0
        && (symbols.link as usize) < count
}

// The symbols of a symbol table with their strings.
fn symbols_in<'a>(
    bytes: &'a [u8],
    symbols: Section,
    strings: Section,
) -> Result<SymbolTable<'a>, ExeError>
    requires { symbols.offset + symbols.size ≤ length bytes.now }
    ensures found { IfOk result (λ f. symbols_with bytes.now symbols strings ≡ Ok (record { symbols = f.symbols.now; strings = f.strings.now })) }
    ensures refused { IfErr result (λ error. symbols_with bytes.now symbols strings ≡ Err (number_of error)) }
{
    if !strings.has_strings() || !strings.lies_in(bytes) {
        return Err(ExeError::Symbols);
    }
    let (symbols, _) = symbols.content(bytes).as_chunks();
    Ok(SymbolTable {
        symbols,
        strings: strings.content(bytes),
    })
}
