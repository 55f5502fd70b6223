//! The headers of a made file.
ghost use Rattle.std.specs.Prelude.{◌≡◌, ◌+◌, ◌^◌, ◌<◌};
ghost use Rattle.ro_make.specs.Made.{headers_of, section_headers_of};

use ro_elf::SectionTable;

/// The size of the file's header and its only program header, in bytes.
pub(crate) const HEADERS: usize = 84;

/// The size of three section headers, in bytes.
const SECTIONS: usize = 120;

// The headers of a file with a segment of that size and those flags.
#[tactic(auto, unfolding(crate::specs::Made::headers_of))]
pub(crate) fn headers(size: u32, flags: u32, sections: SectionTable) -> [u8; HEADERS]
    ensures { result ≡ headers_of size flags sections }
{
    let [a, b, c, d] = size.to_le_bytes();
    let [e, f, g, h] = flags.to_le_bytes();
    let [i, j, k, l] = sections.offset.to_le_bytes();
    let [m, n] = sections.entry_size.to_le_bytes();
    let [o, p] = sections.count.to_le_bytes();
    [
        0x7F, 0x45, 0x4C, 0x46, 1, 1, 1, 0, 0, 0, 0, 0, 0, 0, 0, 0, // identification
        2, 0, 243, 0, 1, 0, 0, 0, // an executable for RISC-V
        0x54, 0x00, 0x01, 0x00, 52, 0, 0, 0, i, j, k, l, 0, 0, 0, 0, // entry, program and section headers, flags
        52, 0, 32, 0, 1, 0, m, n, o, p, 0, 0, // sizes and numbers of headers
        1, 0, 0, 0, 0, 0, 0, 0, 0, 0, 1, 0, 0, 0, 1, 0, // loads the file at its addresses
        a, b, c, d, a, b, c, d, e, f, g, h, 0, 16, 0, 0, // its sizes, flags and alignment
    ]
}

// The section headers of symbols that stand at a place, with their strings behind them; the sizes are in bytes.
#[tactic(auto, unfolding(crate::specs::Made::section_headers_of))]
pub(crate) fn section_headers(place: u32, symbols: u32, strings: u32) -> [u8; SECTIONS]
    requires { place + symbols < 2 ^ 32 }
    ensures { result ≡ section_headers_of place symbols strings }
{
    let [a, b, c, d] = place.to_le_bytes();
    let [e, f, g, h] = symbols.to_le_bytes();
    let [i, j, k, l] = (place + symbols).to_le_bytes();
    let [m, n, o, p] = strings.to_le_bytes();
    [
        0, 0, 0, 0, 0, 0, 0, 0, 0, 0, 0, 0, 0, 0, 0, 0, 0, 0, 0, 0, 0, 0, 0, 0, 0, 0, 0, 0, 0, 0,
        0, 0, 0, 0, 0, 0, 0, 0, 0, 0, // none
        0, 0, 0, 0, 2, 0, 0, 0, 0, 0, 0, 0, 0, 0, 0, 0, a, b, c, d, // symbols: type and offset
        e, f, g, h, 2, 0, 0, 0, 1, 0, 0, 0, 4, 0, 0, 0, 16, 0, 0, 0, // size, strings, first global, alignment, size of each
        0, 0, 0, 0, 3, 0, 0, 0, 0, 0, 0, 0, 0, 0, 0, 0, i, j, k, l, // strings: type and offset
        m, n, o, p, 0, 0, 0, 0, 0, 0, 0, 0, 1, 0, 0, 0, 0, 0, 0, 0, // size and alignment
    ]
}
