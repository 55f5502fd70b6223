//! Program headers and the segments that they load.
ghost use Rattle.std.specs.Prelude.{◌≡◌, ◌+◌, ◌*◌, ◌^◌, ◌≤◌, ◌<◌, length, sum_by};
ghost use Rattle.std.specs.List.{list_all};
ghost use Rattle.std.specs.Option.{option_map};
ghost use Rattle.ro_elf.specs.Checks.{first_failing};
ghost use Rattle.ro_elf.specs.Errors.{number_of};
ghost use Rattle.ro_elf.specs.Segments.{header_in, headers_from, is_static, is_load, has_bytes, loaded_size, is_segment, segment_of, segments_of, end_of, is_within, is_apart, are_apart, lie_among, executes_at, executes, starts_at, fits_memory, segment_checks};

use crate::errors::ExeError;
use crate::header::{MOST_PROGRAM_HEADERS, PROGRAM_HEADER_SIZE};
use crate::numbers::word_at;
use arrayvec::ArrayVec;

/// The addresses of programs: the first, and the first behind them.
const LOWEST: u64 = 0x0001_0000;

const HIGHEST: u64 = 0x4000_0000;

/// How many bytes of memory a program's segments may take.
const MOST_BYTES: u64 = 4_194_304;

// Where the fields of a program header stand, by their names in ELF32.
const P_OFFSET: usize = 4;

const P_VADDR: usize = 8;

const P_FILESZ: usize = 16;

const P_MEMSZ: usize = 20;

const P_FLAGS: usize = 24;

// The types of program headers that are looked at.
const PT_LOAD: u32 = 1;

const PT_DYNAMIC: u32 = 2;

const PT_INTERP: u32 = 3;

const PT_TLS: u32 = 7;

/// A segment's bytes may be executed.
const PF_X: u32 = 1;

/// A segment's bytes may be written.
const PF_W: u32 = 2;

/// A segment's bytes may be read.
const PF_R: u32 = 4;

/// A program header: its type, where its bytes stand in the file and how many there are, where they go in memory and how
/// many bytes they take there, and its flags.
#[derive(Clone, Copy, PartialEq, Eq, Debug, Default)]
pub(crate) struct ProgramHeader {
    pub(crate) kind: u32,
    pub(crate) offset: u32,
    pub(crate) address: u32,
    pub(crate) file_size: u32,
    pub(crate) memory_size: u32,
    pub(crate) flags: u32,
}

impl ProgramHeader {
    // Whether it asks for no dynamic linking, no interpreter and no thread-local data.
    fn has_static_type(&self) -> bool
        ensures { result ≡ is_static self.now }
    {
        !matches!(self.kind, PT_DYNAMIC | PT_INTERP | PT_TLS)
    }

    // Whether it loads a segment.
    fn loads(&self) -> bool
        ensures { result ≡ is_load self.now }
    {
        self.kind == PT_LOAD
    }

    // Whether the bytes that it loads lie in a file of so many bytes, and in its memory.
    fn finds_bytes(&self, size: u64) -> bool
        ensures { result ≡ has_bytes size self.now }
    {
        if self.loads() {
            u64::from(self.offset) + u64::from(self.file_size) <= size
                && self.file_size <= self.memory_size
        } else {
            true
        }
    }

    // How many bytes of memory it takes.
    fn taken_size(&self) -> u64
        ensures size { result ≡ loaded_size self.now }
        ensures fits { result < 2 ^ 32 }
    {
        if self.loads() {
            u64::from(self.memory_size)
        } else {
            0
        }
    }

    // Whether it gives a segment.
    fn gives_segment(&self) -> bool
        ensures { result ≡ is_segment self.now }
    {
        self.loads() && self.memory_size > 0
    }

    // The segment that it gives.
    fn segment(&self) -> Segment
        ensures { result ≡ segment_of self.now }
    {
        Segment {
            offset: self.offset,
            address: self.address,
            file_size: self.file_size,
            memory_size: self.memory_size,
            flags: self.flags,
        }
    }
}

/// A segment of the program: `file_size` bytes from `offset` on of the file go to `address`, and zeros behind them, up to
/// `memory_size` bytes in all. Of the flags 1 lets its bytes be executed, 2 written and 4 read.
#[derive(Clone, Copy, PartialEq, Eq, Debug, Default)]
pub struct Segment {
    pub offset: u32,
    pub address: u32,
    pub file_size: u32,
    pub memory_size: u32,
    pub flags: u32,
}

impl Segment {
    ghost use Rattle.ro_elf.specs.Segments.{is_readable as readable, is_writable as writable, is_executable as executable};

    /// Whether its bytes may be read.
    #[tactic(auto, using(crate::proofs::Flags::flag_4))]
    pub fn is_readable(&self) -> bool
        ensures { result ≡ readable self.now }
    {
        self.flags & PF_R == PF_R
    }

    /// Whether its bytes may be written.
    #[tactic(auto, using(crate::proofs::Flags::flag_2))]
    pub fn is_writable(&self) -> bool
        ensures { result ≡ writable self.now }
    {
        self.flags & PF_W == PF_W
    }

    /// Whether its bytes may be executed.
    pub fn is_executable(&self) -> bool
        ensures { result ≡ executable self.now }
    {
        self.flags & PF_X == PF_X
    }

    // The first address behind it.
    fn end(&self) -> u64
        ensures { result ≡ end_of self.now }
    {
        u64::from(self.address) + u64::from(self.memory_size)
    }

    // Whether it lies among the addresses of programs.
    fn lies_within(&self) -> bool
        ensures { result ≡ is_within self.now }
    {
        LOWEST <= u64::from(self.address) && self.end() <= HIGHEST
    }

    // Whether it ends before the other starts, or the other before it.
    fn lies_apart(&self, other: &Segment) -> bool
        ensures { result ≡ is_apart self.now other.now }
    {
        self.end() <= u64::from(other.address) || other.end() <= u64::from(self.address)
    }

    // Whether it lies apart from each of the others.
    fn lies_apart_from(&self, others: &[Segment]) -> bool
        ensures { result ≡ list_all (is_apart self.now) others.now }
    {
        others.iter().all(|other| self.lies_apart(other))
    }

    // Whether the byte at an address is one of its own and may be executed.
    fn executes_byte(&self, address: u64) -> bool
        ensures { result ≡ executes_at address self.now }
    {
        u64::from(self.address) <= address && address < self.end() && self.is_executable()
    }
}

// The program header at an offset.
#[tactic(auto, unfolding(crate::specs::Segments::header_in))]
fn header_at(bytes: &[u8], offset: usize) -> ProgramHeader
    requires { offset + 32 ≤ length bytes.now }
    ensures { result ≡ header_in bytes.now offset }
{
    ProgramHeader {
        kind: word_at(bytes, offset),
        offset: word_at(bytes, offset + P_OFFSET),
        address: word_at(bytes, offset + P_VADDR),
        file_size: word_at(bytes, offset + P_FILESZ),
        memory_size: word_at(bytes, offset + P_MEMSZ),
        flags: word_at(bytes, offset + P_FLAGS),
    }
}

// So many program headers from an offset on.
pub(crate) fn headers_at(
    bytes: &[u8],
    offset: usize,
    count: usize,
) -> ArrayVec<ProgramHeader, MOST_PROGRAM_HEADERS>
    requires few { count ≤ 32 }
    requires within { offset + 32 * count ≤ length bytes.now }
    ensures { result.items ≡ headers_from bytes.now offset count }
{
    let mut headers = ArrayVec::new();
    for i in 0..count {
        headers.push(header_at(bytes, offset + PROGRAM_HEADER_SIZE * i));
    }
    headers
}

// The segments that program headers give.
pub(crate) fn segments_in(headers: &[ProgramHeader]) -> ArrayVec<Segment, MOST_PROGRAM_HEADERS>
    requires { length headers.now ≤ 32 }
    ensures { result.items ≡ segments_of headers.now }
{
    let mut segments = ArrayVec::new();
    for header in headers {
        if header.gives_segment() {
            segments.push(header.segment());
        }
    }
    segments
}

// The first check of the program headers that a file of so many bytes fails.
pub(crate) fn bad_segments(
    size: u64,
    entry: u32,
    headers: &[ProgramHeader],
    segments: &[Segment],
) -> Option<ExeError>
    requires few { length headers.now ≤ 32 }
    requires given { segments.now ≡ segments_of headers.now }
    ensures { option_map number_of result ≡ first_failing (segment_checks size entry headers.now) }
{
    if !need_no_linker(headers) {
        Some(ExeError::Dynamic)
    } else if !find_bytes(headers, size) {
        Some(ExeError::SegmentCut)
    } else if !lie_well(segments) {
        Some(ExeError::Addresses)
    } else if !can_start(segments, entry) {
        Some(ExeError::Entry)
    } else if !fit_memory(headers) {
        Some(ExeError::Memory)
    } else {
        None
    }
}

// Whether no program header asks for more than to be loaded.
fn need_no_linker(headers: &[ProgramHeader]) -> bool
    ensures { result ≡ list_all is_static headers.now }
{
    headers.iter().all(|header| header.has_static_type())
}

// Whether the bytes that program headers load lie in a file of so many bytes, and in their memory.
fn find_bytes(headers: &[ProgramHeader], size: u64) -> bool
    ensures { result ≡ list_all (has_bytes size) headers.now }
{
    headers.iter().all(|header| header.finds_bytes(size))
}

// Whether program headers take as much memory as they may.
fn fit_memory(headers: &[ProgramHeader]) -> bool
    requires { length headers.now ≤ 32 }
    ensures { result ≡ fits_memory headers.now }
{
    size_of_all(headers) <= MOST_BYTES
}

// How many bytes of memory program headers take.
fn size_of_all(headers: &[ProgramHeader]) -> u64
    requires { length headers.now ≤ 32 }
    ensures { result ≡ sum_by loaded_size headers.now }
{
    headers.iter().map(|header| header.taken_size()).sum()
}

// Whether segments lie among the addresses of programs and share no byte.
fn lie_well(segments: &[Segment]) -> bool
    ensures { result ≡ lie_among segments.now }
{
    lie_within(segments) && lie_apart(segments)
}

// Whether segments lie among the addresses of programs.
fn lie_within(segments: &[Segment]) -> bool
    ensures { result ≡ list_all is_within segments.now }
{
    segments.iter().all(|segment| segment.lies_within())
}

// Whether no two segments share a byte.
fn lie_apart(segments: &[Segment]) -> bool
    ensures { result ≡ are_apart segments.now }
{
    for i in 0..segments.len() {
        if !segments[i].lies_apart_from(&segments[i + 1..]) {
            return false;
        }
    }
    true
}

// Whether the byte at an address may be executed.
fn executes_byte(segments: &[Segment], address: u64) -> bool
    ensures { result ≡ executes segments.now address }
{
    segments
        .iter()
        .any(|segment| segment.executes_byte(address))
}

// Whether a word may be executed at the entry.
fn can_start(segments: &[Segment], entry: u32) -> bool
    ensures { result ≡ starts_at segments.now entry }
{
    let entry = u64::from(entry);
    entry % 4 == 0
        && executes_byte(segments, entry)
        && executes_byte(segments, entry + 1)
        && executes_byte(segments, entry + 2)
        && executes_byte(segments, entry + 3)
}
