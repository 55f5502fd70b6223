//! Reading an executable file in full.
ghost use Rattle.std.specs.Prelude.{◌≡◌, IfOk, IfErr, None, All};
ghost use Rattle.ro_image.specs.Image.{LiesLow, AreSegments, segments_in};
ghost use Rattle.ro_image.specs.Pieces.{pieces_in};
ghost use Rattle.ro_image.specs.Executable.{bad_code, image_of, Refuses};

use crate::errors::ImageError;
use crate::layout::{DATA_RANGES, heap_start, program_ranges};
use crate::pieces::{FilePiece, file_pieces};
use ro_elf::read_elf;
use ro_event::CallTable;
use ro_region::Range;
use ro_sym::calls;
use std::alloc::Global;
use std::marker::Model;

/// What an executable says of the machine at its opening: the bytes that the file has, the ranges that are permitted, the
/// addresses of the functions of POSIX threads, the first instruction, and where the heap starts.
#[derive(Drop)]
pub struct Executable {
    pieces: Vec<FilePiece>,
    ranges: Vec<Range>,
    calls: CallTable,
    entry: u32,
    heap: u32,
}

impl Model for Executable {
    ghost use Rattle.std.specs.Prelude.{All};
    ghost use Rattle.ro_image.specs.Image.{Image, LiesLow, HasSegments};
    ghost use Rattle.ro_image.specs.Pieces.{pieces_in};

    ghost Value = { Image };

    ghost view = { λ e. record { pieces = pieces_in e.pieces.items; ranges = e.ranges.items; calls = e.calls; entry = e.entry; heap = e.heap } };

    ghost invariant = { λ e. All LiesLow (pieces_in e.pieces.items) × HasSegments e.ranges.items };
}

impl Executable {
    /// The bytes that the file has of the segments, in the order of their headers.
    pub fn pieces(&self) -> &[FilePiece]
        ensures pieces { pieces_in result.now ≡ self.now.pieces }
        ensures low { All LiesLow self.now.pieces }
    {
        self.pieces.as_slice()
    }

    /// The permitted ranges: the segments, the heap and the stacks.
    pub fn ranges(&self) -> &[Range]
        ensures { result.now ≡ self.now.ranges }
    {
        self.ranges.as_slice()
    }

    /// The ranges of the segments alone, in the order of their headers: 1 byte to 4 MiB together.
    pub fn segments(&self) -> &[Range]
        ensures segments { result.now ≡ segments_in self.now.ranges }
        ensures bounded { AreSegments result.now }
    {
        let ranges = self.ranges.as_slice();
        &ranges[..ranges.len() - DATA_RANGES]
    }

    /// The addresses of the functions of POSIX threads.
    pub fn calls(&self) -> &CallTable
        ensures { result.now ≡ self.now.calls }
    {
        &self.calls
    }

    /// The address of the first instruction.
    pub fn entry(&self) -> u32
        ensures { result ≡ self.now.entry }
    {
        self.entry
    }

    /// The first address of the heap.
    pub fn heap(&self) -> u32
        ensures { result ≡ self.now.heap }
    {
        self.heap
    }
}

/// Reads an ELF32 executable for RISC-V: its image, or the first check that it fails.
///
/// # Errors
/// `Bad` exactly where the file isn't accepted, and `NoMemory` where there is no memory for the
/// image.
pub fn read_executable(alloc: Global, bytes: &[u8]) -> Result<Executable, ImageError>
    ensures accepted { IfOk result (λ image. bad_code bytes.now ≡ None) }
    ensures read { IfOk result (λ image. image ≡ image_of bytes.now) }
    ensures refused { IfErr result (Refuses bytes.now) }
{
    let elf = read_elf(bytes)?;
    let calls = calls(bytes, &elf)?;
    let heap = heap_start(elf.segments());
    let pieces = file_pieces(alloc, bytes, elf.segments())?;
    let ranges = program_ranges(alloc, elf.segments(), heap)?;
    Ok(Executable {
        pieces,
        ranges,
        calls,
        entry: elf.entry(),
        heap,
    })
}
