//! The bytes that a file has of its segments.
ghost use Rattle.std.specs.Prelude.{◌≡◌, IfOk, All, length, map};
ghost use Rattle.ro_elf.specs.Elf.{IsLoaded};
ghost use Rattle.ro_image.specs.Pieces.{pieces_in};
ghost use Rattle.ro_image.specs.Executable.{piece_in};

use ro_elf::Segment;
use std::alloc::{AllocError, Global};

/// The bytes that a file has of a segment, which may be none, and their place in memory.
#[derive(Drop)]
pub struct FilePiece {
    pub place: u32,
    pub bytes: Vec<u8>,
}

// The bytes that a file has of its segments.
pub(crate) fn file_pieces(
    alloc: Global,
    bytes: &[u8],
    segments: &[Segment],
) -> Result<Vec<FilePiece>, AllocError>
    requires { All (IsLoaded (length bytes.now)) segments.now }
    ensures { IfOk result (λ pieces. pieces_in pieces.items ≡ map (piece_in bytes.now) segments.now) }
{
    let mut pieces = Vec::with_capacity(alloc, segments.len())?;
    for segment in segments {
        let start = segment.offset as usize;
        let end = start + segment.file_size as usize;
        let bytes = Vec::from_slice(alloc, &bytes[start..end])?;
        pieces.push(FilePiece {
            place: segment.address,
            bytes,
        })?;
    }
    Ok(pieces)
}
