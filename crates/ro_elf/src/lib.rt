//! The headers of an ELF32 executable for RISC-V: its entry, the segments that it loads and where its sections stand,
//! or the first check that the file fails. Nothing here takes memory.
#![tactic(auto)]

mod elf;
mod errors;
mod header;
mod numbers;
mod segments;

pub use elf::{Elf, MOST_SEGMENTS, read_elf};
pub use errors::ExeError;
pub use header::SectionTable;
pub use numbers::{half_at, word_at};
pub use segments::Segment;
