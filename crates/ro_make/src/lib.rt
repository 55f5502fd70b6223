//! Executables made of words: ELF32 files for RISC-V with one segment, which begins with the file's own headers.
#![tactic(auto)]

mod bench;
mod headers;
mod make;
mod names;

pub use bench::bench_image;
pub use make::image_bytes;
