//! The numbers of a guest's machine and of its texts that more than one crate speaks of.
#![tactic(auto)]

/// How many bytes a page has.
pub const PAGE_SIZE: u32 = 4096;

/// How many words of four bytes a page has.
pub const PAGE_WORDS: usize = 1024;

/// How many pages all addresses have.
pub const PAGES: u32 = 1_048_576;

/// How many threads a program may make, its first among them; thread T has stack T.
pub const MOST_THREADS: u32 = 16;

/// How many bytes may be asked for at the end of the program's break.
pub const HEAP_SIZE: u32 = 0x10_0000;

/// Where the memory begins that a program is given on demand.
pub const MAPPED_START: u32 = 0x5000_0000;

/// How many pages a program is given on demand at most, and so how many ranges of them.
pub const MAPPED_PAGES: u32 = 4096;

/// Where the first thread's stack begins.
pub const FIRST_STACK: u32 = 0x7000_0000;

/// How far a thread's stack begins behind that of the thread before it.
pub const STACK_STEP: u32 = 0x2_0000;

/// How many bytes a stack has.
pub const STACK_SIZE: u32 = 0x1_0000;

/// How many votes in a row a thread may have while another one could go on.
pub const VOTES_IN_A_ROW: u32 = 64;

/// How many bytes one call reads or writes at most.
pub const MOST_BYTES: u32 = 4096;

/// The largest number of steps that a text spells.
pub const MOST_STEPS: u64 = 1_000_000_000_000;
