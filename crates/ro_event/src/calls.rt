//! The calls of a thread, and all else that it asks the kernel to do.

use crate::functions::Function;

/// Which call a thread makes: an atomic instruction is one too, since the kernel does it.
#[derive(Clone, Copy, PartialEq, Eq, Debug)]
pub enum Which {
    /// The system call of this number, by ECALL.
    System(u32),
    /// A function of POSIX threads, at its address.
    Function(Function),
    /// The atomic instruction that this word spells.
    Atomic(u32),
}

/// A call with its arguments, the registers a0 to a3. Of an atomic instruction they are the address, the operand and, where it is
/// served, the word that stands at the address.
#[derive(Clone, Copy, PartialEq, Eq, Debug)]
pub struct Call {
    pub which: Which,
    pub a0: u32,
    pub a1: u32,
    pub a2: u32,
    pub a3: u32,
}
