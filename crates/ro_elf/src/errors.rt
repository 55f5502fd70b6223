//! Why a file is no executable that is accepted.

/// The first check that a file fails. Each has a number, by which the file is refused.
#[derive(Clone, Copy, Debug, PartialEq, Eq)]
pub enum ExeError {
    /// It has fewer bytes than the header.
    Short,
    /// It doesn't begin as an ELF file does.
    Magic,
    /// It isn't for 32 bits.
    Class,
    /// It isn't little endian.
    Encoding,
    /// It has another version than 1.
    Version,
    /// It isn't an executable for fixed addresses.
    FileType,
    /// It isn't for RISC-V.
    Machine,
    /// By its flags it has compressed code, floating-point arguments or 16 registers.
    Flags,
    /// It has no program headers, too many, or of another size.
    ProgramHeaders,
    /// It ends before its program headers do.
    HeadersCut,
    /// It wants a dynamic linker or an interpreter, or has thread-local data.
    Dynamic,
    /// It ends before a segment does, or a segment has more bytes in the file than in memory.
    SegmentCut,
    /// A segment lies outside the addresses of programs, or two share a byte.
    Addresses,
    /// It begins where nothing may be executed, or at no multiple of 4.
    Entry,
    /// Its segments take too much memory.
    Memory,
    /// Its sections, its symbols or their names aren't as they must be.
    Symbols,
    /// A function of POSIX threads has two addresses, or two have one.
    Functions,
}

impl ExeError {
    ghost use Rattle.std.specs.Prelude.{◌≡◌};
    ghost use Rattle.ro_elf.specs.Errors.{number_of};

    /// The number of the check, 1 to 17.
    pub fn number(self) -> u8
        ensures { result ≡ number_of self }
    {
        match self {
            ExeError::Short => 1,
            ExeError::Magic => 2,
            ExeError::Class => 3,
            ExeError::Encoding => 4,
            ExeError::Version => 5,
            ExeError::FileType => 6,
            ExeError::Machine => 7,
            ExeError::Flags => 8,
            ExeError::ProgramHeaders => 9,
            ExeError::HeadersCut => 10,
            ExeError::Dynamic => 11,
            ExeError::SegmentCut => 12,
            ExeError::Addresses => 13,
            ExeError::Entry => 14,
            ExeError::Memory => 15,
            ExeError::Symbols => 16,
            ExeError::Functions => 17,
        }
    }
}
