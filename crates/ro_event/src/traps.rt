//! Why a program can't go on.
ghost use Rattle.std.specs.Prelude.{◌≡◌, ℕ};
ghost use Rattle.ro_event.specs.Traps.{number_of, trap_of};

/// The cause of a trap.
#[derive(Clone, Copy, PartialEq, Eq, Debug)]
pub enum TrapCause {
    /// The pc is not a multiple of 4.
    MisalignedPc,
    /// The instruction may not be fetched.
    ForbiddenFetch,
    /// The word is no instruction.
    NoInstruction,
    /// The target of a jump is not a multiple of 4.
    MisalignedTarget,
    /// The address of a load is not a multiple of its size.
    MisalignedLoad,
    /// The bytes may not be loaded.
    ForbiddenLoad,
    /// The address of a store is not a multiple of its size.
    MisalignedStore,
    /// The bytes may not be stored.
    ForbiddenStore,
    /// The instruction is EBREAK.
    Breakpoint,
}

impl TrapCause {
    /// Its number, from 1 to 9, as journals and reports have it.
    pub fn number(self) -> u8
        ensures { result ≡ number_of self }
    {
        match self {
            TrapCause::MisalignedPc => 1,
            TrapCause::ForbiddenFetch => 2,
            TrapCause::NoInstruction => 3,
            TrapCause::MisalignedTarget => 4,
            TrapCause::MisalignedLoad => 5,
            TrapCause::ForbiddenLoad => 6,
            TrapCause::MisalignedStore => 7,
            TrapCause::ForbiddenStore => 8,
            TrapCause::Breakpoint => 9,
        }
    }

    /// The cause that has a number, or `None` where none has it.
    #[tactic(auto, unfolding(crate::specs::Traps::trap_of))]
    pub fn of_number(number: u64) -> Option<TrapCause>
        ensures { result ≡ trap_of number }
    {
        match number {
            1 => Some(TrapCause::MisalignedPc),
            2 => Some(TrapCause::ForbiddenFetch),
            3 => Some(TrapCause::NoInstruction),
            4 => Some(TrapCause::MisalignedTarget),
            5 => Some(TrapCause::MisalignedLoad),
            6 => Some(TrapCause::ForbiddenLoad),
            7 => Some(TrapCause::MisalignedStore),
            8 => Some(TrapCause::ForbiddenStore),
            9 => Some(TrapCause::Breakpoint),
            _ => None,
        }
    }
}

/// Each cause has a number of its own.
#[tactic(auto, using(crate::proofs::Numbered::trap_laws))]
pub fn traps_are_numbered()
    ensures back { (cause : TrapCause) → trap_of (number_of cause) ≡ Some cause }
    ensures once { (number : ℕ) (cause : TrapCause) → trap_of number ≡ Some cause → number_of cause ≡ number }
{}
