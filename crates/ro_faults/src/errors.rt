//! Why a list of faults is refused.
use std::alloc::AllocError;

/// What is bad in a line.
#[derive(Clone, Copy, PartialEq, Eq, Debug)]
pub enum FaultsCode {
    /// Its form is wrong.
    Form,
    /// Its form is right, but a number is out of its range.
    Range,
    /// It is behind the last line that may be there.
    Count,
}

impl FaultsCode {
    ghost use Rattle.std.specs.Prelude.{◌≡◌};
    ghost use Rattle.ro_faults.specs.Texts.{code_of};

    /// The number of the code, 1, 2 or 3.
    pub fn code(self) -> u8
        ensures { result ≡ code_of self }
    {
        match self {
            FaultsCode::Form => 1,
            FaultsCode::Range => 2,
            FaultsCode::Count => 3,
        }
    }
}

/// A list of faults that is not read.
#[derive(Clone, Copy, PartialEq, Eq, Debug)]
pub enum FaultsError {
    /// The first bad line, by its number from 1 on, and what is bad in it.
    Bad { line: u32, code: FaultsCode },
    /// There was no memory.
    NoMemory,
}

impl From<AllocError> for FaultsError {
    ghost use Rattle.std.specs.Prelude.{◌≡◌};
    ghost use Rattle.ro_faults.specs.declared.errors.FaultsError.TheVariants.{NoMemory};

    ghost from_gives = { λ _ error. error ≡ NoMemory };

    fn from(_: AllocError) -> Self {
        FaultsError::NoMemory
    }
}
