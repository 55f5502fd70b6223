//! Why the text of a journal is refused.
use std::alloc::AllocError;

/// What is bad in a line.
#[derive(Clone, Copy, PartialEq, Eq, Debug)]
pub enum JournalCode {
    /// Its form is wrong.
    Form,
    /// Its form is right, but a number is out of its range.
    Range,
}

impl JournalCode {
    ghost use Rattle.std.specs.Prelude.{◌≡◌};
    ghost use Rattle.ro_journal_text.specs.Reading.{code_of};

    /// The number of the code, 1 or 2.
    pub fn code(self) -> u8
        ensures { result ≡ code_of self }
    {
        match self {
            JournalCode::Form => 1,
            JournalCode::Range => 2,
        }
    }
}

/// A text of which no journal is read.
#[derive(Clone, Copy, PartialEq, Eq, Debug)]
pub enum JournalError {
    /// The first bad line, by its number from 1 on, and what is bad in it.
    Bad { line: u64, code: JournalCode },
    /// There was no memory.
    NoMemory,
}

impl From<AllocError> for JournalError {
    ghost use Rattle.std.specs.Prelude.{◌≡◌};
    ghost use Rattle.ro_journal_text.specs.declared.errors.JournalError.TheVariants.{NoMemory};

    ghost from_gives = { λ _ error. error ≡ NoMemory };

    fn from(_: AllocError) -> Self {
        JournalError::NoMemory
    }
}
