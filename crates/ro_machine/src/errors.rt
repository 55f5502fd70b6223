//! Why a thread makes no step, and why a plan is not run to its end.

use ro_journal::How;
use std::alloc::AllocError;

/// Why a thread makes no step.
#[derive(Clone, Copy, Debug, PartialEq, Eq)]
pub enum StepError {
    /// The machine has no step of this thread: the program has ended, the thread does not live, or its call blocks.
    NoStep,
    /// There is no memory for a page, or for the bytes that a call stores.
    NoMemory,
}

impl From<AllocError> for StepError {
    ghost use Rattle.std.specs.Prelude.{◌≡◌};
    ghost use Rattle.ro_machine.specs.declared.errors.StepError.TheVariants.{NoMemory};

    ghost from_gives = { λ _ error. error ≡ NoMemory };

    fn from(_: AllocError) -> Self {
        StepError::NoMemory
    }
}

/// What came of a plan that was run to its end.
#[derive(Clone, Copy, Debug, PartialEq, Eq)]
pub struct PlainEnd {
    /// How the program ended, by an exit or a trap; `Deadlock` where it has not ended and no thread has a step; `None` where
    /// it has not ended and some thread has one.
    pub how: Option<How>,
    /// How many bytes it wrote.
    pub bytes: u64,
}

/// Why a plan is not run to its end.
#[derive(Clone, Copy, Debug, PartialEq, Eq)]
pub enum PlanError {
    /// The plan's step at this place, counted from 0, does not exist.
    NoStep { place: u64 },
    /// The sink failed, and took so many bytes of the last write.
    SinkFailed { taken: u32 },
    /// There is no memory.
    NoMemory,
}

/// A plan has too many steps: so many before an entry, and so many more by that entry.
#[derive(Clone, Copy, Debug, PartialEq, Eq)]
pub struct TooLong {
    pub steps: u64,
    pub next: u64,
}
