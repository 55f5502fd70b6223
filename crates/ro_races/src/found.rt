//! What a check comes to.

use std::alloc::AllocError;

/// What was found in a run.
#[derive(Clone, Copy, Debug, PartialEq, Eq)]
pub enum Found {
    /// No step has a race.
    NoRace,
    /// The first race: the steps at the places `i` and `j` of the plan, counted from 0, access the byte at an address.
    Pair { i: u64, j: u64, byte: u64 },
}

/// Why a run was not checked to its end.
#[derive(Clone, Copy, Debug, PartialEq, Eq)]
pub enum RacesError {
    /// The plan's step at this place, counted from 0, does not exist.
    NoStep { place: u64 },
    /// There is no memory.
    NoMemory,
}

impl From<AllocError> for RacesError {
    ghost use Rattle.std.specs.Prelude.{◌≡◌};
    ghost use Rattle.ro_races.specs.declared.found.RacesError.TheVariants.{NoMemory};

    ghost from_gives = { λ _ error. error ≡ NoMemory };

    fn from(_: AllocError) -> Self {
        RacesError::NoMemory
    }
}
