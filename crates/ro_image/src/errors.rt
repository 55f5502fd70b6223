//! Why a file gives no image.

use ro_elf::ExeError;
use std::alloc::AllocError;

/// Why there is no image of a file.
#[derive(Clone, Copy, Debug, PartialEq, Eq)]
pub enum ImageError {
    Bad(ExeError),
    NoMemory,
}

impl From<ExeError> for ImageError {
    ghost use Rattle.std.specs.Prelude.{◌≡◌};
    ghost use Rattle.ro_image.specs.declared.errors.ImageError.TheVariants.{Bad};

    ghost from_gives = { λ exe error. error ≡ Bad exe };

    fn from(exe: ExeError) -> Self {
        ImageError::Bad(exe)
    }
}

impl From<AllocError> for ImageError {
    ghost use Rattle.std.specs.Prelude.{◌≡◌};
    ghost use Rattle.ro_image.specs.declared.errors.ImageError.TheVariants.{NoMemory};

    ghost from_gives = { λ _ error. error ≡ NoMemory };

    fn from(_: AllocError) -> Self {
        ImageError::NoMemory
    }
}
