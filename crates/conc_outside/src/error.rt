ghost use Rattle.std.specs.Prelude.{◌≡◌};
ghost use Rattle.conc_outside.specs.declared.error.ShelfFail.TheVariants.{NoMemory};

use std::alloc::{AllocError, AllocFailed};
use thiserror::Error;

/// A read or a write did not succeed.
#[derive(Clone, Copy, Debug, PartialEq, Eq, Error)]
#[error("the outside failed")]
pub struct Failed;

/// Why a shelf gives no file.
#[derive(Clone, Copy, Debug, PartialEq, Eq, Error)]
pub enum ShelfFail {
    #[error("there is no such file")]
    Absent,
    #[error("the file could not be read")]
    Failed,
    #[error("no memory")]
    NoMemory,
}

impl From<AllocError> for ShelfFail {
    ghost from_gives = { λ _ e. e ≡ NoMemory };

    fn from(_: AllocError) -> Self {
        ShelfFail::NoMemory
    }
}

impl<T: Drop> From<AllocFailed<T>> for ShelfFail {
    ghost from_gives = { λ _ e. e ≡ NoMemory };

    fn from(_: AllocFailed<T>) -> Self {
        ShelfFail::NoMemory
    }
}
