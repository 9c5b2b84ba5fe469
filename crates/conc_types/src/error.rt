ghost use Rattle.std.specs.Prelude.{◌≡◌, ⊤};
ghost use Rattle.conc_types.specs.declared.error.CheckFail.TheVariants as check_fail;
ghost use Rattle.conc_types.specs.declared.error.ReadFail.TheVariants as read_fail;

use crate::{FileKind, Refusal, RefusalKind};
use std::alloc::{AllocError, AllocFailed};
use thiserror::Error;

/// Memory was wanted, and there was none.
#[derive(Clone, Copy, Debug, PartialEq, Eq, Error)]
#[error("no memory")]
pub struct NoMemory;

impl From<AllocError> for NoMemory {
    ghost from_gives = { λ _ _. ⊤ };

    fn from(_: AllocError) -> Self {
        NoMemory
    }
}

impl<T: Drop> From<AllocFailed<T>> for NoMemory {
    ghost from_gives = { λ _ _. ⊤ };

    fn from(_: AllocFailed<T>) -> Self {
        NoMemory
    }
}

/// Why a list of events is not taken.
#[derive(Clone, Copy, Debug, PartialEq, Eq, Error)]
pub enum CheckFail {
    /// The event at this position, counted from 1, may not follow those before it.
    #[error("event {position} is not lawful")]
    Unlawful { position: u64 },
    #[error("no memory")]
    NoMemory,
}

impl From<NoMemory> for CheckFail {
    ghost from_gives = { λ _ e. e ≡ check_fail.NoMemory };

    fn from(_: NoMemory) -> Self {
        CheckFail::NoMemory
    }
}

/// Why input, by default a file, gives no value.
#[derive(Clone, Copy, Debug, PartialEq, Eq, Error)]
pub enum ReadFail<R = Refusal> {
    /// It breaks a rule.
    #[error("the input is refused")]
    Refused(R),
    #[error("no memory")]
    NoMemory,
}

impl ReadFail {
    /// The refusal of a file at a line that breaks a rule of this kind.
    pub fn refused(file: FileKind, line: u64, kind: RefusalKind) -> Self
        ensures { result ≡ read_fail.Refused (record { file = file; line = line; kind = kind }) }
    {
        ReadFail::Refused(Refusal { file, line, kind })
    }
}

impl From<RefusalKind> for ReadFail<RefusalKind> {
    ghost from_gives = { λ kind e. e ≡ read_fail.Refused kind };

    fn from(kind: RefusalKind) -> Self {
        ReadFail::Refused(kind)
    }
}

impl<R> From<NoMemory> for ReadFail<R> {
    ghost from_gives = { λ _ e. e ≡ read_fail.NoMemory };

    fn from(_: NoMemory) -> Self {
        ReadFail::NoMemory
    }
}

impl<R> From<AllocError> for ReadFail<R> {
    ghost from_gives = { λ _ e. e ≡ read_fail.NoMemory };

    fn from(_: AllocError) -> Self {
        ReadFail::NoMemory
    }
}

impl<R, T: Drop> From<AllocFailed<T>> for ReadFail<R> {
    ghost from_gives = { λ _ e. e ≡ read_fail.NoMemory };

    fn from(_: AllocFailed<T>) -> Self {
        ReadFail::NoMemory
    }
}
