ghost use Rattle.std.specs.Prelude.{◌≡◌, ⊤};
ghost use Rattle.conc_disk.specs.declared.error.ReadBack.TheVariants as read_back;

use conc_outside::Failed;
use conc_types::NoMemory;
use std::alloc::AllocError;
use thiserror::Error;

/// A disk failed within a call that works on it: a journal's, or a spool's.
#[derive(Clone, Copy, Debug, PartialEq, Eq, Error)]
#[error("the disk failed")]
pub struct DiskFault;

impl From<Failed> for DiskFault {
    ghost from_gives = { λ _ _. ⊤ };

    fn from(_: Failed) -> Self {
        DiskFault
    }
}

/// Why no bytes are read back from a disk.
#[derive(Clone, Copy, Debug, PartialEq, Eq, Error)]
pub enum ReadBack {
    #[error("the disk failed")]
    DiskFault,
    #[error("no memory")]
    NoMemory,
}

impl From<Failed> for ReadBack {
    ghost from_gives = { λ _ e. e ≡ read_back.DiskFault };

    fn from(_: Failed) -> Self {
        ReadBack::DiskFault
    }
}

impl From<NoMemory> for ReadBack {
    ghost from_gives = { λ _ e. e ≡ read_back.NoMemory };

    fn from(_: NoMemory) -> Self {
        ReadBack::NoMemory
    }
}

impl From<AllocError> for ReadBack {
    ghost from_gives = { λ _ e. e ≡ read_back.NoMemory };

    fn from(_: AllocError) -> Self {
        ReadBack::NoMemory
    }
}
