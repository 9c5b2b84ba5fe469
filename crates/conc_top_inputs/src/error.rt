ghost use Rattle.std.specs.Prelude.{◌≡◌, IfErr, IfOk, Ok};
ghost use Rattle.conc_top_inputs.specs.FileFails.{IsFailAt, IsToldOf};
ghost use Rattle.conc_top_inputs.specs.Ways.{file_fail_for, file_fail_for_shelf};
ghost use Rattle.conc_top_inputs.specs.declared.error.InputFail.TheVariants as input;

use conc_outside::ShelfFail;
use conc_types::{Name, NoMemory, ReadFail, Refusal};
use std::alloc::{AllocFailed, Global};

/// Why files give no plan.
#[derive(Drop)]
pub enum InputFail {
    /// A file, with its name, is refused.
    Refused { refusal: Refusal, name: Name },
    /// There is no file with this name.
    Absent { name: Name },
    /// The file with this name could not be read.
    ReadFault { name: Name },
    /// The clock that was asked gave no moment.
    ClockFault,
    /// There was no memory.
    NoMemory,
}

impl From<NoMemory> for InputFail {
    ghost from_gives = { λ _ e. e ≡ input.NoMemory };

    fn from(_: NoMemory) -> Self {
        InputFail::NoMemory
    }
}

// Why a file ends the reading.
#[derive(Clone, Copy)]
pub(crate) enum FileFail {
    Refused(Refusal),
    Absent,
    ReadFault,
    NoMemory,
}

impl FileFail {
    ghost use Rattle.std.specs.Prelude.{◌≡◌};
    ghost use Rattle.conc_top_inputs.specs.Ways.{fail_at};

    // The failure, for the file with this name.
    pub(crate) fn at(self, name: Name) -> InputFail
        ensures { result ≡ fail_at self name }
    {
        match self {
            FileFail::Refused(refusal) => InputFail::Refused { refusal, name },
            FileFail::Absent => InputFail::Absent { name },
            FileFail::ReadFault => InputFail::ReadFault { name },
            FileFail::NoMemory => InputFail::NoMemory,
        }
    }
}

impl<T: Drop> From<AllocFailed<T>> for InputFail {
    ghost from_gives = { λ _ e. e ≡ input.NoMemory };

    fn from(_: AllocFailed<T>) -> Self {
        InputFail::NoMemory
    }
}

// A file that the shelf does not give ends the reading.
impl From<ShelfFail> for FileFail {
    ghost from_gives = { λ fail e. e ≡ file_fail_for_shelf fail };

    fn from(fail: ShelfFail) -> Self {
        match fail {
            ShelfFail::Absent => FileFail::Absent,
            ShelfFail::Failed => FileFail::ReadFault,
            ShelfFail::NoMemory => FileFail::NoMemory,
        }
    }
}

// So does one that its reader refuses.
impl From<ReadFail> for FileFail {
    ghost from_gives = { λ fail e. e ≡ file_fail_for fail };

    fn from(fail: ReadFail) -> Self {
        match fail {
            ReadFail::Refused(refusal) => FileFail::Refused(refusal),
            ReadFail::NoMemory => FileFail::NoMemory,
        }
    }
}

// The failure for the file with this name, where there is memory for a name.
fn fail_at(alloc: Global, file_fail: FileFail, name: &Name) -> InputFail
    ensures { IsFailAt file_fail name.now result }
{
    match name.try_clone(alloc) {
        Ok(name) => file_fail.at(name),
        Err(NoMemory) => InputFail::NoMemory,
    }
}

// The answer on a file, with its failure told for the file with this name.
pub(crate) fn named<T>(
    alloc: Global,
    name: &Name,
    answer: Result<T, FileFail>,
) -> Result<T, InputFail>
    ensures ok { IfOk result (λ value. answer ≡ Ok value) }
    ensures err { IfErr result (IsToldOf answer name.now) }
{
    match answer {
        Ok(value) => Ok(value),
        Err(fail) => Err(fail_at(alloc, fail, name)),
    }
}
