ghost use Rattle.std.specs.Prelude.{◌≡◌};
ghost use Rattle.conc_run_state.specs.Fails.{of_check, of_journal, of_read, of_run};
ghost use Rattle.conc_run_state.specs.declared.error.HistoryFail.TheVariants as history_fail;
ghost use Rattle.conc_run_state.specs.declared.error.RunFail.TheVariants as run_fail;

use conc_disk::ReadBack;
use conc_journal::JournalFail;
use conc_types::{CheckFail, NoMemory};
use thiserror::Error;

/// One of the two disks of a run.
#[derive(Clone, Copy, Debug, PartialEq, Eq)]
pub enum DiskName {
    Journal,
    Spool,
}

/// Why a run that is under way ends before its history is finished. What it had added to the journal
/// until then stays.
#[derive(Clone, Copy, Debug, PartialEq, Eq, Error)]
pub enum RunFail {
    #[error("the journal's disk failed")]
    JournalFault,
    #[error("the spool's disk failed")]
    SpoolFault,
    #[error("no memory")]
    NoMemory,
}

impl From<NoMemory> for RunFail {
    ghost from_gives = { λ _ e. e ≡ run_fail.NoMemory };

    fn from(_: NoMemory) -> Self {
        RunFail::NoMemory
    }
}

/// Why a run does not begin, or ends before its history is finished.
#[derive(Clone, Copy, Debug, PartialEq, Eq, Error)]
pub enum HistoryFail {
    #[error("this is no journal")]
    NotJournal,
    /// The journal is that of another input: in its version it has `found` where this input has `given`.
    #[error("the journal is that of another input")]
    OtherInput {
        found: [u8; 32],
        given: [u8; 32],
    },
    /// The journal is that of another script. It has this command with the stamp `found`, and the script
    /// with `given`, which is 0 where the script has no such command.
    #[error("command {command} is another one in the journal")]
    OtherScript {
        command: u32,
        found: u64,
        given: u64,
    },
    /// The record with this number, from 1, is broken or not lawful, or its extent ends past the spool.
    #[error("record {number} is not lawful")]
    Unlawful {
        number: u64,
    },
    /// The journal has `len` records, and no room for the `need` that a life may add.
    #[error("the journal has {len} records and needs {need} more")]
    JournalFull {
        len: u64,
        need: u64,
    },
    #[error("a disk failed")]
    DiskFault {
        disk: DiskName,
    },
    #[error("no memory")]
    NoMemory,
}

impl From<NoMemory> for HistoryFail {
    ghost from_gives = { λ _ e. e ≡ history_fail.NoMemory };

    fn from(_: NoMemory) -> Self {
        HistoryFail::NoMemory
    }
}

impl From<RunFail> for HistoryFail {
    ghost from_gives = { λ fail e. e ≡ of_run fail };

    fn from(fail: RunFail) -> Self {
        match fail {
            RunFail::JournalFault => HistoryFail::DiskFault {
                disk: DiskName::Journal,
            },
            RunFail::SpoolFault => HistoryFail::DiskFault {
                disk: DiskName::Spool,
            },
            RunFail::NoMemory => HistoryFail::NoMemory,
        }
    }
}

impl From<JournalFail> for HistoryFail {
    ghost from_gives = { λ fail e. e ≡ of_journal fail };

    fn from(fail: JournalFail) -> Self {
        match fail {
            JournalFail::NotJournal => HistoryFail::NotJournal,
            JournalFail::DiskFault => HistoryFail::from(RunFail::JournalFault),
            JournalFail::NoMemory => HistoryFail::NoMemory,
        }
    }
}

impl From<CheckFail> for HistoryFail {
    ghost from_gives = { λ fail e. e ≡ of_check fail };

    fn from(fail: CheckFail) -> Self {
        match fail {
            CheckFail::Unlawful { position } => HistoryFail::Unlawful { number: position },
            CheckFail::NoMemory => HistoryFail::NoMemory,
        }
    }
}

impl From<ReadBack> for HistoryFail {
    ghost from_gives = { λ fail e. e ≡ of_read fail };

    fn from(fail: ReadBack) -> Self {
        match fail {
            ReadBack::DiskFault => HistoryFail::from(RunFail::SpoolFault),
            ReadBack::NoMemory => HistoryFail::NoMemory,
        }
    }
}
