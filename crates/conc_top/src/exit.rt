ghost use Rattle.std.specs.Prelude.{◌≡◌};
ghost use Rattle.conc_top.specs.declared.exit.Exit.TheVariants as exits;
ghost use Rattle.conc_top.specs.Lines.{number_of};
ghost use Rattle.conc_top.specs.Ways.{exit_for, exit_for_input, exit_of};

use conc_run_state::{DiskName, HistoryFail};
use conc_top_inputs::InputFail;
use conc_types::{Name, NoMemory, Refusal};

/// How a command ended.
#[derive(Drop)]
pub enum Exit {
    /// What the command is for is done.
    Done,
    /// The words are no command line.
    Usage,
    /// A file, with its name, is refused.
    Refused {
        refusal: Refusal,
        name: Name,
    },
    /// There is no file with this name.
    Absent {
        name: Name,
    },
    /// The file with this name could not be read.
    ReadFault {
        name: Name,
    },
    /// The output could not be written.
    WriteFault,
    /// One of the two disks failed.
    DiskFault {
        disk: DiskName,
    },
    /// The clock of the system gave no moment.
    ClockFault,
    /// What stands on the journal's disk is no journal.
    NotJournal,
    /// The journal is that of other files: in its version it has `found` where these files have `given`.
    OtherInput {
        found: [u8; 32],
        given: [u8; 32],
    },
    /// The journal is that of another script: it has this command with the stamp `found`, and the script
    /// with `given`, which is 0 where the script has no such command.
    OtherScript {
        command: u32,
        found: u64,
        given: u64,
    },
    /// The journal has `len` records, and no room for the `need` that the run may add.
    JournalFull {
        len: u64,
        need: u64,
    },
    /// There was no memory.
    NoMemory,
    /// The journal's record with this number, from 1, is broken or not lawful, or its extent ends past
    /// the spool.
    Unlawful {
        number: u64,
    },
    /// The line with this number, from 1, of the text of a history is no event line, its event is not
    /// lawful, or it differs from the table.
    NotLawful {
        line: u64,
    },
    /// The request with this number has not ended with a report.
    NotEnded {
        number: u32,
    },
}

impl Exit {
    // The exit of a command that did what it is for, or the exit that kept it from that.
    pub(crate) fn of(answer: Result<(), Exit>) -> Exit
        ensures { result ≡ exit_of answer }
    {
        match answer {
            Ok(()) => Exit::Done,
            Err(exit) => exit,
        }
    }

    /// The exit status of the program.
    pub fn number(&self) -> u8
        ensures { result ≡ number_of self.now }
    {
        match self {
            Exit::Done => 0,
            Exit::Usage => 2,
            Exit::Refused { .. } => 3,
            Exit::Absent { .. } => 4,
            Exit::ReadFault { .. } => 5,
            Exit::WriteFault => 6,
            Exit::DiskFault { .. } => 7,
            Exit::ClockFault => 8,
            Exit::NotJournal => 9,
            Exit::OtherInput { .. } => 10,
            Exit::JournalFull { .. } => 11,
            Exit::NoMemory => 12,
            Exit::Unlawful { .. } => 13,
            Exit::NotLawful { .. } => 14,
            Exit::NotEnded { .. } => 15,
            Exit::OtherScript { .. } => 16,
        }
    }
}

// Where files give no plan.
impl From<InputFail> for Exit {
    ghost from_gives = { λ fail exit. exit ≡ exit_for_input fail };

    fn from(fail: InputFail) -> Self {
        match fail {
            InputFail::Refused { refusal, name } => Exit::Refused { refusal, name },
            InputFail::Absent { name } => Exit::Absent { name },
            InputFail::ReadFault { name } => Exit::ReadFault { name },
            InputFail::ClockFault => Exit::ClockFault,
            InputFail::NoMemory => Exit::NoMemory,
        }
    }
}

// Where a run does not come to its end, or nothing is read of its disks.
impl From<HistoryFail> for Exit {
    ghost from_gives = { λ fail exit. exit ≡ exit_for fail };

    fn from(fail: HistoryFail) -> Self {
        match fail {
            HistoryFail::NotJournal => Exit::NotJournal,
            HistoryFail::OtherInput { found, given } => Exit::OtherInput { found, given },
            HistoryFail::OtherScript {
                command,
                found,
                given,
            } => Exit::OtherScript {
                command,
                found,
                given,
            },
            HistoryFail::Unlawful { number } => Exit::Unlawful { number },
            HistoryFail::JournalFull { len, need } => Exit::JournalFull { len, need },
            HistoryFail::DiskFault { disk } => Exit::DiskFault { disk },
            HistoryFail::NoMemory => Exit::NoMemory,
        }
    }
}

impl From<NoMemory> for Exit {
    ghost from_gives = { λ _ exit. exit ≡ exits.NoMemory };

    fn from(_: NoMemory) -> Self {
        Exit::NoMemory
    }
}
