use super::bytes::text_of;
use conc_edge_clock::MemClock;
use conc_edge_devices::MemDisk;
use conc_edge_gate::{FreeGate, Gate};
use conc_outside::MemSink;
use conc_test_worked::{file_of, shelf_with};
use conc_top::{Exit, conc, exit_text};
use conc_types::{Moment, Name, NoMemory};
use std::alloc::Global;
use std::sync::Wait;
use std::test::Fail;
use std::thread::Threads;

const HEADER: &str = "at,do,what,user,priority,start,domain,argument\n";

// Which read of the shelf fails, which write of the sink, and which call of the journal's disk and of the
// spool's, each counted from 0; and from which call on all of the spool's fail.
#[derive(Clone, Copy)]
pub(crate) struct Fails {
    pub(crate) read: Option<u64>,
    pub(crate) write: Option<u64>,
    pub(crate) journal: Option<u64>,
    pub(crate) spool: Option<u64>,
    pub(crate) spool_from: Option<u64>,
}

pub(crate) const NO_FAILS: Fails = Fails {
    read: None,
    write: None,
    journal: None,
    spool: None,
    spool_from: None,
};

// In which call of the journal's disk and of the spool's a crash comes, counted from 0, and the choice among the
// images that it may leave.
#[derive(Clone, Copy)]
pub(crate) struct Crashes {
    pub(crate) journal: (u64, u64),
    pub(crate) spool: (u64, u64),
}

// All that was written reached the disks.
pub(crate) const NO_CRASHES: Crashes = Crashes {
    journal: (u64::MAX, 1),
    spool: (u64::MAX, 1),
};

// So many calls of a kind no run of the examples makes.
pub(crate) const MANY_CALLS: u64 = 200;

// What a call is given beside its disks: its words, its files as lines (`bytes_of`), the script without its
// header where it has one, and the clock with its name, whether its clock gives the moment 2025-03-03T10:10:01, what fails, and where
// a crash comes.
#[derive(Clone, Copy)]
pub(crate) struct Given<'a> {
    pub(crate) words: &'a str,
    pub(crate) setup: &'a str,
    pub(crate) records: &'a str,
    pub(crate) has_header: bool,
    pub(crate) clock_file: &'a str,
    pub(crate) clock: &'a str,
    pub(crate) table: &'a str,
    pub(crate) history: Option<&'a str>,
    pub(crate) has_moment: bool,
    pub(crate) fails: Fails,
    pub(crate) crashes: Crashes,
}

// What a call ended with: its status, the stamps of the journal and of the script where these are others, its output, the line that
// tells its exit, and what its disks read as then, or as a crash leaves them.
#[derive(Drop)]
pub(crate) struct Ended {
    pub(crate) number: u8,
    pub(crate) stamps: Option<(u64, u64)>,
    pub(crate) text: Vec<u8>,
    pub(crate) line: Vec<u8>,
    pub(crate) journal: Vec<u8>,
    pub(crate) spool: Vec<u8>,
}

fn listed(alloc: Global, number: Option<u64>) -> Result<Vec<u64>, NoMemory> {
    let mut numbers = Vec::new(alloc);
    if let Some(number) = number {
        numbers.push(number)?;
    }
    Ok(numbers)
}

fn spool_fails(alloc: Global, fails: Fails) -> Result<Vec<u64>, NoMemory> {
    let mut numbers = listed(alloc, fails.spool)?;
    if let Some(from) = fails.spool_from {
        for number in from..MANY_CALLS {
            numbers.push(number)?;
        }
    }
    Ok(numbers)
}

fn moments_of(alloc: Global, has_moment: bool) -> Result<Vec<Moment>, NoMemory> {
    let mut moments = Vec::new(alloc);
    if has_moment {
        moments.push(Moment {
            seconds: 63_876_593_401,
        })?;
    }
    Ok(moments)
}

fn words_of(alloc: Global, words: &str) -> Result<Vec<String>, Fail> {
    let mut list = Vec::new(alloc);
    for word in words.split(' ') {
        list.push(format!(in alloc; "{word}")?)?;
    }
    Ok(list)
}

// The bytes of lines, in which `\xff` stands for that byte.
fn bytes_of(alloc: Global, lines: &str) -> Result<Vec<u8>, Fail> {
    let text = text_of(alloc, lines)?;
    let mut bytes = Vec::new(alloc);
    for (place, piece) in text.split("\\xff").enumerate() {
        if place > 0 {
            bytes.push(0xff)?;
        }
        bytes.extend_from_slice(piece.as_bytes())?;
    }
    Ok(bytes)
}

fn file(alloc: Global, name: &str, lines: &str) -> Result<(Name, Vec<u8>), Fail> {
    let bytes = bytes_of(alloc, lines)?;
    Ok(file_of(alloc, name, bytes)?.ok_or("a file's name is no name")?)
}

fn files_of(alloc: Global, given: Given<'_>) -> Result<Vec<(Name, Vec<u8>)>, Fail> {
    let records = given.records;
    let header = if given.has_header { HEADER } else { "" };
    let script = format!(in alloc; "{header}{records}")?;
    let mut files = vec![in alloc;
        file(alloc, "a.toml", given.setup)?,
        file(alloc, "a.csv", &script)?,
        file(alloc, given.clock_file, given.clock)?,
        file(alloc, "t.csv", given.table)?,
    ]?;
    if let Some(history) = given.history {
        files.push(file(alloc, "a.history", history)?)?;
    }
    Ok(files)
}

// The stamps of a command in the journal and in another script.
fn stamps_in(exit: &Exit) -> Option<(u64, u64)> {
    match exit {
        Exit::OtherScript { found, given, .. } => Some((*found, *given)),
        _ => None,
    }
}

// The one call of the program, over a shelf, a sink, a clock and disks in memory, whose disks read as these bytes.
// Each worker goes through the gate.
pub(crate) fn call_through<Rt: Threads + Wait + Sync, G: Gate + Sync>(
    rt: &Rt,
    alloc: Global,
    given: Given<'_>,
    journal: &[u8],
    spool: &[u8],
    gate: &G,
) -> Result<Ended, Fail> {
    let words = words_of(alloc, given.words)?;
    let files = files_of(alloc, given)?;
    let mut shelf = shelf_with(files, listed(alloc, given.fails.read)?).ok_or(
        "two files have one name",
    )?;
    let mut out = MemSink::new(alloc, listed(alloc, given.fails.write)?);
    let failing = listed(alloc, given.fails.journal)?;
    let mut journal = MemDisk::new(alloc, journal.to_vec(alloc)?, failing);
    let failing = spool_fails(alloc, given.fails)?;
    let mut spool = MemDisk::new(alloc, spool.to_vec(alloc)?, failing);
    let mut clock = MemClock::new(moments_of(alloc, given.has_moment)?);
    let exit = conc(
        rt,
        alloc,
        &words,
        &mut shelf,
        &mut out,
        &mut journal,
        &mut spool,
        &mut clock,
        gate,
    );
    Ok(Ended {
        number: exit.number(),
        stamps: stamps_in(&exit),
        text: out.bytes().to_vec(alloc)?,
        line: exit_text(alloc, &exit)?,
        journal: journal.image(alloc, given.crashes.journal.0, given.crashes.journal.1)?,
        spool: spool.image(alloc, given.crashes.spool.0, given.crashes.spool.1)?,
    })
}

// The same, where the gate holds no worker.
pub(crate) fn call<Rt: Threads + Wait + Sync>(
    rt: &Rt,
    alloc: Global,
    given: Given<'_>,
    journal: &[u8],
    spool: &[u8],
) -> Result<Ended, Fail> {
    call_through(rt, alloc, given, journal, spool, &FreeGate)
}
