//! The program: it hands the real shelf, sink, clock and disks to the one call, tells a fault on standard
//! error, and ends with the exit's number.
#![tactic(auto)]

ghost use Rattle.std.specs.Prelude.{◌≡◌, ◌≢◌, ◌↔◌, slice_get, vec_len, IfOk, IsTrue};
ghost use Rattle.std.specs.Option.{option_map};
ghost use Rattle.std.specs.IoError.{error_kind};
ghost use Rattle.std.specs.String.{string_bytes};
ghost use Rattle.conc.specs.Looks.{AsksForLook};
ghost use Rattle.std.specs.declared.io.ErrorKind.TheVariants as ErrorKind;
ghost use Rattle.conc_top.specs.declared.exit.Exit.TheVariants as Exit;

use conc_disk::Disk;
use conc_edge_clock::{SystemClock, SystemZone};
use conc_edge_devices::{GrowingDisk, PathDisk, SnapshotDisk};
use conc_edge_gate::FreeGate;
use conc_journal_image::MOST_BYTES;
use conc_outside::{FileShelf, WriterSink};
use conc_top::{Exit, conc, exit_text};
use conc_types::NoMemory;
use std::env;
use std::fs::File;
use std::io::{self, ErrorKind, Write};
use std::process::ExitCode;
use std::sync::Wait;
use std::thread::Threads;

const JOURNAL: &str = "conc.journal";

const SPOOL: &str = "conc.spool";

// Where the system shows what standard output is.
const OUTPUT: &str = "/dev/stdout";

// How many descriptors a process has from its beginning: input, output and errors.
const STANDARD: usize = 3;

// Opens files for reading alone until no standard descriptor is free, so that none of them is handed out
// for a disk: what is written to one that was closed then fails. The files are to be held to the end.
fn hold_standard(rt: &HostRuntime) -> io::Result<Vec<File>>
    ensures { IfOk result (λ held. vec_len held ≡ STANDARD) }
{
    let mut held = Vec::new(rt.alloc());
    for _ in 0..STANDARD {
        let file = File::open(rt, "/dev/null").or_else(|_| File::open(rt, "/"))?;
        held.push(file)?;
    }
    Ok(held)
}

// The words after the program's name.
fn words(rt: &HostRuntime) -> io::Result<Vec<String>> {
    let mut words = Vec::new(rt.alloc());
    for word in env::args(rt)?.skip(1) {
        words.push(word)?;
    }
    Ok(words)
}

// The exit where the words could not be taken. A word that is not UTF-8 belongs to no command line.
fn exit_without_words(error: &io::Error) -> Exit
    ensures usage { error_kind error.now ≡ ErrorKind.InvalidData → result ≡ Exit.Usage }
    ensures memory { error_kind error.now ≢ ErrorKind.InvalidData → result ≡ Exit.NoMemory }
{
    if error.kind() == ErrorKind::InvalidData {
        Exit::Usage
    } else {
        Exit::NoMemory
    }
}

// Writes the line that tells an exit, where there is memory for it.
fn tell(rt: &HostRuntime, exit: &Exit) {
    if let Ok(text) = exit_text(rt.alloc(), exit) {
        let _written = rt.stderr().write_all(&text);
    }
}

// Does what the words ask for over these disks, with the files, the output and the clock of the system.
fn run_over<Rt: Threads + Wait + Sync, D: Disk + Send, E: Disk + Send>(
    rt: &Rt,
    host: &HostRuntime,
    words: &[String],
    journal: &mut D,
    spool: &mut E,
) -> Result<Exit, NoMemory> {
    let zone = SystemZone::new(host.alloc(), host)?;
    let mut clock = SystemClock::new(host, &zone)?;
    let mut shelf = FileShelf::new(host, &[JOURNAL, SPOOL]);
    let mut out = WriterSink::new(host.stdout());
    Ok(conc(
        rt,
        host.alloc(),
        words,
        &mut shelf,
        &mut out,
        journal,
        spool,
        &mut clock,
        &FreeGate,
    ))
}

// Whether the words ask for a look at what a run left, which may stand beside a run.
fn looks(words: &[String]) -> bool
    ensures { IsTrue result ↔ AsksForLook (option_map string_bytes (slice_get words.now 0)) }
{
    matches!(words.first(), Some(word) if matches!(word.as_str(), "status" | "output"))
}

// Takes the words, and does what they ask for with the journal and the spool of the working folder, which are
// opened at their first use: to look at them alone, or for nobody else.
fn run<Rt: Threads + Wait + Sync>(rt: &Rt, host: &HostRuntime) -> Exit {
    let words = match words(host) {
        Ok(words) => words,
        Err(error) => return exit_without_words(&error),
    };
    let ran = if looks(&words) {
        let most = MOST_BYTES as usize;
        let mut journal = SnapshotDisk::new(host, host.alloc(), JOURNAL, &[OUTPUT], most);
        let mut spool = GrowingDisk::new(host, SPOOL, &[JOURNAL, OUTPUT]);
        run_over(rt, host, &words, &mut journal, &mut spool)
    } else {
        let mut journal = PathDisk::new(host, JOURNAL, &[OUTPUT]);
        let mut spool = PathDisk::new(host, SPOOL, &[JOURNAL, OUTPUT]);
        run_over(rt, host, &words, &mut journal, &mut spool)
    };
    ran.unwrap_or(Exit::NoMemory)
}

fn main(rt: HostRuntime) -> ExitCode {
    let held = hold_standard(&rt);
    let exit = match &held {
        Ok(_) => run(&rt, &rt),
        Err(_) => Exit::NoMemory,
    };
    tell(&rt, &exit);
    ExitCode::from(exit.number())
}
