//! Appends ticks to a journal in a file, and tells how many events the journal then has: what the journal
//! costs on a real disk. `conc_test_bench_append FILE COUNT`; with 0 it reads the journal alone.
#![tactic(auto)]

ghost use Rattle.std.specs.Prelude.{◌≡◌, ◌+◌, ◌≤◌, IfErr, IfOk, IfSome, IsFalse, IsTrue, length};
ghost use Rattle.conc_journal.specs.Journals.{IsOn, list_of, room_of, state_of};
ghost use Rattle.conc_journal.specs.Opens.{events_of};
ghost use Rattle.conc_journal.specs.JournalStates.{has_faulted, takes_events};
ghost use Rattle.conc_test_bench_append.specs.Causes.{HasCause};

use conc_disk::Disk;
use conc_edge_devices::open_disk;
use conc_journal::{Journal, JournalFail};
use conc_journal_image::MOST_RECORDS;
use conc_types::{Digests, Event, Moment, read_decimal};
use std::alloc::Global;
use std::env;
use std::process::ExitCode;

// Monday, the third of March 2025, at nine.
const TICK: Event = Event::Tick {
    moment: Moment {
        seconds: 63_876_589_200,
    },
};

// Those of no input.
const DIGESTS: Digests = Digests {
    full: [0; 32],
    base: [0; 32],
};

// Why nothing was told.
#[derive(Clone, Copy, Debug)]
enum Fail {
    Words,
    File,
    NotJournal,
    Broken,
    Full,
    Disk,
    NoMemory,
}

// The journal of a disk, begun where it was not, with room for so many events.
fn begun<D: Disk>(alloc: Global, disk: &mut D, count: u64) -> Result<Journal, Fail>
    ensures on { IfOk result (λ journal. IsOn journal (D.state disk.new)) }
    ensures takes { IfOk result (λ journal. IsTrue (takes_events (state_of journal))) }
    ensures sound { IfOk result (λ journal. IsFalse (has_faulted (state_of journal))) }
    ensures room { IfOk result (λ journal. count ≤ room_of journal) }
    ensures list { IfOk result (λ journal. IfSome (D.state disk.old).seen
        (λ image. list_of journal ≡ events_of image)) }
    ensures faults { (D.state disk.old).faults ≤ (D.state disk.new).faults }
    ensures cause { IfErr result (HasCause (D.state disk.old) (D.state disk.new) count) }
{
    let opened = match Journal::open_on(alloc, disk) {
        Ok(opened) => opened,
        Err(JournalFail::NotJournal) => return Err(Fail::NotJournal),
        Err(JournalFail::DiskFault) => return Err(Fail::Disk),
        Err(JournalFail::NoMemory) => return Err(Fail::NoMemory),
    };
    if opened.broken.is_some() {
        return Err(Fail::Broken);
    }
    let mut journal = opened.journal;
    if count > MOST_RECORDS - journal.events().len() as u64 {
        return Err(Fail::Full);
    }
    if opened.label.is_none() && journal.begin(disk, &DIGESTS).is_err() {
        return Err(Fail::Disk);
    }
    match journal.reserve(count) {
        Ok(()) => Ok(journal),
        Err(_) => Err(Fail::NoMemory),
    }
}

// Appends so many ticks, and gives how many events the journal then has.
fn append<D: Disk>(alloc: Global, disk: &mut D, count: u64) -> Result<usize, Fail>
    ensures count { IfOk result (λ events. IfSome (D.state disk.old).seen
        (λ image. events ≡ length (events_of image) + count)) }
    ensures cause { IfErr result (HasCause (D.state disk.old) (D.state disk.new) count) }
{
    let mut journal = begun(alloc, disk, count)?;
    let mut left = count;
    while left > 0 {
        match journal.append(disk, TICK, 0) {
            Ok(_) => left -= 1,
            Err(_) => return Err(Fail::Disk),
        }
    }
    Ok(journal.events().len())
}

// The words after the program's name.
fn words(rt: &HostRuntime) -> Result<Vec<String>, Fail> {
    let Ok(all) = env::args(rt) else {
        return Err(Fail::Words);
    };
    let mut words = Vec::new(rt.alloc());
    for word in all.skip(1) {
        if words.push(word).is_err() {
            return Err(Fail::NoMemory);
        }
    }
    Ok(words)
}

// Does what the words ask for.
fn run(rt: &HostRuntime) -> Result<usize, Fail> {
    let words = words(rt)?;
    let [file, count] = words.as_slice() else {
        return Err(Fail::Words);
    };
    let Some(count) = read_decimal(count.as_bytes()) else {
        return Err(Fail::Words);
    };
    let Ok(mut disk) = open_disk(rt, file.as_str(), &[]) else {
        return Err(Fail::File);
    };
    append(rt.alloc(), &mut disk, count)
}

fn main(rt: HostRuntime) -> ExitCode {
    let count = match run(&rt) {
        Ok(count) => count,
        Err(fail) => {
            let _written = eprintln!(rt; "{fail:?}");
            return ExitCode::FAILURE;
        }
    };
    let _written = println!(rt; "{count}");
    ExitCode::SUCCESS
}
