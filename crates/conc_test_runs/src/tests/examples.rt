//! Examples of calls as text. Between two examples stands a line `=====`. An example has lines that say what it
//! shows, and then its steps, each of them a line `== STEP` and the lines below it. They are done in their order.
//!
//! What is given, until it is given anew; before that it is `SETUP`, no record, `CLOCK` and `TABLE`:
//!
//! - `setup`, `script`, `clock`, `table`: the lines are the file `a.toml`, the records of `a.csv`, `a.clock`, or
//!   `t.csv`. Where a line ends with `\` it has no LF, `\r` is CR, `\xff` the byte 255, and a line behind `COUNT times: ` stands so often.
//!   `whole-script` is `a.csv` without the header that else stands before its records.
//! - `clock-file NAME`: the clock's file has this name in the place of `a.clock`.
//! - `moment`: the clock of the system gives 2025-03-03T10:10:01 once a call. Else it gives none.
//!
//! What is given to the next call alone:
//!
//! - `fails read NUMBER`: this read of a file fails, of those that find one, counted from 0; and so do the write of the output behind
//!   `fails write`, and the call of a disk behind `fails journal` and `fails spool`; behind `fails spool-from` that call and all later
//!   ones.
//! - `crash journal CALL CHOICE`, `crash spool CALL CHOICE`: a crash within this call of the disk, counted from 0, leaves the image with
//!   this number of those that it may leave.
//! - `journal`, `spool`: the lines change what the disk has (`change_bytes`). The disks have no byte before the first call, and
//!   then what the last one left.
//!
//! What is done: `call WORDS`, or `run`, which is a call with the words `RUN`. The lines say what it shows.
//!
//! What the last call has to have ended with:
//!
//! - `ends NUMBER`: this status and, where the lines are not empty, with the line that tells the exit. A call whose status is not 0
//!   printed nothing.
//! - `other-stamps FOUND GIVEN`: it told a command of another script, which has these stamps in the journal and in the script.
//! - `prints`: the lines are its output, where a `*` stands for any byte. `prints-lines COUNT`: so many lines.
//! - `watched COUNT`: its output is the lines, a history, and behind it lines of so many watchers (`is_watched`).
//! - `judged`: a check of its output over the same files answers with the lines.
//! - `journal-length COUNT`: so many bytes in the journal. `journal-at PLACE`: the bytes that the lines make stand there.
//! - `spool-text`: the lines are what the spool has.
//! - `disks-stay`: both disks have what the call found.
//! - `goes-on`: the journal begins with the records that the call found in it; of a journal of version 1 the stamps may be others.
//! - `starts-once`: no request that ended in its output starts again.
//! - `finished`: a check of its output over the same files calls it lawful and finished.

use super::bytes::{change_bytes, number_of, text_of};
use super::call::{Crashes, Ended, Fails, Given, NO_CRASHES, NO_FAILS, call};
use super::watching::is_watched;
use std::alloc::Global;
use std::process::Abort;
use std::sync::Wait;
use std::test::Fail;
use std::thread::Threads;

const SETUP: &str = r#"tables = ["t.csv"]
[[program]]
name = "P"
table = "t.csv"
group = "k"
sum = "v"
[[incompatible]]
program = "P"
with = "P"
[[manager]]
name = "M"
"#;

const CLOCK: &str = "2025-03-03T09:00:00\n";

const TABLE: &str = "k,v\na,10\nb,20\na,5\n";

pub(crate) const RUN: &str = "run a.toml a.csv a.clock --threads 0";

// How far an example is: what is given, and what the last call ended with.
#[derive(Drop)]
struct Example<'a> {
    given: Given<'a>,
    stayed: bool,
    went_on: bool,
    ended: Ended,
}

fn begun(alloc: Global) -> Example<'static> {
    Example {
        given: Given {
            words: RUN,
            setup: SETUP,
            records: "",
            has_header: true,
            clock_file: "a.clock",
            clock: CLOCK,
            table: TABLE,
            history: None,
            has_moment: false,
            fails: NO_FAILS,
            crashes: NO_CRASHES,
        },
        stayed: true,
        went_on: true,
        ended: Ended {
            number: 0,
            stamps: None,
            text: Vec::new(alloc),
            line: Vec::new(alloc),
            journal: Vec::new(alloc),
            spool: Vec::new(alloc),
        },
    }
}

// Whether a journal of version 2 has 32 bytes of one of version 1, at this place: the second half of the header has the digest, and in
// a command's record all but its stamp stays.
fn is_migrated(place: usize, old: &[u8], new: &[u8]) -> bool {
    if place == 1 {
        old.get(..16) == new.get(..16)
    } else {
        old.get(1) == Some(&2) && old.get(..12) == new.get(..12) && old.get(20..) == new.get(20..)
    }
}

// Whether a journal has the header and each record, behind an open gate, that was found in it.
fn goes_on(found: &[u8], journal: &[u8]) -> bool {
    if found.get(64) != Some(&1) {
        return true;
    }
    let is_old = found.get(63) == Some(&0);
    for (place, record) in found.chunks(32).enumerate() {
        if place > 1 && record.first() != Some(&1) {
            break;
        }
        let from = place.saturating_mul(32);
        let Some(kept) = journal.get(from..from.saturating_add(record.len())) else {
            return false;
        };
        if kept != record && !(is_old && is_migrated(place, record, kept)) {
            return false;
        }
    }
    true
}

// Whether no request starts behind a line that ends it.
fn starts_once(alloc: Global, text: &str) -> Result<bool, Fail> {
    let mut starts = Vec::new(alloc);
    for line in text.lines() {
        if starts
            .iter()
            .any(|start: &String| line.starts_with(start.as_str()))
        {
            return Ok(false);
        }
        if let Some((number, _)) = line
            .strip_prefix("end ")
            .and_then(|end| end.split_once(' '))
        {
            starts.push(format!(in alloc; "start {number} ")?)?;
        }
    }
    Ok(true)
}

fn do_call<Rt: Abort + Threads + Wait + Sync>(
    rt: &Rt,
    alloc: Global,
    example: &mut Example<'_>,
) -> Result<(), Fail> {
    let found = &example.ended;
    let ended = call(rt, alloc, example.given, &found.journal, &found.spool)?;
    example.stayed = ended.journal.as_slice() == found.journal.as_slice()
        && ended.spool.as_slice() == found.spool.as_slice();
    example.went_on = goes_on(&found.journal, &ended.journal);
    example.ended = ended;
    example.given.fails = NO_FAILS;
    example.given.crashes = NO_CRASHES;
    Ok(())
}

// Has a read, a write or a call of a disk fail.
fn fail(rt: &impl Abort, fails: &mut Fails, what: &str) {
    let (word, number) = what.split_once(' ').expect(rt, what);
    let number = Some(number_of(rt, number));
    match word {
        "read" => fails.read = number,
        "write" => fails.write = number,
        "journal" => fails.journal = number,
        "spool" => fails.spool = number,
        _ => {
            assert_eq!(rt; word, "spool-from");
            fails.spool_from = number;
        }
    }
}

// Has a crash come within a call of a disk.
fn crash(rt: &impl Abort, crashes: &mut Crashes, what: &str) {
    let (word, numbers) = what.split_once(' ').expect(rt, what);
    let (call, choice) = numbers.split_once(' ').expect(rt, what);
    let place = (number_of(rt, call), number_of(rt, choice));
    match word {
        "journal" => crashes.journal = place,
        _ => {
            assert_eq!(rt; word, "spool");
            crashes.spool = place;
        }
    }
}

// Whether this text has these bytes, where a `*` of it stands for any byte.
fn is_like(text: &str, bytes: &[u8]) -> bool {
    text.len() == bytes.len()
        && text
            .bytes()
            .zip(bytes)
            .all(|(wanted, found)| wanted == b'*' || wanted == *found)
}

// Whether a check of what the last call printed answers with these lines.
fn is_judged<Rt: Threads + Wait + Sync>(
    rt: &Rt,
    alloc: Global,
    example: &Example<'_>,
    lines: &str,
) -> Result<bool, Fail> {
    let Ok(history) = str::from_utf8(&example.ended.text) else {
        return Ok(false);
    };
    let given = Given {
        words: "check a.toml a.csv a.clock a.history",
        history: Some(history),
        ..example.given
    };
    let ended = call(rt, alloc, given, &[], &[])?;
    Ok(ended.number == 0 && ended.text.as_slice() == lines.as_bytes())
}

// Whether a check of what the last call printed calls it lawful and finished.
fn is_finished<Rt: Threads + Wait + Sync>(
    rt: &Rt,
    alloc: Global,
    example: &Example<'_>,
) -> Result<bool, Fail> {
    let text = str::from_utf8(&example.ended.text)?;
    let count = text.lines().take_while(|line| *line != "--").count();
    let answer = format!(in alloc; "lawful {count} finished\n")?;
    is_judged(rt, alloc, example, &answer)
}

// Whether a call printed these lines, which are a history, and behind them lines of so many watchers.
fn has_watched(alloc: Global, ended: &Ended, lines: &str, watchers: u64) -> Result<bool, Fail> {
    let Ok(text) = str::from_utf8(&ended.text) else {
        return Ok(false);
    };
    let history = text_of(alloc, lines)?;
    Ok(match text.strip_prefix(history.as_str()) {
        Some(behind) => behind.starts_with("watch ") && is_watched(text, watchers),
        None => false,
    })
}

// Whether the last call ended with what a step says; None where it is no such step.
fn is_met<Rt: Abort + Threads + Wait + Sync>(
    rt: &Rt,
    alloc: Global,
    example: &Example<'_>,
    step: &str,
    lines: &str,
) -> Result<Option<bool>, Fail> {
    let ended = &example.ended;
    let (word, rest) = step.split_once(' ').unwrap_or((step, ""));
    Ok(Some(match word {
        "ends" => {
            u64::from(ended.number) == number_of(rt, rest)
                && ended.line.as_slice() == lines.as_bytes()
                && (ended.number == 0 || ended.text.is_empty())
        }
        "other-stamps" => {
            let (found, given) = rest.split_once(' ').expect(rt, step);
            ended.stamps == Some((number_of(rt, found), number_of(rt, given)))
        }
        "prints" => is_like(&text_of(alloc, lines)?, &ended.text),
        "watched" => has_watched(alloc, ended, lines, number_of(rt, rest))?,
        "judged" => is_judged(rt, alloc, example, lines)?,
        "prints-lines" => {
            let count = ended.text.iter().filter(|byte| **byte == b'\n').count();
            count as u64 == number_of(rt, rest)
        }
        "journal-length" => ended.journal.len() as u64 == number_of(rt, rest),
        "journal-at" => {
            let mut bytes = Vec::new(alloc);
            change_bytes(rt, alloc, &mut bytes, lines)?;
            match ended.journal.get(number_of(rt, rest) as usize..) {
                Some(found) => found.starts_with(&bytes),
                None => false,
            }
        }
        "spool-text" => ended.spool.as_slice() == lines.as_bytes(),
        "disks-stay" => example.stayed,
        "goes-on" => example.went_on,
        "starts-once" => starts_once(alloc, str::from_utf8(&ended.text)?)?,
        "finished" => is_finished(rt, alloc, example)?,
        _ => return Ok(None),
    }))
}

// Takes in what a step gives or does.
fn take<'a, Rt: Abort + Threads + Wait + Sync>(
    rt: &Rt,
    alloc: Global,
    example: &mut Example<'a>,
    step: &'a str,
    lines: &'a str,
) -> Result<(), Fail> {
    let (word, rest) = step.split_once(' ').unwrap_or((step, ""));
    match word {
        "setup" => example.given.setup = lines,
        "script" => example.given.records = lines,
        "whole-script" => {
            example.given.records = lines;
            example.given.has_header = false;
        }
        "clock" => example.given.clock = lines,
        "table" => example.given.table = lines,
        "clock-file" => example.given.clock_file = rest,
        "moment" => example.given.has_moment = true,
        "fails" => fail(rt, &mut example.given.fails, rest),
        "crash" => crash(rt, &mut example.given.crashes, rest),
        "journal" => change_bytes(rt, alloc, &mut example.ended.journal, lines)?,
        "spool" => change_bytes(rt, alloc, &mut example.ended.spool, lines)?,
        "run" => {
            example.given.words = RUN;
            do_call(rt, alloc, example)?;
        }
        _ => {
            assert_eq!(rt; word, "call");
            example.given.words = rest;
            do_call(rt, alloc, example)?;
        }
    }
    Ok(())
}

// Does each step of an example, and gives what its last call ended with.
pub(crate) fn check_example<Rt: Abort + Threads + Wait + Sync>(
    rt: &Rt,
    alloc: Global,
    text: &str,
) -> Result<Ended, Fail> {
    let (shows, steps) = text.split_once("\n== ").expect(rt, text);
    let mut example = begun(alloc);
    for step in steps.split("== ") {
        let (step, lines) = step.split_once('\n').expect(rt, step);
        match is_met(rt, alloc, &example, step, lines)? {
            Some(met) => {
                let ended = &example.ended;
                let text = str::from_utf8(&ended.text);
                let line = str::from_utf8(&ended.line);
                let number = ended.number;
                assert!(rt;
                    met,
                    "{shows}: {step}: {lines:?}, and not {number} {line:?} {text:?}"
                );
            }
            None => take(rt, alloc, &mut example, step, lines)?,
        }
    }
    Ok(example.ended)
}

pub(crate) fn check_examples<Rt: Abort + Threads + Wait + Sync>(
    rt: &Rt,
    alloc: Global,
    examples: &str,
) -> Result<(), Fail> {
    for example in examples.split("=====\n") {
        let _ = check_example(rt, alloc, example)?;
    }
    Ok(())
}
