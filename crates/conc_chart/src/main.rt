//! The program: it reads the files that the words name, writes what is made of them, tells a fault on
//! standard error, and ends with the exit's number.
#![tactic(auto)]

mod faults;
mod inputs;
mod making;

use conc_show_model::{Chart, ChartFail, ChartFile, Words, read_chart, read_words};
use conc_show_plan::read_planned;
use conc_types::NoMemory;
use faults::put_fault;
use inputs::{InputFail, read_input};
use making::made;
use std::env::{self, VarError};
use std::io::{self, ErrorKind, IsTerminal, Write};
use std::process::ExitCode;

/// How the program ends.
#[derive(Clone, Copy)]
enum Exit {
    Done,
    Refused,
    Usage,
    Stopped,
}

impl Exit {
    fn number(self) -> u8 {
        match self {
            Exit::Done => 0,
            Exit::Refused => 1,
            Exit::Usage => 2,
            Exit::Stopped => 3,
        }
    }
}

/// Why the program writes no form.
#[derive(Clone, Copy)]
enum Fault {
    Unreadable(ChartFile),
    NoChart(ChartFail),
    NotWritten,
}

impl From<ChartFail> for Fault {
    fn from(fail: ChartFail) -> Self {
        Fault::NoChart(fail)
    }
}

impl From<NoMemory> for Fault {
    fn from(_: NoMemory) -> Self {
        Fault::NoChart(ChartFail::NoMemory)
    }
}

// The words after the program's name.
fn words(rt: &HostRuntime) -> io::Result<Vec<String>> {
    let mut words = Vec::new(rt.alloc());
    for word in env::args(rt)?.skip(1) {
        words.push(word)?;
    }
    Ok(words)
}

// Tells why a file is refused, where there is memory for it.
fn refuse(rt: &HostRuntime, file: &[u8], line: Option<u64>, cause: &[u8]) -> Exit {
    let mut text = Vec::new(rt.alloc());
    match put_fault(&mut text, file, line, cause) {
        Ok(()) => {
            let _written = rt.stderr().write_all(&text);
            Exit::Refused
        }
        Err(_) => Exit::Stopped,
    }
}

fn is_input(name: &[u8]) -> bool {
    name == b"-".as_slice()
}

// The name of a file; the history is on standard input where it is not named.
fn file_name<'a>(words: Words<'a>, file: ChartFile) -> &'a [u8] {
    let name = match file {
        ChartFile::History => words.history,
        ChartFile::Plan => words.plan,
        ChartFile::Script => words.script,
    };
    name.unwrap_or(b"-")
}

// Tells why there is no form.
fn tell(rt: &HostRuntime, words: Words<'_>, fault: Fault) -> Exit {
    match fault {
        Fault::Unreadable(file) => refuse(rt, file_name(words, file), None, b"cannot be read"),
        Fault::NoChart(ChartFail::Refused(refusal)) => {
            let name = file_name(words, refusal.file);
            refuse(rt, name, refusal.line, refusal.why.text())
        }
        Fault::NoChart(ChartFail::NoMemory) | Fault::NotWritten => Exit::Stopped,
    }
}

fn read(rt: &HostRuntime, words: Words<'_>, file: ChartFile) -> Result<Vec<u8>, Fault> {
    match read_input(rt, file_name(words, file)) {
        Ok(bytes) => Ok(bytes),
        Err(InputFail::Unreadable) => Err(Fault::Unreadable(file)),
        Err(InputFail::NoMemory) => Err(Fault::NoChart(ChartFail::NoMemory)),
    }
}

// The bytes of a file. Standard input cannot be read where another file is it.
fn read_other(
    rt: &HostRuntime,
    words: Words<'_>,
    file: ChartFile,
    is_taken: bool,
) -> Result<Vec<u8>, Fault> {
    if is_taken && is_input(file_name(words, file)) {
        return Err(Fault::Unreadable(file));
    }
    read(rt, words, file)
}

// Adds what the plan and the script tell. The plan is judged before the script is read; a script
// without a plan tells nothing.
fn add_plan(rt: &HostRuntime, words: Words<'_>, chart: &mut Chart) -> Result<(), Fault> {
    let from_history = is_input(file_name(words, ChartFile::History));
    if words.plan.is_none() {
        if words.script.is_some() {
            let _script = read_other(rt, words, ChartFile::Script, from_history)?;
        }
        return Ok(());
    }
    let listing = read_other(rt, words, ChartFile::Plan, from_history)?;
    chart.planned = read_planned(rt.alloc(), listing.as_slice(), None)?;
    if words.script.is_some() {
        let is_taken = from_history || is_input(file_name(words, ChartFile::Plan));
        let script = read_other(rt, words, ChartFile::Script, is_taken)?;
        chart.planned = read_planned(rt.alloc(), listing.as_slice(), Some(script.as_slice()))?;
    }
    Ok(())
}

// Whether colours are wanted: standard output is a terminal, and NO_COLOR is not set, or empty.
fn wants_colours(rt: &HostRuntime) -> bool {
    match env::var(rt, "NO_COLOR") {
        Ok(value) => value.is_empty() && rt.stdout().is_terminal(),
        Err(VarError::NotPresent) => rt.stdout().is_terminal(),
        Err(_) => false,
    }
}

// Writes the form that the words ask for.
fn write_form(rt: &HostRuntime, words: Words<'_>) -> Result<(), Fault> {
    let history = read(rt, words, ChartFile::History)?;
    let mut chart = read_chart(rt.alloc(), &history)?;
    add_plan(rt, words, &mut chart)?;
    let bytes = made(rt.alloc(), words.form, wants_colours(rt), &chart)?;
    let mut out = rt.stdout();
    if out.write_all(&bytes).is_err() || out.flush().is_err() {
        return Err(Fault::NotWritten);
    }
    Ok(())
}

// Does what the words ask for.
fn exit_of(rt: &HostRuntime) -> Exit {
    let words = match words(rt) {
        Ok(words) => words,
        Err(error) if error.kind() == ErrorKind::InvalidData => return Exit::Usage,
        Err(_) => return Exit::Stopped,
    };
    match read_words(words.as_slice()) {
        Some(words) => match write_form(rt, words) {
            Ok(()) => Exit::Done,
            Err(fault) => tell(rt, words, fault),
        },
        None => Exit::Usage,
    }
}

fn main(rt: HostRuntime) -> ExitCode {
    ExitCode::from(exit_of(&rt).number())
}
