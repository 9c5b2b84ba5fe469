ghost use Rattle.std.specs.Prelude.{◌≡◌, [], ◌∷◌, IfOk, IfSome, map};
ghost use Rattle.std.specs.String.{string_bytes};
ghost use Rattle.conc_top_words.specs.Words.{AreWithin, check_of, command_named, command_of, file_pair, make_of, output_of, plan_of, repeat_of, status_of};

use crate::options::read_run;
use crate::words::{is, is_file, own_name, request_of, size_of};
use conc_types::{Name, NoMemory, RequestId, read_decimal};
use std::alloc::Global;

/// A command, with what the words behind it say.
#[derive(Drop)]
pub enum Command {
    /// `run SETUP SCRIPT CLOCK`, with the options `--threads N` and `--watch W`.
    Run {
        setup: Name,
        script: Name,
        clock: Name,

        /// How many worker threads there are: 0 for a run without workers.
        threads: u32,

        /// How many watchers look at the run: 0 for a run without watchers.
        watchers: u32,
    },
    /// `plan SETUP SCRIPT`.
    Plan {
        setup: Name,
        script: Name,
    },
    /// `check SETUP SCRIPT CLOCK HISTORY`.
    Check {
        setup: Name,
        script: Name,
        clock: Name,
        history: Name,
    },
    /// `status SETUP SCRIPT`.
    Status {
        setup: Name,
        script: Name,
    },
    /// `output SETUP SCRIPT NUMBER`.
    Output {
        setup: Name,
        script: Name,
        request: RequestId,
    },
    /// `make SEED SIZE`.
    Make {
        seed: u64,
        size: u32,
    },
    /// `repeat REPEATS`.
    Repeat {
        repeats: Name,
    },
}

// The names of a setup and a script, where these two words are such names.
fn file_pair(alloc: Global, words: &[String]) -> Result<Option<(Name, Name)>, NoMemory>
    ensures { IfOk result (λ files. files ≡ file_pair (map string_bytes words.now)) }
{
    let [setup, script] = words else {
        return Ok(None);
    };
    if !(is_file(setup.as_bytes()) && is_file(script.as_bytes())) {
        return Ok(None);
    }
    let setup = own_name(alloc, setup.as_bytes())?;
    let script = own_name(alloc, script.as_bytes())?;
    Ok(Some((setup, script)))
}

fn read_plan(alloc: Global, words: &[String]) -> Result<Option<Command>, NoMemory>
    ensures { IfOk result (λ command. command ≡ plan_of (map string_bytes words.now)) }
{
    let files = file_pair(alloc, words)?;
    Ok(files.map(|(setup, script)| Command::Plan { setup, script }))
}

// A check of these files, where these are their names.
fn check_among(
    alloc: Global,
    setup: &[u8],
    script: &[u8],
    clock: &[u8],
    history: &[u8],
) -> Result<Option<Command>, NoMemory>
    ensures { IfOk result (λ command. command
        ≡ check_of (setup.now ∷ script.now ∷ clock.now ∷ history.now ∷ [])) }
{
    if !(is_file(setup) && is_file(script) && is_file(clock) && is_file(history)) {
        return Ok(None);
    }
    Ok(Some(Command::Check {
        setup: own_name(alloc, setup)?,
        script: own_name(alloc, script)?,
        clock: own_name(alloc, clock)?,
        history: own_name(alloc, history)?,
    }))
}

fn read_check(alloc: Global, words: &[String]) -> Result<Option<Command>, NoMemory>
    ensures { IfOk result (λ command. command ≡ check_of (map string_bytes words.now)) }
{
    match words {
        [setup, script, clock, history] => check_among(
            alloc,
            setup.as_bytes(),
            script.as_bytes(),
            clock.as_bytes(),
            history.as_bytes(),
        ),
        _ => Ok(None),
    }
}

fn read_status(alloc: Global, words: &[String]) -> Result<Option<Command>, NoMemory>
    ensures { IfOk result (λ command. command ≡ status_of (map string_bytes words.now)) }
{
    let files = file_pair(alloc, words)?;
    Ok(files.map(|(setup, script)| Command::Status { setup, script }))
}

fn read_output(alloc: Global, words: &[String]) -> Result<Option<Command>, NoMemory>
    ensures { IfOk result (λ command. command ≡ output_of (map string_bytes words.now)) }
{
    let [setup, script, number] = words else {
        return Ok(None);
    };
    if !(is_file(setup.as_bytes()) && is_file(script.as_bytes())) {
        return Ok(None);
    }
    let Some(request) = request_of(number.as_bytes()) else {
        return Ok(None);
    };
    Ok(Some(Command::Output {
        setup: own_name(alloc, setup.as_bytes())?,
        script: own_name(alloc, script.as_bytes())?,
        request,
    }))
}

fn read_make(words: &[String]) -> Option<Command>
    ensures { result ≡ make_of (map string_bytes words.now) }
{
    let [seed, size] = words else {
        return None;
    };
    let seed = read_decimal(seed.as_bytes())?;
    let size = size_of(size.as_bytes())?;
    Some(Command::Make { seed, size })
}

// A repetition of the submissions of a file, where this word is its name.
fn read_repeat(alloc: Global, words: &[String]) -> Result<Option<Command>, NoMemory>
    ensures { IfOk result (λ command. command ≡ repeat_of (map string_bytes words.now)) }
{
    let [repeats] = words else {
        return Ok(None);
    };
    if !is_file(repeats.as_bytes()) {
        return Ok(None);
    }
    Ok(Some(Command::Repeat {
        repeats: own_name(alloc, repeats.as_bytes())?,
    }))
}

// The command of a name, with what the words behind it say.
#[tactic(auto, unfolding(crate::specs::Words::command_named))]
fn read_named(alloc: Global, name: &[u8], words: &[String]) -> Result<Option<Command>, NoMemory>
    ensures { IfOk result (λ command. command
        ≡ command_named name.now (map string_bytes words.now)) }
{
    if is(b"run", name) {
        read_run(alloc, words)
    } else if is(b"plan", name) {
        read_plan(alloc, words)
    } else if is(b"check", name) {
        read_check(alloc, words)
    } else if is(b"status", name) {
        read_status(alloc, words)
    } else if is(b"output", name) {
        read_output(alloc, words)
    } else if is(b"make", name) {
        Ok(read_make(words))
    } else if is(b"repeat", name) {
        read_repeat(alloc, words)
    } else {
        Ok(None)
    }
}

/// The command that these words give, and what they say behind it.
///
/// It is None exactly where they give none. A run has 0 to 32 threads and 0 to 8 watchers, a request
/// is numbered from 1, and 1 to 4,000 submissions are made. `NoMemory` tells that there was no memory.
#[tactic(auto, unfolding(crate::specs::Words::command_of))]
pub fn read_command(alloc: Global, words: &[String]) -> Result<Option<Command>, NoMemory>
    ensures read { IfOk result (λ command. command ≡ command_of (map string_bytes words.now)) }
    ensures within { IfOk result (λ command. IfSome command AreWithin) }
{
    match words.split_first() {
        Some((name, rest)) => read_named(alloc, name.as_bytes(), rest),
        None => Ok(None),
    }
}
