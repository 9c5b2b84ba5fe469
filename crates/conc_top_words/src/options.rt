ghost use Rattle.std.specs.Prelude.{◌≡◌, ◌∷◌, ◌++◌, [], IfOk, None, OnOk, map};
ghost use Rattle.std.specs.Option.{option_map};
ghost use Rattle.std.specs.String.{string_bytes};
ghost use Rattle.conc_top_words.specs.Saying.{shown};
ghost use Rattle.conc_top_words.specs.Words as spec;
ghost use Rattle.conc_top_words.specs.Words.{nothing_said, run_of};

use crate::Command;
use crate::words::{is, is_positional, number_between, own_name};
use conc_types::{NoMemory, is_name};
use std::alloc::Global;

/// How many worker threads a run has where it is not said.
const DEFAULT_THREADS: u32 = 4;

/// How many worker threads a run has at most.
const MOST_THREADS: u32 = 32;

/// How many watchers a run has at most.
const MOST_WATCHERS: u32 = 8;

// How many words stand behind `run` at most.
const MOST_WORDS: usize = 7;

// What the words behind `run` say: the values of the options, and the other words, each in order.
#[derive(Drop)]
pub(crate) struct Said<'a> {
    threads: Vec<&'a [u8]>,
    watch: Vec<&'a [u8]>,
    files: Vec<&'a [u8]>,
}

// What stands behind the beginning of a word, if it begins so.
fn behind<'a>(text: &[u8], word: &'a [u8]) -> Option<&'a [u8]>
    ensures { option_map (λ w. w.now) result ≡ spec.behind text.now word.now }
{
    word.strip_prefix(text)
}

// Whether a word is an option whose value is the next word.
fn takes_next(word: &[u8]) -> bool
    ensures { result ≡ spec.takes_next word.now }
{
    is(b"--threads", word) || is(b"--watch", word)
}

// Puts a word behind others.
fn push<'a>(words: &mut Vec<&'a [u8]>, word: &'a [u8]) -> Result<(), NoMemory>
    ensures { OnOk result (map (λ w. w.now) words.new.items
        ≡ map (λ w. w.now) words.old.items ++ word.now ∷ []) }
{
    words.push(word)?;
    Ok(())
}

impl<'a> Said<'a> {
    ghost use Rattle.std.specs.Prelude.{IsFalse, IsTrue, Option};
    ghost use Rattle.conc_top_words.specs.Saying.{before};
    ghost use Rattle.conc_top_words.specs.Words.{Said as Meant};

    fn nothing(alloc: Global) -> Self
        ensures { shown result ≡ nothing_said }
    {
        Said {
            threads: Vec::new(alloc),
            watch: Vec::new(alloc),
            files: Vec::new(alloc),
        }
    }

    fn add_threads(&mut self, value: &'a [u8]) -> Result<(), NoMemory>
        ensures { OnOk result ((more : Meant) → before (shown self.new) more
            ≡ before (shown self.old) (spec.with_threads value.now more)) }
    {
        push(&mut self.threads, value)
    }

    fn add_watch(&mut self, value: &'a [u8]) -> Result<(), NoMemory>
        ensures { OnOk result ((more : Meant) → before (shown self.new) more
            ≡ before (shown self.old) (spec.with_watch value.now more)) }
    {
        push(&mut self.watch, value)
    }

    fn add_file(&mut self, word: &'a [u8]) -> Result<(), NoMemory>
        ensures { OnOk result ((more : Meant) → before (shown self.new) more
            ≡ before (shown self.old) (spec.with_file word.now more)) }
    {
        push(&mut self.files, word)
    }

    // Adds an option with its value.
    fn add_option(&mut self, option: &[u8], value: &'a [u8]) -> Result<(), NoMemory>
        ensures { OnOk result ((more : Meant) → before (shown self.new) more
            ≡ before (shown self.old) (spec.with_option option.now value.now more)) }
    {
        if is(b"--threads", option) {
            self.add_threads(value)
        } else {
            self.add_watch(value)
        }
    }

    // Adds a word that is a file or an option with its value. False where it is neither.
    fn add_word(&mut self, word: &'a [u8]) -> Result<bool, NoMemory>
        ensures added { IfOk result (λ added. IsTrue added → (more : Option Meant)
            → option_map (before (shown self.new)) more
            ≡ option_map (before (shown self.old)) (spec.said_by word.now more)) }
        ensures neither { IfOk result (λ added. IsFalse added → (more : Option Meant)
            → spec.said_by word.now more ≡ None) }
    {
        if let Some(value) = behind(b"--threads=", word) {
            self.add_threads(value)?;
        } else if let Some(value) = behind(b"--watch=", word) {
            self.add_watch(value)?;
        } else if is_positional(word) {
            self.add_file(word)?;
        } else {
            return Ok(false);
        }
        Ok(true)
    }
}

// What words behind `run` say.
fn read_said<'a>(alloc: Global, words: &'a [String]) -> Result<Option<Said<'a>>, NoMemory>
    ensures { IfOk result (λ s. option_map shown s ≡ spec.said (map string_bytes words.now)) }
{
    let mut said = Said::nothing(alloc);
    let mut rest = words;
    while let Some((word, behind)) = rest.split_first() {
        rest = behind;
        if !takes_next(word.as_bytes()) {
            if !said.add_word(word.as_bytes())? {
                return Ok(None);
            }
            continue;
        }
        let Some((value, behind)) = rest.split_first() else {
            return Ok(None);
        };
        rest = behind;
        said.add_option(word.as_bytes(), value.as_bytes())?;
    }
    Ok(Some(said))
}

// How many threads the option gives: as many as its value says, or the default where it is not given.
fn threads_of(values: &[&[u8]]) -> Option<u32>
    ensures { result ≡ spec.threads_of (map (λ w. w.now) values.now) }
{
    match values {
        [] => Some(DEFAULT_THREADS),
        [value] => number_between(0, MOST_THREADS, value),
        _ => None,
    }
}

// How many watchers the option gives: as many as its value says, or none where it is not given.
fn watchers_of(values: &[&[u8]]) -> Option<u32>
    ensures { result ≡ spec.watchers_of (map (λ w. w.now) values.now) }
{
    match values {
        [] => Some(0),
        [value] => number_between(0, MOST_WATCHERS, value),
        _ => None,
    }
}

// A run with so many threads and watchers, where these files are the names of its setup, its script
// and its clock.
fn run_among(
    alloc: Global,
    threads: u32,
    watchers: u32,
    files: &[&[u8]],
) -> Result<Option<Command>, NoMemory>
    ensures { IfOk result (λ command. command
        ≡ spec.run_among threads watchers (map (λ w. w.now) files.now)) }
{
    let [setup, script, clock] = files else {
        return Ok(None);
    };
    if !(is_name(setup) && is_name(script) && is_name(clock)) {
        return Ok(None);
    }
    Ok(Some(Command::Run {
        setup: own_name(alloc, setup)?,
        script: own_name(alloc, script)?,
        clock: own_name(alloc, clock)?,
        threads,
        watchers,
    }))
}

fn run_said(alloc: Global, said: &Said<'_>) -> Result<Option<Command>, NoMemory>
    ensures { IfOk result (λ command. command ≡ spec.run_said (shown said.now)) }
{
    let Some(threads) = threads_of(said.threads.as_slice()) else {
        return Ok(None);
    };
    let Some(watchers) = watchers_of(said.watch.as_slice()) else {
        return Ok(None);
    };
    run_among(alloc, threads, watchers, said.files.as_slice())
}

/// The run that these words behind `run` ask for: `SETUP SCRIPT CLOCK`, and anywhere among them
/// `--threads N`, with N from 0 to 32, and `--watch W`, with W from 0 to 8, each of the two once or
/// not at all.
pub(crate) fn read_run(alloc: Global, words: &[String]) -> Result<Option<Command>, NoMemory>
    ensures { IfOk result (λ command. command ≡ run_of (map string_bytes words.now)) }
{
    if words.len() > MOST_WORDS {
        return Ok(None);
    }
    match read_said(alloc, words)? {
        Some(said) => run_said(alloc, &said),
        None => Ok(None),
    }
}
