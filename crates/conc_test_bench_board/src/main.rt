//! Measures the calls of a board: `conc_test_bench_board HANDS` with 1, 2 or 4 prints the nanoseconds of a
//! claim, a poll, a post and a collect where so many threads of hands call at the same time.
#![tactic(auto)]

mod crews;
mod lead_calls;
mod measure;
mod meeting;
mod plans;
mod times;
mod workers;

use crate::measure::measure;
use conc_types::{NoMemory, ReadFail, read_decimal};
use std::alloc::AllocError;
use std::env;
use std::process::ExitCode;

/// Why nothing is printed.
#[derive(Clone, Copy, Debug)]
pub(crate) enum Fail {
    Words,
    Plan,
    NoMemory,
    Clock,
    Answer,
}

impl From<AllocError> for Fail {
    fn from(_: AllocError) -> Self {
        Fail::NoMemory
    }
}

impl From<NoMemory> for Fail {
    fn from(_: NoMemory) -> Self {
        Fail::NoMemory
    }
}

impl From<ReadFail> for Fail {
    fn from(_: ReadFail) -> Self {
        Fail::Plan
    }
}

// How many threads of hands the word after the program's name asks for.
fn threads_asked(rt: &HostRuntime) -> Result<u32, Fail> {
    let Ok(mut words) = env::args(rt) else {
        return Err(Fail::Words);
    };
    match words.nth(1) {
        Some(word) => read_decimal(word.as_bytes())
            .filter(|threads| matches!(threads, 1 | 2 | 4))
            .map(|threads| threads as u32)
            .ok_or(Fail::Words),
        None => Err(Fail::Words),
    }
}

fn main(rt: HostRuntime) -> ExitCode {
    let measured = match threads_asked(&rt) {
        Ok(threads) => measure(&rt, rt.alloc(), threads),
        Err(fail) => Err(fail),
    };
    match measured {
        Ok(times) => {
            let _written = println!(rt; "{times}");
            ExitCode::SUCCESS
        }
        Err(fail) => {
            let _written = eprintln!(rt; "{fail:?}");
            ExitCode::FAILURE
        }
    }
}
