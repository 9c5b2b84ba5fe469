use super::bytes::number_of;
use super::call::{Given, NO_CRASHES, NO_FAILS, call};
use super::examples::RUN;
use super::watching::is_watched;
use conc_test_worked::{LIVES, MANAGERS, MONTH_END, PLAIN, SETS, Worked, worked_of};
use std::alloc::Global;
use std::process::Abort;
use std::sync::Wait;
use std::test::Fail;
use std::thread::Threads;

// What a call is given over the files of an example.
fn given_of<'a>(worked: Worked<'a>) -> Given<'a> {
    Given {
        words: RUN,
        setup: worked.setup,
        records: worked.records,
        has_header: true,
        clock_file: "a.clock",
        clock: worked.clock,
        table: worked.table,
        history: None,
        has_moment: false,
        fails: NO_FAILS,
        crashes: NO_CRASHES,
    }
}

// The run over the files of an example prints its history.
fn check_run<Rt: Abort + Threads + Wait + Sync>(
    rt: &Rt,
    alloc: Global,
    worked: Worked<'_>,
) -> Result<(), Fail> {
    let ended = call(rt, alloc, given_of(worked), &[], &[])?;
    assert_eq!(rt; ended.number, 0, "{}", worked.shows);
    assert_eq!(rt;
        ended.text.as_slice(),
        worked.history.as_bytes(),
        "{}",
        worked.shows
    );
    assert_eq!(rt; ended.line.as_slice(), b"".as_slice());
    Ok(())
}

pub(crate) fn check_runs<Rt: Abort + Threads + Wait + Sync>(
    rt: &Rt,
    alloc: Global,
) -> Result<(), Fail> {
    for examples in [PLAIN, SETS, MANAGERS, MONTH_END] {
        for example in examples.split("=====\n") {
            check_run(rt, alloc, worked_of(example).expect(rt, example))?;
        }
    }
    Ok(())
}

// A run over the files of an example with these words prints a history that the check calls finished, and behind
// it lines of so many watchers.
fn check_run_on_threads<Rt: Abort + Threads + Wait + Sync>(
    rt: &Rt,
    alloc: Global,
    worked: Worked<'_>,
    words: &str,
    watchers: u64,
) -> Result<(), Fail> {
    let given = Given {
        words,
        ..given_of(worked)
    };
    let ended = call(rt, alloc, given, &[], &[])?;
    assert_eq!(rt; ended.number, 0, "{}", worked.shows);
    let history = str::from_utf8(&ended.text)?;
    let (events, _) = history.split_once("--\n").expect(rt, history);
    let count = events.lines().count();
    assert!(rt; is_watched(history, watchers), "{history}");
    let answer = format!(in alloc; "lawful {count} finished")?;
    check_answer(rt, alloc, worked, history, &answer)
}

// Words of runs on threads, and how many watchers each has.
const ON_THREADS: [(&str, u64); 2] = [
    ("run a.toml a.csv a.clock --threads 4", 0),
    ("run a.toml a.csv a.clock --threads 4 --watch 2", 2),
];

pub(crate) fn check_runs_on_threads<Rt: Abort + Threads + Wait + Sync>(
    rt: &Rt,
    alloc: Global,
) -> Result<(), Fail> {
    for examples in [PLAIN, SETS, MANAGERS, MONTH_END] {
        for example in examples.split("=====\n") {
            let worked = worked_of(example).expect(rt, example);
            for (words, watchers) in ON_THREADS {
                check_run_on_threads(rt, alloc, worked, words, watchers)?;
            }
        }
    }
    Ok(())
}

// The check of a history over the files of an example prints or tells this answer and LF.
fn check_answer<Rt: Abort + Threads + Wait + Sync>(
    rt: &Rt,
    alloc: Global,
    worked: Worked<'_>,
    history: &str,
    answer: &str,
) -> Result<(), Fail> {
    let given = Given {
        words: "check a.toml a.csv a.clock a.history",
        history: Some(history),
        ..given_of(worked)
    };
    let mut ended = call(rt, alloc, given, &[], &[])?;
    assert_eq!(rt; ended.number, if ended.text.is_empty() { 14 } else { 0 });
    ended.text.extend_from_slice(&ended.line)?;
    assert_eq!(rt; ended.text.pop(), Some(b'\n'));
    assert_eq!(rt;
        ended.text.as_slice(),
        answer.as_bytes(),
        "{}: {history}",
        worked.shows
    );
    Ok(())
}

// The lines of a list, each with its LF, the last one only where no `!` stands behind it.
fn lines_of(alloc: Global, list: &str) -> Result<String, Fail> {
    if list.is_empty() {
        return Ok(String::new(alloc));
    }
    let lines = list.replace(alloc, "; ", "\n")?;
    Ok(match lines.strip_suffix('!') {
        Some(cut) => format!(in alloc; "{cut}")?,
        None => format!(in alloc; "{lines}\n")?,
    })
}

// The line, the old lines, the new ones and the answer of a change.
fn parts_of(change: &str) -> Option<(&str, &str, &str, &str)> {
    let (line, rest) = change.split_once(" | ")?;
    let (old, rest) = rest.split_once(" | ")?;
    let (new, answer) = rest.split_once(" | ")?;
    Some((line, old, new, answer))
}

// The history in which the old lines from this one on gave way to the new ones; None where they do not
// stand there.
fn changed(
    alloc: Global,
    history: &str,
    line: u64,
    old: &str,
    new: &str,
) -> Result<Option<String>, Fail> {
    let mut head = String::new(alloc);
    let mut rest = history;
    for _ in 1..line {
        let Some((passed, after)) = rest.split_once('\n') else {
            return Ok(None);
        };
        head.push_str(passed)?;
        head.push('\n')?;
        rest = after;
    }
    let rest = if old == "..." {
        Some("")
    } else {
        rest.strip_prefix(lines_of(alloc, old)?.as_str())
    };
    let new = lines_of(alloc, new)?;
    Ok(match rest {
        Some(rest) => Some(format!(in alloc; "{head}{new}{rest}")?),
        None => None,
    })
}

// The check of an example's history and of each change of it gives its answer.
fn check_history<Rt: Abort + Threads + Wait + Sync>(
    rt: &Rt,
    alloc: Global,
    worked: Worked<'_>,
) -> Result<(), Fail> {
    check_answer(rt, alloc, worked, worked.history, worked.answer)?;
    for change in worked.changes.lines() {
        if change.starts_with('#') {
            continue;
        }
        let (line, old, new, answer) = parts_of(change).expect(rt, change);
        let line = number_of(rt, line);
        let history = changed(alloc, worked.history, line, old, new)?.expect(rt, change);
        check_answer(rt, alloc, worked, &history, answer)?;
    }
    Ok(())
}

pub(crate) fn check_histories<Rt: Abort + Threads + Wait + Sync>(
    rt: &Rt,
    alloc: Global,
) -> Result<(), Fail> {
    for examples in [PLAIN, SETS, MANAGERS, MONTH_END, LIVES] {
        for example in examples.split("=====\n") {
            check_history(rt, alloc, worked_of(example).expect(rt, example))?;
        }
    }
    Ok(())
}
