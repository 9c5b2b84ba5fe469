//! A call of a disk, of the shelf or of the sink fails, or a crash comes within it, and the next run goes on.

use super::call::MANY_CALLS;
use super::examples::check_example;
use std::alloc::Global;
use std::process::Abort;
use std::sync::Wait;
use std::test::Fail;
use std::thread::Threads;

// Two requests of a program that excludes itself.
const TWO_REQUESTS: &str = r#"a program excludes itself
== script
2025-03-03T09:00:00,submit,P,ann,,,,
2025-03-03T09:00:00,submit,P,ann,,,,
"#;

// What a single failing call is tried on, where SCOPE is a scope of an entry.
const ROWS: [&str; 4] = [
    r#"a program waits for an open set that it excludes with scope SCOPE
== setup
tables = ["t.csv"]
program = [
  { name = "Q", table = "t.csv", group = "k", sum = "v" },
  { name = "R", table = "t.csv", group = "k", sum = "v" },
  { name = "X", table = "t.csv", group = "k", sum = "v" },
]
incompatible = [{ program = "X", with = "S", scope = "SCOPE" }]
manager = [{ name = "M" }]
[[set]]
name = "S"
stage = [{ name = "One", members = ["Q"], on_success = "Two" }, { name = "Two", members = ["R"] }]
== script
2025-03-03T09:00:00,submit,S,ann,,,,
2025-03-03T09:00:00,submit,X,ann,,,,
"#,
    r#"a program is a member of a set that it excludes with scope SCOPE
== setup
tables = ["t.csv"]
program = [
  { name = "Q", table = "t.csv", group = "k", sum = "v" },
  { name = "X", table = "t.csv", group = "k", sum = "v" },
]
incompatible = [{ program = "X", with = "S", scope = "SCOPE" }]
manager = [{ name = "M" }]
[[set]]
name = "S"
stage = [{ name = "One", members = ["Q", "X"] }]
== script
2025-03-03T09:00:00,submit,S,ann,,,,
"#,
    r#"a request ran at a crash, and its program has no mark for restart
== setup
tables = ["t.csv"]
program = [{ name = "P", table = "t.csv", group = "k", sum = "v" }]
manager = [{ name = "M" }]
== script
2025-03-03T09:00:00,submit,P,ann,,,,
== run
== journal
first 192
bytes 0
"#,
    r#"a request ran at a crash, and its program has the mark for restart
== setup
tables = ["t.csv"]
program = [{ name = "P", table = "t.csv", group = "k", sum = "v", restart = true }]
manager = [{ name = "M" }]
== script
2025-03-03T09:00:00,submit,P,ann,,,,
== run
== journal
first 192
bytes 0
"#,
];

// A journal of version 1, whose first request ran at a crash: its run brings it to version 2 before it goes on.
const OF_VERSION_1: &str = r#"a journal of version 1 has a request that ran at a crash
== script
2025-03-03T09:00:00,submit,P,ann,,,,
2025-03-03T09:00:00,submit,P,ann,,,,
== journal
bytes 1
text conc journal 1
bytes 10
bytes 225 255 188 191 254 4 216 38 249 172 44 86 109 234 255 168 30 148 168 110 32 240 253 182 130 119 162 245 120 24 89 173
zeros 16
bytes 1 1 0 0 0 0 0 0 0 0 0 0 0 0 0 14 223 87 102 144 0 0 0 0 0 0 0 0 0 0 0 0
bytes 1 2 0 0 0 0 0 1 0 0 0 0 0 0 0 0 0 0 0 0 0 0 0 0 0 0 0 0 0 0 0 0
bytes 1 2 0 0 0 0 0 2 0 0 0 0 0 0 0 0 0 0 0 0 0 0 0 0 0 0 0 0 0 0 0 0
bytes 1 6 0 0 0 0 0 1 0 0 0 0 0 0 0 0 0 0 0 0 0 0 0 0 0 0 0 0 0 0 0 0
bytes 1 7 0 0 0 0 0 1 0 0 0 0 0 0 0 0 0 0 0 0 0 0 0 0 0 0 0 0 0 0 0 0
bytes 0
"#;

// The journal then has the base digest, whose version a crash may leave as any value but 0, and the stamps of the two commands that were
// done; and the script may grow.
const OF_VERSION_2: &str = r#"== journal-at 0
bytes 1
text conc journal 1
bytes 10
bytes 225 255 188 191 254 4 216 38 249 172 44 86 109 234 255 168 30 148 168 110 32 240 253 182 130 119 162 245 120 24 89 173
bytes 79 35 50 141 156 136 27 76 161 140 213 97 212 242 162
== journal-at 64
bytes 1 1 0 0 0 0 0 0 0 0 0 0 0 0 0 14 223 87 102 144 0 0 0 0 0 0 0 0 0 0 0 0
bytes 1 2 0 0 0 0 0 1 0 0 0 0 28 114 212 251 147 134 3 194 0 0 0 0 0 0 0 0 0 0 0 0
bytes 1 2 0 0 0 0 0 2 0 0 0 0 196 223 247 107 215 158 48 8 0 0 0 0 0 0 0 0 0 0 0 0
== script
2025-03-03T09:00:00,submit,P,ann,,,,
2025-03-03T09:00:00,submit,P,ann,,,,
2025-03-03T10:00:00,submit,P,ann,,,,
== call status a.toml a.csv
== ends 0
"#;

// Of the runs behind a crash or a fault some have no workers, and some 4.
const COUNTS: [&str; 2] = ["0", "4"];

// The next run, which goes on from what it finds.
const GOES_ON: &str = r#"== call run a.toml a.csv a.clock --threads THREADS
== ends 0
== goes-on
== starts-once
== finished
"#;

// Whether the run goes on where a call of a kind fails, as one behind its last does; else it ends with the status that such a
// fault has.
fn fails<Rt: Abort + Threads + Wait + Sync>(
    rt: &Rt,
    alloc: Global,
    row: &str,
    call: &str,
    status: u8,
) -> Result<bool, Fail> {
    let text = format!(in alloc; "{row}== fails {call}\n== run\n")?;
    let number = check_example(rt, alloc, &text)?.number;
    assert!(rt; number == 0 || number == status, "{text}");
    Ok(number == status)
}

// How many calls of a kind the run of an example makes: each of them fails it, and the next one does not.
fn calls_of<Rt: Abort + Threads + Wait + Sync>(
    rt: &Rt,
    alloc: Global,
    row: &str,
    kind: &str,
    status: u8,
) -> Result<u64, Fail> {
    for calls in 0..MANY_CALLS {
        if !fails(
            rt,
            alloc,
            row,
            &format!(in alloc; "{kind} {calls}")?,
            status,
        )? {
            return Ok(calls);
        }
    }
    Ok(MANY_CALLS)
}

// Where a crash leaves a journal that is not begun, the next run too comes to a crash, in each of its first eight calls, and a third
// one goes on.
fn check_second_crash<Rt: Abort + Threads + Wait + Sync>(
    rt: &Rt,
    alloc: Global,
    crash: &str,
    goes_on: &str,
) -> Result<(), Fail> {
    for call in 0..8 {
        for choice in 0..8 {
            let twice = format!(in alloc;
                "{crash}== crash journal {call} {choice}\n== run\n{goes_on}"
            )?;
            let _ = check_example(rt, alloc, &twice)?;
        }
    }
    Ok(())
}

// A crash within a call of the journal's disk, with one choice among the images that it may leave: the next run goes on. SEEN has the
// images of journals not begun that were tried.
fn check_crash_of_journal<Rt: Abort + Threads + Wait + Sync>(
    rt: &Rt,
    alloc: Global,
    row: &str,
    place: (u64, u64),
    goes_on: &str,
    seen: &mut Vec<Vec<u8>>,
) -> Result<(), Fail> {
    let (call, choice) = place;
    let crash = format!(in alloc; "{row}== crash journal {call} {choice}\n== run\n")?;
    let _ = check_example(rt, alloc, &format!(in alloc; "{crash}{goes_on}")?)?;
    let image = check_example(rt, alloc, &crash)?.journal;
    if image.first() == Some(&1) || seen.iter().any(|one| one.as_slice() == image.as_slice()) {
        return Ok(());
    }
    seen.push(image)?;
    check_second_crash(rt, alloc, &crash, goes_on)
}

// A crash within each call of the journal's disk, of which there are so many at least. The run behind it ends with what is said.
fn check_crashes_of<Rt: Abort + Threads + Wait + Sync>(
    rt: &Rt,
    alloc: Global,
    row: &str,
    least: u64,
    ends: &str,
) -> Result<(), Fail> {
    let calls = calls_of(rt, alloc, row, "journal", 7)?;
    assert!(rt; calls >= least, "{calls}");
    let mut seen = Vec::new(alloc);
    for threads in COUNTS {
        let run = GOES_ON.replace(alloc, "THREADS", threads)?;
        let goes_on = format!(in alloc; "{run}{ends}")?;
        for call in 0..calls {
            for choice in 0..8 {
                check_crash_of_journal(rt, alloc, row, (call, choice), &goes_on, &mut seen)?;
            }
        }
    }
    Ok(())
}

pub(crate) fn check_crashes_of_journal<Rt: Abort + Threads + Wait + Sync>(
    rt: &Rt,
    alloc: Global,
) -> Result<(), Fail> {
    check_crashes_of(rt, alloc, TWO_REQUESTS, 20, "")
}

// Where the crash came, each image has the records of the old journal, and the next run leaves one of version 2.
pub(crate) fn check_crashes_of_migration<Rt: Abort + Threads + Wait + Sync>(
    rt: &Rt,
    alloc: Global,
) -> Result<(), Fail> {
    check_crashes_of(rt, alloc, OF_VERSION_1, 20, OF_VERSION_2)
}

// A call of the spool's disk fails, and all later ones, and of the images that a crash within it may leave the next run finds each one.
fn check_crash_of_spool<Rt: Abort + Threads + Wait + Sync>(
    rt: &Rt,
    alloc: Global,
    call: u64,
    goes_on: &str,
) -> Result<(), Fail> {
    for choice in 0..8 {
        let stopped = format!(in alloc;
            "{TWO_REQUESTS}== fails spool-from {call}\n== crash spool {call} {choice}\n== run\n== ends 7\ndisk fault: spool\n{goes_on}"
        )?;
        let _ = check_example(rt, alloc, &stopped)?;
    }
    Ok(())
}

pub(crate) fn check_crashes_of_spool<Rt: Abort + Threads + Wait + Sync>(
    rt: &Rt,
    alloc: Global,
) -> Result<(), Fail> {
    let calls = calls_of(rt, alloc, TWO_REQUESTS, "spool", 7)?;
    assert!(rt; calls >= 4, "{calls}");
    for threads in COUNTS {
        let goes_on = GOES_ON.replace(alloc, "THREADS", threads)?;
        for call in 0..calls {
            check_crash_of_spool(rt, alloc, call, &goes_on)?;
        }
    }
    Ok(())
}

// Each single read of a file, write of the output and call of a disk fails, and the next run goes on.
fn check_faults_of<Rt: Abort + Threads + Wait + Sync>(
    rt: &Rt,
    alloc: Global,
    row: &str,
    goes_on: &str,
) -> Result<(), Fail> {
    for (kind, status, least) in [
        ("read", 5, 4),
        ("write", 6, 1),
        ("journal", 7, 10),
        ("spool", 7, 1),
    ] {
        let calls = calls_of(rt, alloc, row, kind, status)?;
        assert!(rt; calls >= least, "{kind}: {calls}");
        for call in 0..calls {
            let fault = format!(in alloc; "{row}== fails {kind} {call}\n== run\n{goes_on}")?;
            let _ = check_example(rt, alloc, &fault)?;
        }
    }
    Ok(())
}

pub(crate) fn check_faults<Rt: Abort + Threads + Wait + Sync>(
    rt: &Rt,
    alloc: Global,
) -> Result<(), Fail> {
    for threads in COUNTS {
        let goes_on = GOES_ON.replace(alloc, "THREADS", threads)?;
        for row in ROWS {
            for scope in ["program", "set"] {
                check_faults_of(rt, alloc, &row.replace(alloc, "SCOPE", scope)?, &goes_on)?;
            }
        }
    }
    Ok(())
}

// The same for a run that brings a journal of version 1 to version 2.
pub(crate) fn check_faults_of_migration<Rt: Abort + Threads + Wait + Sync>(
    rt: &Rt,
    alloc: Global,
) -> Result<(), Fail> {
    for threads in COUNTS {
        let run = GOES_ON.replace(alloc, "THREADS", threads)?;
        let goes_on = format!(in alloc; "{run}{OF_VERSION_2}")?;
        check_faults_of(rt, alloc, OF_VERSION_1, &goes_on)?;
    }
    Ok(())
}

// What the run over the first so many bytes of a journal of 353 ends with.
fn ends_over(alloc: Global, bytes: u64) -> Result<String, Fail> {
    Ok(match bytes {
        0 | 1 | 353 => format!(in alloc; "== ends 0\n")?,
        2..=64 => format!(in alloc; "== ends 9\nnot a journal\n")?,
        _ => {
            let record = (bytes - 65) / 32 + 1;
            format!(in alloc; "== ends 13\nunlawful record: {record}\n")?
        }
    })
}

pub(crate) fn check_cuts<Rt: Abort + Threads + Wait + Sync>(
    rt: &Rt,
    alloc: Global,
) -> Result<(), Fail> {
    for threads in COUNTS {
        let run = format!(in alloc; "== call run a.toml a.csv a.clock --threads {threads}\n")?;
        for bytes in 0..354 {
            let ends = ends_over(alloc, bytes)?;
            let cut = format!(in alloc;
                "{TWO_REQUESTS}== run\n== journal-length 353\n== journal\nfirst {bytes}\n{run}{ends}"
            )?;
            let _ = check_example(rt, alloc, &cut)?;
        }
    }
    Ok(())
}
