use super::expect::same_at;
use conc_top_words::{Command, read_command};
use std::alloc::Global;
use std::process::Abort;
use std::test::Fail;

// Lines that begin with `run` and whose words, with a blank between two of them, are a command, and how
// many threads and how many watchers it has.
static RUNS: [(&str, (u32, u32)); 32] = [
    ("run a.toml a.csv a.clock", (4, 0)),
    ("run a.toml a.csv a.clock --watch 0", (4, 0)),
    ("run --watch=0 a.toml a.csv a.clock", (4, 0)),
    ("run a.toml a.csv a.clock --threads 0", (0, 0)),
    ("run --threads 0 a.toml a.csv a.clock", (0, 0)),
    ("run a.toml --threads=0 a.csv --watch=0 a.clock", (0, 0)),
    ("run a.toml --watch 0 a.csv a.clock --threads 0", (0, 0)),
    ("run --watch=0 --threads=0 a.toml a.csv a.clock", (0, 0)),
    ("run --threads 0 --watch 0 a.toml a.csv a.clock", (0, 0)),
    ("run a.toml a.csv --threads 0 a.clock", (0, 0)),
    ("run a.toml a.csv a.clock --threads=0 --watch 0", (0, 0)),
    ("run a.toml a.csv a.clock --threads 1", (1, 0)),
    ("run a.toml a.csv a.clock --threads 4", (4, 0)),
    ("run a.toml --threads 4 a.csv a.clock", (4, 0)),
    ("run --threads=7 a.toml a.csv a.clock", (7, 0)),
    ("run a.toml a.csv --threads=10 a.clock", (10, 0)),
    ("run a.toml a.csv a.clock --threads 31", (31, 0)),
    ("run a.toml a.csv a.clock --threads 32", (32, 0)),
    ("run a.toml a.csv a.clock --threads=32", (32, 0)),
    ("run --threads 32 a.toml a.csv --watch 0 a.clock", (32, 0)),
    ("run a.toml a.csv a.clock --watch 1", (4, 1)),
    ("run --watch 1 a.toml a.csv a.clock", (4, 1)),
    ("run a.toml --watch=2 a.csv a.clock", (4, 2)),
    ("run a.toml a.csv --watch 7 a.clock", (4, 7)),
    ("run a.toml a.csv a.clock --watch 8", (4, 8)),
    ("run a.toml a.csv a.clock --watch=8", (4, 8)),
    ("run --watch=8 a.toml a.csv a.clock", (4, 8)),
    ("run a.toml a.csv a.clock --threads 4 --watch 2", (4, 2)),
    ("run a.toml a.csv a.clock --watch 2 --threads 4", (4, 2)),
    ("run --threads=0 a.toml a.csv a.clock --watch=1", (0, 1)),
    ("run a.toml --watch 8 a.csv --threads 1 a.clock", (1, 8)),
    ("run --watch=8 --threads=32 a.toml a.csv a.clock", (32, 8)),
];

// Such lines that are no command.
const NO_RUNS: &str = concat!(
    // A number of threads that is not from 0 to 32, no decimal, or none.
    "run a.toml a.csv a.clock --threads 33\n",
    "run a.toml a.csv a.clock --threads=33\n",
    "run --threads 33 a.toml a.csv a.clock\n",
    "run a.toml --threads=40 a.csv a.clock\n",
    "run a.toml a.csv a.clock --threads 320\n",
    "run a.toml a.csv a.clock --threads 4294967296\n",
    "run a.toml a.csv a.clock --threads 4294967300\n",
    "run a.toml a.csv a.clock --threads 18446744073709551620\n",
    "run a.toml a.csv a.clock --threads 00\n",
    "run a.toml a.csv a.clock --threads 04\n",
    "run a.toml a.csv a.clock --threads 032\n",
    "run a.toml a.csv a.clock --threads=032\n",
    "run a.toml a.csv a.clock --threads -0\n",
    "run a.toml a.csv a.clock --threads -4\n",
    "run a.toml a.csv a.clock --threads=-1\n",
    "run a.toml a.csv a.clock --threads +0\n",
    "run a.toml a.csv a.clock --threads +4\n",
    "run a.toml a.csv a.clock --threads=+4\n",
    "run a.toml a.csv a.clock --threads 4.0\n",
    "run a.toml a.csv a.clock --threads 4,\n",
    "run a.toml a.csv a.clock --threads=0x0\n",
    "run a.toml a.csv a.clock --threads zero\n",
    "run a.toml a.csv a.clock --threads==4\n",
    "run a.toml a.csv a.clock --threads\n",
    "run a.toml a.csv a.clock --threads=\n",
    "run a.toml a.csv a.clock --threads \n",
    "run --threads a.toml a.csv a.clock\n",
    "run a.toml a.csv --threads a.clock 4\n",
    "run a.toml a.csv a.clock --threads --watch=0\n",
    // A number of watchers that is not from 0 to 8, no decimal, or none.
    "run a.toml a.csv a.clock --watch 9\n",
    "run a.toml a.csv a.clock --watch=9\n",
    "run --watch 9 a.toml a.csv a.clock\n",
    "run a.toml --watch=9 a.csv a.clock\n",
    "run a.toml a.csv a.clock --threads 0 --watch=9\n",
    "run a.toml a.csv a.clock --watch 9 --threads 4\n",
    "run a.toml a.csv a.clock --watch 10\n",
    "run a.toml a.csv a.clock --watch 80\n",
    "run a.toml a.csv a.clock --watch 4294967296\n",
    "run a.toml a.csv a.clock --watch 4294967297\n",
    "run a.toml a.csv a.clock --watch 18446744073709551617\n",
    "run a.toml a.csv a.clock --threads 4 --watch 00\n",
    "run a.toml a.csv a.clock --watch 01\n",
    "run a.toml a.csv a.clock --watch=08\n",
    "run a.toml a.csv a.clock --watch -0\n",
    "run a.toml a.csv a.clock --watch=-1\n",
    "run a.toml a.csv a.clock --watch +1\n",
    "run a.toml a.csv a.clock --watch 1.0\n",
    "run a.toml a.csv a.clock --watch 1,\n",
    "run a.toml a.csv a.clock --watch=0x1\n",
    "run a.toml a.csv a.clock --watch one\n",
    "run a.toml a.csv a.clock --watch==1\n",
    "run a.toml a.csv a.clock --watch\n",
    "run a.toml a.csv a.clock --watch=\n",
    "run a.toml a.csv a.clock --watch \n",
    "run a.toml a.csv a.clock --threads 0 --watch\n",
    "run a.toml a.csv a.clock --threads 0 --watch=\n",
    "run a.toml a.csv a.clock --watch --threads=0\n",
    "run a.toml a.csv a.clock --watch --threads 0\n",
    "run --watch a.toml a.csv a.clock\n",
    "run a.toml a.csv --watch a.clock 1\n",
    // An option twice.
    "run a.toml a.csv a.clock --threads 0 --threads 0\n",
    "run a.toml a.csv a.clock --threads 4 --threads 4\n",
    "run a.toml a.csv a.clock --threads=4 --threads=4\n",
    "run --threads 4 a.toml a.csv a.clock --threads 32\n",
    "run a.toml a.csv a.clock --threads=0 --threads 0\n",
    "run a.toml a.csv a.clock --watch 0 --watch 0\n",
    "run a.toml a.csv a.clock --watch 1 --watch 1\n",
    "run a.toml a.csv a.clock --watch=8 --watch=8\n",
    "run --watch 1 a.toml a.csv a.clock --watch 0\n",
    "run --watch=0 a.toml --watch 1 a.csv a.clock\n",
    "run a.toml a.csv a.clock --threads 4 --watch 1 --watch=2\n",
    "run a.toml a.csv a.clock --threads 0 --watch 0 --watch 0\n",
    "run a.toml a.csv a.clock --threads 0 --watch=0 --watch=0\n",
    // Other options.
    "run a.toml a.csv a.clock --threads 0 --help\n",
    "run a.toml a.csv a.clock --threads 0 -h\n",
    "run a.toml a.csv a.clock --threads 0 --\n",
    "run a.toml a.csv a.clock -threads 0\n",
    "run a.toml a.csv a.clock --thread 0\n",
    "run a.toml a.csv a.clock --THREADS 0\n",
    "run a.toml a.csv a.clock --threads0\n",
    "run a.toml a.csv a.clock --threads4\n",
    "run a.toml a.csv a.clock -watch 1\n",
    "run a.toml a.csv a.clock --watc 1\n",
    "run a.toml a.csv a.clock --WATCH 1\n",
    "run a.toml a.csv a.clock --watch1\n",
    "run a.toml a.csv a.clock --watches=0 --threads=0\n",
    "run a.toml a.csv a.clock --watches=1\n",
    "run a.toml a.csv a.clock --watchers 1\n",
    // Another number of files, or a word that names none.
    "run a.toml a.csv\n",
    "run a.toml a.csv --threads 4\n",
    "run a.toml a.csv --watch 1\n",
    "run a.toml a.csv --threads 0\n",
    "run a.toml --threads 0\n",
    "run --threads 0\n",
    "run --threads 4 --watch 1\n",
    "run\n",
    "run a.toml a.csv a.clock t.csv\n",
    "run a.toml a.csv a.clock 4\n",
    "run a.toml a.csv a.clock t.csv --threads 0\n",
    "run a.toml a.csv a.clock t.csv --threads 4 --watch 0\n",
    "run a.toml a.csv a.clock t.csv --watch 1\n",
    "run a.toml a.csv  --threads 0\n",
    "run  a.csv a.clock --threads 0\n",
    "run a.toml a.csv - --threads 0\n",
    "run - a.csv a.clock --threads 0\n",
    "run a.toml -a.csv a.clock --threads 0\n",
    "run a.toml a.csv \u{7f} --threads 0\n",
    "run a\tb a.csv a.clock --threads 0",
);

// Other lines that are a command.
const COMMANDS: &str = concat!(
    "plan s r\n",
    "check s r c h\n",
    "status s r\n",
    "output s r 1\n",
    "output s r 4294967295\n",
    "make 0 1\n",
    "make 18446744073709551615 4000",
);

// Other lines that are none.
const NO_COMMANDS: &str = concat!(
    // Another command, or none.
    "--threads 0 run a.toml a.csv a.clock\n",
    "Run a.toml a.csv a.clock --threads 0\n",
    "start a.toml a.csv a.clock --threads 0\n",
    " run a.toml a.csv a.clock --threads 0\n",
    "plan s\n",
    "plan s r c\n",
    "plan s r --threads 0\n",
    "plan s --watch=1\n",
    "plan s \n",
    "plan s -r\n",
    "check s r c\n",
    "check s r c h h\n",
    "check s r c --threads=0\n",
    "check s r --watch 1\n",
    "status s\n",
    "status s r 1\n",
    "status s --watch=0\n",
    "output s r\n",
    "output s r 1 2\n",
    "output s r 0\n",
    "output s r 01\n",
    "output s r 4294967296\n",
    "output s r --watch\n",
    "make 18446744073709551616 1\n",
    "make 1\n",
    "make 1 2 3\n",
    "make 1 0\n",
    "make 1 01\n",
    "make 1 4001\n",
    "make -1 2\n",
    "make 1 --threads=0\n",
    "make 1 2 --watch=1\n",
    "plan\n",
    "Plan s r\n",
    "plans s r\n",
    "--help\n",
    "",
);

fn words_of(alloc: Global, line: &str) -> Result<Vec<String>, Fail> {
    let mut words = Vec::new(alloc);
    for word in line.split(' ') {
        words.push(format!(in alloc; "{word}")?)?;
    }
    Ok(words)
}

fn is_command(alloc: Global, line: &str) -> Result<bool, Fail> {
    let words = words_of(alloc, line)?;
    Ok(read_command(alloc, words.as_slice())?.is_some())
}

// Whether each of these lines is a command, or none is.
fn are<Rt: Abort>(rt: &Rt, alloc: Global, lines: &str, want: bool) -> Result<(), Fail> {
    for line in lines.split('\n') {
        same_at(rt, is_command(alloc, line)?, want, line);
    }
    Ok(())
}

// How many threads and how many watchers the run has that a line gives, if it gives one.
fn counts_of(alloc: Global, line: &str) -> Result<Option<(u32, u32)>, Fail> {
    let words = words_of(alloc, line)?;
    match read_command(alloc, words.as_slice())? {
        Some(
            Command::Run {
                threads,
                watchers,
                ..
            },
        ) => Ok(Some((threads, watchers))),
        _ => Ok(None),
    }
}

#[test]
fn options_of_a_run_stand_anywhere_behind_it(rt: HostRuntime) -> Result<(), Fail> {
    for (line, want) in RUNS {
        same_at(&rt, counts_of(rt.alloc(), line)?, Some(want), line);
    }
    are(&rt, rt.alloc(), NO_RUNS, false)
}

#[test]
fn other_commands_have_no_options(rt: HostRuntime) -> Result<(), Fail> {
    are(&rt, rt.alloc(), COMMANDS, true)?;
    are(&rt, rt.alloc(), NO_COMMANDS, false)?;
    assert!(rt; read_command(rt.alloc(), &[])?.is_none());
    Ok(())
}
