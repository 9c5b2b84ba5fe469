//! The call that does whatever the words ask for, and each command by itself, with just what it works on. The
//! words are the whole command line behind the program's name, the command first. To the call of one command
//! those that ask for anything else are Usage.
ghost use Rattle.std.specs.Prelude.{◌≡◌, IfErr, IfOk, map, Some};
ghost use Rattle.std.specs.String.{string_bytes};
ghost use Rattle.conc_edge_clock.specs.Clocks.{ClockState};
ghost use Rattle.conc_outside.specs.Files.{IsLater};
ghost use Rattle.conc_top_words.specs.Words.{AreWithin, command_of};
ghost use Rattle.conc_run_state.specs.Disks.{AreUntouched, disks};
ghost use Rattle.conc_top.specs.Answers.{around};
ghost use Rattle.conc_top.specs.Meaning.{AreAnswered, GivesNoCommand, IsPlain, outside};
ghost use Rattle.conc_top.specs.Meaning.{MeansCheck, MeansMake, MeansOutput, MeansPlan, MeansRepeat, MeansRun, MeansStatus};
ghost use Rattle.conc_top.specs.Printing.{sunk};
ghost use Rattle.conc_top.specs.Shows.{IsDiskUntouched};

use crate::Exit;
use crate::context::Context;
use crate::printing::print_summary;
use conc_disk::Disk;
use conc_edge_clock::Clock;
use conc_edge_gate::Gate;
use conc_outside::{Shelf, Sink};
use conc_run_state::Stores;
use conc_run_watched::Workers;
use conc_top_inputs::FileNames;
use conc_top_words::{Command, read_command};
use std::alloc::Global;
use std::sync::Wait;
use std::thread::Threads;

// The command that the words give, or the exit where they give none.
fn asked(alloc: Global, words: &[String]) -> Result<Command, Exit>
    ensures read { IfOk result (λ command. command_of (map string_bytes words.now)
        ≡ Some command) }
    ensures within { IfOk result AreWithin }
    ensures none { IfErr result (GivesNoCommand (command_of (map string_bytes words.now))) }
{
    read_command(alloc, words)?.ok_or(Exit::Usage)
}

/// Does what the words ask for, which are the command line behind the program's name. Words off these
/// forms are Usage.
///
/// - `run SETUP SCRIPT CLOCK` opens the journal and the spool, goes on from the journal's list to the end of
///   a history that the files give, and writes the text of the whole history into the sink. The options
///   `--threads N` and `--watch W`, also written with `=`, may stand anywhere behind `run`, each at most
///   once, and either may be left out. The workers have N threads, from 0 to 32, and 4 where N is not given;
///   each goes through `gate` between the permit for a request and its report. With 0 there are no workers,
///   and the files and the journal's list give one history. W watchers, from 0 to 8, and none where W is not
///   given, look at the history while it grows, each in a thread of its own; behind the text stand the lines
///   of what each saw.
/// - `plan SETUP SCRIPT` writes the listing of the plan that the files give.
/// - `check SETUP SCRIPT CLOCK HISTORY` judges the text of a history, its events and its table, by the plan
///   and, for its last life, the readings of the files, and writes how many events it has and whether it
///   is finished. It names the first line that is not lawful.
/// - `status SETUP SCRIPT` writes the table of the requests as they stand after the journal's events.
/// - `output SETUP SCRIPT NUMBER` writes the text of the report with which the request ended.
/// - `make SEED SIZE` makes inputs of a seed with so many submissions, runs them in memory, over no disks, and
///   writes a summary.
/// - `repeat REPEATS` reads a file of repeats, and writes the script to which it expands.
///
/// The files are read from the shelf in the order setup, script, clock, the setup's tables, and then the
/// history, each of them judged before the next one is read; the first one that is lacking, that cannot be
/// read or that is refused ends the call. Where CLOCK is the word `system`, no file is read in its place:
/// the one reading is the moment that `clock` gives (`./system` is a file), and a clock that gives no
/// moment ends the call. Then the journal is judged, and the spool. Where anything is refused, nothing is
/// written; and no command but `run` writes to the disks. A text is written once it is whole; where the
/// sink fails, it has taken a prefix of it, and the journal of a run is finished.
pub fn conc<
    Rt: Threads + Wait + Sync,
    F: Shelf,
    O: Sink,
    D: Disk + Send,
    E: Disk + Send,
    C: Clock,
    G: Gate + Sync,
>(
    rt: &Rt,
    alloc: Global,
    words: &[String],
    shelf: &mut F,
    out: &mut O,
    journal: &mut D,
    spool: &mut E,
    clock: &mut C,
    gate: &G,
) -> Exit
    ensures answered { AreAnswered (map string_bytes words.now) result
        (outside (F.state shelf.old) (C.state clock.old) (O.state out.old)
        (D.state journal.old) (E.state spool.old))
        (outside (F.state shelf.new) (C.state clock.new) (O.state out.new)
        (D.state journal.new) (E.state spool.new)) }
    ensures later { IsLater (F.state shelf.old) (F.state shelf.new) }
{
    let mut context = Context { alloc, shelf, out };
    let command = match asked(alloc, words) {
        Ok(command) => command,
        Err(exit) => return exit,
    };
    match command {
        Command::Run {
            setup,
            script,
            clock: file,
            threads,
            watchers,
        } => {
            let mut stores = Stores { journal, spool };
            let files = FileNames::new(setup, script, file);
            let workers = Workers { gate, threads };
            Exit::of(context.run_files(rt, clock, &mut stores, files, &workers, watchers))
        }
        Command::Plan { setup, script } => Exit::of(context.list_files(setup, script)),
        Command::Check {
            setup,
            script,
            clock: file,
            history,
        } => {
            let files = FileNames::new(setup, script, file);
            Exit::of(context.check_files(clock, files, history))
        }
        Command::Status { setup, script } => Exit::of(context.show_table(journal, setup, script)),
        Command::Output {
            setup,
            script,
            request,
        } => {
            let mut stores = Stores { journal, spool };
            Exit::of(context.show_report(&mut stores, setup, script, request))
        }
        Command::Make { seed, size } => Exit::of(print_summary(alloc, seed, size, context.out)),
        Command::Repeat { repeats } => Exit::of(context.expand_file(repeats)),
    }
}

/// Does `run SETUP SCRIPT CLOCK`, as `conc` says.
pub fn run<
    Rt: Threads + Wait + Sync,
    F: Shelf,
    O: Sink,
    D: Disk + Send,
    E: Disk + Send,
    C: Clock,
    G: Gate + Sync,
>(
    rt: &Rt,
    alloc: Global,
    words: &[String],
    shelf: &mut F,
    out: &mut O,
    journal: &mut D,
    spool: &mut E,
    clock: &mut C,
    gate: &G,
) -> Exit
    ensures means { MeansRun (command_of (map string_bytes words.now))
        (around (F.state shelf.old) (F.state shelf.new) (C.state clock.old) (C.state clock.new)
        (sunk (O.state out.old) (O.state out.new)))
        (disks (D.state journal.old) (D.state journal.new) (E.state spool.old) (E.state spool.new))
        result }
    ensures later { IsLater (F.state shelf.old) (F.state shelf.new) }
{
    let mut context = Context { alloc, shelf, out };
    match asked(alloc, words) {
        Ok(
            Command::Run {
                setup,
                script,
                clock: file,
                threads,
                watchers,
            },
        ) => {
            let mut stores = Stores { journal, spool };
            let files = FileNames::new(setup, script, file);
            let workers = Workers { gate, threads };
            Exit::of(context.run_files(rt, clock, &mut stores, files, &workers, watchers))
        }
        Ok(_) => Exit::Usage,
        Err(exit) => exit,
    }
}

/// Does `run SETUP SCRIPT CLOCK --threads 0`, without watchers, as `conc` says. It takes no handle, and returns.
pub fn run_plain<F: Shelf, O: Sink, D: Disk, E: Disk, C: Clock>(
    alloc: Global,
    words: &[String],
    shelf: &mut F,
    out: &mut O,
    journal: &mut D,
    spool: &mut E,
    clock: &mut C,
) -> Exit
    requires plain { IsPlain (command_of (map string_bytes words.now)) }
    ensures means { MeansRun (command_of (map string_bytes words.now))
        (around (F.state shelf.old) (F.state shelf.new) (C.state clock.old) (C.state clock.new)
        (sunk (O.state out.old) (O.state out.new)))
        (disks (D.state journal.old) (D.state journal.new) (E.state spool.old) (E.state spool.new))
        result }
    ensures later { IsLater (F.state shelf.old) (F.state shelf.new) }
{
    let mut context = Context { alloc, shelf, out };
    match asked(alloc, words) {
        Ok(
            Command::Run {
                setup,
                script,
                clock: file,
                ..
            },
        ) => {
            let mut stores = Stores { journal, spool };
            let files = FileNames::new(setup, script, file);
            Exit::of(context.run_files_plain(clock, &mut stores, files))
        }
        Ok(_) => Exit::Usage,
        Err(exit) => exit,
    }
}

/// Does `plan SETUP SCRIPT`, as `conc` says. It touches no clock and no disk.
pub fn show_plan<F: Shelf, O: Sink>(
    alloc: Global,
    words: &[String],
    shelf: &mut F,
    out: &mut O,
) -> Exit
    ensures means { (clock : ClockState) → MeansPlan (command_of (map string_bytes words.now))
        (around (F.state shelf.old) (F.state shelf.new) clock clock
        (sunk (O.state out.old) (O.state out.new)))
        result }
    ensures later { IsLater (F.state shelf.old) (F.state shelf.new) }
{
    let mut context = Context { alloc, shelf, out };
    match asked(alloc, words) {
        Ok(Command::Plan { setup, script }) => Exit::of(context.list_files(setup, script)),
        Ok(_) => Exit::Usage,
        Err(exit) => exit,
    }
}

/// Does `check SETUP SCRIPT CLOCK HISTORY`, as `conc` says. It touches no disk.
pub fn check_history<F: Shelf, O: Sink, C: Clock>(
    alloc: Global,
    words: &[String],
    shelf: &mut F,
    out: &mut O,
    clock: &mut C,
) -> Exit
    ensures means { MeansCheck (command_of (map string_bytes words.now))
        (around (F.state shelf.old) (F.state shelf.new) (C.state clock.old) (C.state clock.new)
        (sunk (O.state out.old) (O.state out.new)))
        result }
    ensures later { IsLater (F.state shelf.old) (F.state shelf.new) }
{
    let mut context = Context { alloc, shelf, out };
    match asked(alloc, words) {
        Ok(
            Command::Check {
                setup,
                script,
                clock: file,
                history,
            },
        ) => {
            let files = FileNames::new(setup, script, file);
            Exit::of(context.check_files(clock, files, history))
        }
        Ok(_) => Exit::Usage,
        Err(exit) => exit,
    }
}

/// Does `status SETUP SCRIPT`, as `conc` says. It writes nothing to the journal's disk, and touches no
/// spool.
pub fn show_status<F: Shelf, O: Sink, D: Disk>(
    alloc: Global,
    words: &[String],
    shelf: &mut F,
    out: &mut O,
    journal: &mut D,
) -> Exit
    ensures means { (clock : ClockState) → MeansStatus (command_of (map string_bytes words.now))
        (around (F.state shelf.old) (F.state shelf.new) clock clock
        (sunk (O.state out.old) (O.state out.new)))
        (D.state journal.old) (D.state journal.new) result }
    ensures untouched { IsDiskUntouched (D.state journal.old) (D.state journal.new) }
    ensures later { IsLater (F.state shelf.old) (F.state shelf.new) }
{
    let mut context = Context { alloc, shelf, out };
    match asked(alloc, words) {
        Ok(Command::Status { setup, script }) => {
            Exit::of(context.show_table(journal, setup, script))
        }
        Ok(_) => Exit::Usage,
        Err(exit) => exit,
    }
}

/// Does `output SETUP SCRIPT NUMBER`, as `conc` says. It writes nothing to the two disks.
pub fn show_output<F: Shelf, O: Sink, D: Disk, E: Disk>(
    alloc: Global,
    words: &[String],
    shelf: &mut F,
    out: &mut O,
    journal: &mut D,
    spool: &mut E,
) -> Exit
    ensures means { (clock : ClockState) → MeansOutput (command_of (map string_bytes words.now))
        (around (F.state shelf.old) (F.state shelf.new) clock clock
        (sunk (O.state out.old) (O.state out.new)))
        (disks (D.state journal.old) (D.state journal.new) (E.state spool.old) (E.state spool.new))
        result }
    ensures untouched { AreUntouched (disks (D.state journal.old) (D.state journal.new)
        (E.state spool.old) (E.state spool.new)) }
    ensures later { IsLater (F.state shelf.old) (F.state shelf.new) }
{
    let mut context = Context { alloc, shelf, out };
    match asked(alloc, words) {
        Ok(
            Command::Output {
                setup,
                script,
                request,
            },
        ) => {
            let mut stores = Stores { journal, spool };
            Exit::of(context.show_report(&mut stores, setup, script, request))
        }
        Ok(_) => Exit::Usage,
        Err(exit) => exit,
    }
}

/// Does `make SEED SIZE`, as `conc` says. It reads no file and touches no disk: its run is over disks in
/// memory.
pub fn make_and_run<O: Sink>(alloc: Global, words: &[String], out: &mut O) -> Exit
    ensures { MeansMake (command_of (map string_bytes words.now))
        (sunk (O.state out.old) (O.state out.new)) result }
{
    match asked(alloc, words) {
        Ok(Command::Make { seed, size }) => Exit::of(print_summary(alloc, seed, size, out)),
        Ok(_) => Exit::Usage,
        Err(exit) => exit,
    }
}

/// Does `repeat REPEATS`, as `conc` says. It touches no clock and no disk.
pub fn show_repeat<F: Shelf, O: Sink>(
    alloc: Global,
    words: &[String],
    shelf: &mut F,
    out: &mut O,
) -> Exit
    ensures means { (clock : ClockState) → MeansRepeat (command_of (map string_bytes words.now))
        (around (F.state shelf.old) (F.state shelf.new) clock clock
        (sunk (O.state out.old) (O.state out.new)))
        result }
    ensures later { IsLater (F.state shelf.old) (F.state shelf.new) }
{
    let mut context = Context { alloc, shelf, out };
    match asked(alloc, words) {
        Ok(Command::Repeat { repeats }) => Exit::of(context.expand_file(repeats)),
        Ok(_) => Exit::Usage,
        Err(exit) => exit,
    }
}
