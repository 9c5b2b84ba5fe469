ghost use Rattle.std.specs.Prelude.{◌≡◌, ◌≤◌, ◌++◌, IfOk, map};
ghost use Rattle.conc_base_law.specs.Text.{text_of};
ghost use Rattle.conc_run_state.specs.Stores.{SameStores, ran_over};
ghost use Rattle.conc_run_watch.specs.Lines.{watch_text};
ghost use Rattle.conc_run_watched.specs.Ends.{HasWatched};
ghost use Rattle.conc_top.specs.Printing.{Prints, sunk};
ghost use Rattle.conc_top.specs.Runs.{PrintsEnded};
ghost use Rattle.conc_top.specs.Ways.{exit_of};

use crate::Exit;
use crate::context::Context;
use crate::printing::write_text;
use conc_base_law::{lawful_is_lawful_so_far, no_overlap};
use conc_disk::Disk;
use conc_edge_clock::Clock;
use conc_edge_gate::Gate;
use conc_history::put_history;
use conc_outside::{Shelf, Sink};
use conc_run_state::{HistoryFail, Input, Stores};
use conc_run_watch::put_watch_lines;
use conc_run_watched::{Watched, Workers, run_on_threads, run_plan, run_watched};
use conc_top_inputs::{Accepted, FileNames, InTurn, OnThreads, accept_timed};
use conc_types::{Event, NoMemory, Plan, Readings};
use conc_view::Snapshot;
use std::alloc::Global;
use std::sync::Wait;
use std::thread::Threads;

// What a run is of.
fn input_of<'i>(accepted: &'i Accepted, readings: &'i Readings) -> Input<'i>
    ensures plan { result.plan.now ≡ accepted.now.plan }
    ensures readings { result.readings.now ≡ readings.now }
    ensures digests { result.digests.now ≡ accepted.now.digests }
{
    Input {
        plan: &accepted.plan,
        readings,
        digests: &accepted.digests,
    }
}

// The whole of a history, and behind it the lines of watchers.
fn history_text(
    alloc: Global,
    plan: &Plan,
    history: &[Event],
    kept: &[Vec<Snapshot>],
) -> Result<Vec<u8>, NoMemory>
    ensures { IfOk result (λ text. text.items ≡ text_of plan.now history.now
        ++ watch_text 1 (map (λ k. k.items) kept.now)) }
{
    let mut text = put_history(alloc, plan, history)?;
    put_watch_lines(&mut text, kept)?;
    Ok(text)
}

// Prints the whole of a history, and behind it the lines of watchers.
fn print_history<O: Sink>(
    alloc: Global,
    plan: &Plan,
    history: &[Event],
    kept: &[Vec<Snapshot>],
    out: &mut O,
) -> Result<(), Exit>
    ensures { Prints (λ text. text ≡ text_of plan.now history.now
        ++ watch_text 1 (map (λ k. k.items) kept.now))
        (sunk (O.state out.old) (O.state out.new)) (exit_of result) }
{
    let text = history_text(alloc, plan, history, kept)?;
    write_text(&text, out)
}

// Prints what a run over these stores ended with: its whole history and what watchers saw of it, if it is
// finished.
fn print_ended<D: Disk, E: Disk, O: Sink>(
    alloc: Global,
    input: &Input<'_>,
    stores: &Stores<'_, D, E>,
    ended: Result<Watched<'_>, HistoryFail>,
    out: &mut O,
) -> Result<(), Exit>
    ensures { PrintsEnded D.Disk E.Disk input.now stores.now ended.entry
        (sunk (O.state out.old) (O.state out.new)) (exit_of result) }
{
    lawful_is_lawful_so_far();
    no_overlap();
    let Watched { work, kept } = ended?;
    print_history(
        alloc,
        input.plan,
        work.journal.events(),
        kept.as_slice(),
        out,
    )
}

// Runs the input without workers, and beside no watchers.
fn run_plainly<'p, D: Disk, E: Disk>(
    alloc: Global,
    input: &Input<'p>,
    stores: &mut Stores<'_, D, E>,
) -> Result<Watched<'p>, HistoryFail>
    ensures stores { SameStores stores.old stores.new }
    ensures ended { HasWatched 0 0 (ran_over D.Disk E.Disk input.now stores.old stores.new) result }
{
    Ok(Watched {
        work: run_plan(alloc, input, stores)?,
        kept: Vec::new(alloc),
    })
}

// Runs the input with these workers, or without where they have no thread, beside so many watchers.
fn run_input<'p, Rt: Threads + Wait + Sync, D: Disk + Send, E: Disk + Send, G: Gate + Sync>(
    rt: &Rt,
    alloc: Global,
    workers: &Workers<'_, G>,
    watchers: u32,
    input: &Input<'p>,
    stores: &mut Stores<'_, D, E>,
) -> Result<Watched<'p>, HistoryFail>
    requires few { watchers ≤ 8 }
    ensures stores { SameStores stores.old stores.new }
    ensures ended { HasWatched workers.now.threads watchers
        (ran_over D.Disk E.Disk input.now stores.old stores.new) result }
{
    if watchers > 0 {
        return run_watched(rt, alloc, input, stores, workers, watchers);
    }
    if workers.threads == 0 {
        return run_plainly(alloc, input, stores);
    }
    Ok(Watched {
        work: run_on_threads(rt, alloc, input, stores, workers)?,
        kept: Vec::new(alloc),
    })
}

impl<F: Shelf, O: Sink> Context<'_, F, O> {
    ghost use Rattle.std.specs.Prelude.{◌≤◌};
    ghost use Rattle.conc_run_state.specs.Stores.{SameStores, disks_of};
    ghost use Rattle.conc_top_inputs.specs.Given.{names_of};
    ghost use Rattle.conc_top.specs.Answers.{AnswersRun};
    ghost use Rattle.conc_top.specs.Contexts.{Continues, around_by};
    ghost use Rattle.conc_top.specs.Ways.{exit_of};

    /// Runs the plan of these files without workers over its journal and its spool, and prints the whole
    /// history once it is finished.
    pub(crate) fn run_files_plain<D: Disk, E: Disk, C: Clock>(
        &mut self,
        clock: &mut C,
        stores: &mut Stores<'_, D, E>,
        files: FileNames,
    ) -> Result<(), Exit>
        ensures continues { Continues F.Shelf self.old self.new }
        ensures stores { SameStores stores.old stores.new }
        ensures answers { AnswersRun 0 0 (names_of files)
            (around_by F.Shelf O.Sink self.old self.new (C.state clock.old) (C.state clock.new))
            (disks_of D.Disk E.Disk stores.old stores.new) (exit_of result) }
    {
        let (accepted, readings) = accept_timed(self.alloc, self.shelf, clock, &InTurn, files)?;
        let accepted = accepted.with_columns(self.alloc, &InTurn);
        let input = input_of(&accepted, &readings);
        let ended = run_plainly(self.alloc, &input, stores);
        print_ended(self.alloc, &input, stores, ended, self.out)
    }

    /// Runs the plan of these files with these workers, beside so many watchers, over its journal and its
    /// spool, and prints the whole history and what the watchers saw of it once it is finished. Without
    /// threads it is run without workers.
    pub(crate) fn run_files<
        Rt: Threads + Wait + Sync,
        D: Disk + Send,
        E: Disk + Send,
        C: Clock,
        G: Gate + Sync,
    >(
        &mut self,
        rt: &Rt,
        clock: &mut C,
        stores: &mut Stores<'_, D, E>,
        files: FileNames,
        workers: &Workers<'_, G>,
        watchers: u32,
    ) -> Result<(), Exit>
        requires few { watchers ≤ 8 }
        ensures continues { Continues F.Shelf self.old self.new }
        ensures stores { SameStores stores.old stores.new }
        ensures answers { AnswersRun workers.now.threads watchers (names_of files)
            (around_by F.Shelf O.Sink self.old self.new (C.state clock.old) (C.state clock.new))
            (disks_of D.Disk E.Disk stores.old stores.new) (exit_of result) }
    {
        if workers.threads == 0 && watchers == 0 {
            return self.run_files_plain(clock, stores, files);
        }
        let pace = OnThreads { rt };
        let (accepted, readings) = accept_timed(self.alloc, self.shelf, clock, &pace, files)?;
        let accepted = accepted.with_columns(self.alloc, &pace);
        let input = input_of(&accepted, &readings);
        let ended = run_input(rt, self.alloc, workers, watchers, &input, stores);
        print_ended(self.alloc, &input, stores, ended, self.out)
    }
}
