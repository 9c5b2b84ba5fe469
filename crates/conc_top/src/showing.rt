ghost use Rattle.std.specs.Prelude.{◌≡◌};
ghost use Rattle.conc_history.specs.Listing.{listing};
ghost use Rattle.conc_run_state.specs.Disks.{AreUntouched};
ghost use Rattle.conc_run_state.specs.Stores.{SameStores, disks_of};
ghost use Rattle.conc_top.specs.Printing.{Prints, sunk};
ghost use Rattle.conc_top.specs.Shows.{IsDiskUntouched, OutputEnds, StatusEnds};
ghost use Rattle.conc_top.specs.Ways as spec;
ghost use Rattle.conc_top.specs.Ways.{exit_of};

use crate::Exit;
use crate::context::Context;
use crate::printing::write_text;
use conc_data_digests::LazyDigests;
use conc_disk::Disk;
use conc_history::{put_plan, put_status_table};
use conc_outside::{Shelf, Sink};
use conc_run_open::{TextFail, read_list, read_text};
use conc_run_state::Stores;
use conc_top_inputs::{InTurn, accept};
use conc_types::{Name, Plan, RequestId};
use std::alloc::Global;

// Prints the listing of the plan.
fn print_listing<O: Sink>(alloc: Global, plan: &Plan, out: &mut O) -> Result<(), Exit>
    ensures { Prints (λ text. text ≡ listing plan.now)
        (sunk (O.state out.old) (O.state out.new)) (exit_of result) }
{
    let text = put_plan(alloc, plan)?;
    write_text(&text, out)
}

// Prints the table of the requests as they stand after the journal's events.
fn print_table<O: Sink, D: Disk>(
    alloc: Global,
    plan: &Plan,
    digests: &LazyDigests,
    journal: &mut D,
    out: &mut O,
) -> Result<(), Exit>
    ensures ends { StatusEnds plan.now digests.now (D.state journal.old) (D.state journal.new)
        (sunk (O.state out.old) (O.state out.new)) (exit_of result) }
    ensures untouched { IsDiskUntouched (D.state journal.old) (D.state journal.new) }
{
    let events = read_list(alloc, plan, digests, journal)?;
    let text = put_status_table(alloc, plan, &events)?;
    write_text(&text, out)
}

// The exit where no text of this request's report is given.
fn exit_for_text(fail: TextFail, id: RequestId) -> Exit
    ensures { result ≡ spec.exit_for_text id fail }
{
    match fail {
        TextFail::NoHistory(history) => Exit::from(history),
        TextFail::NotEnded => Exit::NotEnded { number: id.number },
    }
}

// Prints the text of the report with which this request ended.
fn print_report<O: Sink, D: Disk, E: Disk>(
    alloc: Global,
    plan: &Plan,
    digests: &LazyDigests,
    id: RequestId,
    stores: &mut Stores<'_, D, E>,
    out: &mut O,
) -> Result<(), Exit>
    ensures stores { SameStores stores.old stores.new }
    ensures ends { OutputEnds plan.now digests.now id
        (disks_of D.Disk E.Disk stores.old stores.new)
        (sunk (O.state out.old) (O.state out.new)) (exit_of result) }
    ensures untouched { AreUntouched (disks_of D.Disk E.Disk stores.old stores.new) }
{
    let text = read_text(alloc, plan, digests, id, stores).map_err(|fail| exit_for_text(fail, id))?;
    write_text(&text, out)
}

impl<F: Shelf, O: Sink> Context<'_, F, O> {
    ghost use Rattle.std.specs.Prelude.{None};
    ghost use Rattle.conc_edge_clock.specs.Clocks.{ClockState};
    ghost use Rattle.conc_run_state.specs.Disks.{AreUntouched};
    ghost use Rattle.conc_run_state.specs.Stores.{SameStores, disks_of};
    ghost use Rattle.conc_top_inputs.specs.Given.{named};
    ghost use Rattle.conc_top.specs.Answers.{AnswersOutput, AnswersPlan, AnswersStatus};
    ghost use Rattle.conc_top.specs.Contexts.{Continues, around_by};
    ghost use Rattle.conc_top.specs.Shows.{IsDiskUntouched};
    ghost use Rattle.conc_top.specs.Ways.{exit_of};

    /// Prints the listing of the plan that the files with these names give.
    pub(crate) fn list_files(&mut self, setup: Name, script: Name) -> Result<(), Exit>
        ensures continues { Continues F.Shelf self.old self.new }
        ensures answers { (clock : ClockState) → AnswersPlan (named setup script None)
            (around_by F.Shelf O.Sink self.old self.new clock clock) (exit_of result) }
    {
        let accepted = accept(self.alloc, self.shelf, &InTurn, setup, script)?;
        print_listing(self.alloc, &accepted.plan, self.out)
    }

    /// Prints the table of the requests as they stand after the events in the journal of a run of the
    /// files with these names.
    pub(crate) fn show_table<D: Disk>(
        &mut self,
        journal: &mut D,
        setup: Name,
        script: Name,
    ) -> Result<(), Exit>
        ensures continues { Continues F.Shelf self.old self.new }
        ensures answers { (clock : ClockState) → AnswersStatus (named setup script None)
            (around_by F.Shelf O.Sink self.old self.new clock clock)
            (D.state journal.old) (D.state journal.new) (exit_of result) }
        ensures untouched { IsDiskUntouched (D.state journal.old) (D.state journal.new) }
    {
        let accepted = accept(self.alloc, self.shelf, &InTurn, setup, script)?;
        print_table(
            self.alloc,
            &accepted.plan,
            &accepted.digests,
            journal,
            self.out,
        )
    }

    /// Prints the text of the report with which this request ended, from the journal and the spool of a
    /// run of the files with these names.
    pub(crate) fn show_report<D: Disk, E: Disk>(
        &mut self,
        stores: &mut Stores<'_, D, E>,
        setup: Name,
        script: Name,
        id: RequestId,
    ) -> Result<(), Exit>
        ensures continues { Continues F.Shelf self.old self.new }
        ensures stores { SameStores stores.old stores.new }
        ensures answers { (clock : ClockState) → AnswersOutput (named setup script None) id
            (around_by F.Shelf O.Sink self.old self.new clock clock)
            (disks_of D.Disk E.Disk stores.old stores.new) (exit_of result) }
        ensures untouched { AreUntouched (disks_of D.Disk E.Disk stores.old stores.new) }
    {
        let accepted = accept(self.alloc, self.shelf, &InTurn, setup, script)?;
        print_report(
            self.alloc,
            &accepted.plan,
            &accepted.digests,
            id,
            stores,
            self.out,
        )
    }
}
