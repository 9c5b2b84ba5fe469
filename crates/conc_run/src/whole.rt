ghost use Rattle.std.specs.Prelude.{◌<◌, IfErr, IfOk};
ghost use Rattle.conc_run_state.specs.Stores.{ran_over, SameStores};
ghost use Rattle.conc_run_state.specs.Works.{list_in};
ghost use Rattle.conc_run.specs.Whole.{IsCutShort, IsFinished, LacksToTell};

use crate::workers::Workers;
use conc_base_law::{lawful_is_lawful_so_far, table_of_alone};
use conc_disk::Disk;
use conc_edge_gate::Gate;
use conc_journal::Silent;
use conc_run_alone::run_alone;
use conc_run_open::{examine, open};
use conc_run_state::{HistoryFail, Input, Stores, Work};
use std::alloc::Global;
use std::sync::Wait;
use std::thread::Threads;

/// Runs a plan with its readings over a journal and a spool, without workers, from what stands there to the
/// end of the history. All refusals come before anything is written, and so does want of memory, but for
/// that of a report. After a fault of a disk, and where a report finds no memory, what was journaled stays,
/// and the next run goes on from it.
pub fn run_plan<'p, D: Disk, E: Disk>(
    alloc: Global,
    input: &Input<'p>,
    stores: &mut Stores<'_, D, E>,
) -> Result<Work<'p>, HistoryFail>
    ensures same { SameStores stores.old stores.new }
    ensures finished { IfOk result (λ work. IsFinished 0
        (ran_over D.Disk E.Disk input.now stores.old stores.new) (list_in work)) }
    ensures cut_short { IfErr result (IsCutShort 0 (LacksToTell 0)
        (ran_over D.Disk E.Disk input.now stores.old stores.new)) }
{
    lawful_is_lawful_so_far();
    table_of_alone();
    let mut work = open(alloc, input, stores)?;
    run_alone(alloc, &mut work, stores.journal, stores.spool)?;
    Ok(work)
}

/// Runs a plan as `run_plan` does, with workers in threads of their own. The history is lawful, and may be
/// any that the rules allow. Want of memory comes before anything is written, before any event past the
/// resume, or at a report.
pub fn run_on_threads<'p, R: Threads + Wait + Sync, D: Disk + Send, E: Disk + Send, G: Gate + Sync>(
    rt: &R,
    alloc: Global,
    input: &Input<'p>,
    stores: &mut Stores<'_, D, E>,
    workers: &Workers<'_, G>,
) -> Result<Work<'p>, HistoryFail>
    requires threads { 0 < workers.now.threads }
    ensures same { SameStores stores.old stores.new }
    ensures finished { IfOk result (λ work. IsFinished workers.now.threads
        (ran_over D.Disk E.Disk input.now stores.old stores.new) (list_in work)) }
    ensures cut_short { IfErr result (IsCutShort workers.now.threads (LacksToTell 0)
        (ran_over D.Disk E.Disk input.now stores.old stores.new)) }
{
    let examined = examine(alloc, input, stores)?;
    workers.go_on(
        rt,
        alloc,
        examined,
        stores.journal,
        stores.spool,
        &mut Silent,
    )
}
