ghost use Rattle.std.specs.Prelude.{◌≡◌, ◌↔◌, IfErr, IfOk, IfSome, IsSome, IsTrue, List, OnErr, OnOk};
ghost use Rattle.conc_types.specs.declared.event.Event.{Event};
ghost use Rattle.conc_journal.specs.Receipts.{IsNextOf};
ghost use Rattle.conc_run_open.specs.Examined.{IsInHand, list_found, plan_held};
ghost use Rattle.conc_run_state.specs.Works.{list_in};
ghost use Rattle.conc_run_state.specs.declared.error.RunFail.TheVariants as run_fail;
ghost use Rattle.conc_run_steps.specs.Told.{IsTold};
ghost use Rattle.conc_run.specs.Telling.{LacksTelling, list_resumed};
ghost use Rattle.conc_run.specs.Whole.{EndsOn};

use crate::workers::Workers;
use conc_base_law::{lawful_is_lawful_so_far, table_of_alone};
use conc_disk::Disk;
use conc_edge_gate::Gate;
use conc_journal::{Receipt, Teller};
use conc_run_alone::run_told;
use conc_run_open::{Begun, Examined, begin};
use conc_run_state::{HistoryFail, RunFail, Work};
use conc_run_steps::tell;
use conc_run_workers::{Ran, run_with_workers};
use std::alloc::Global;
use std::sync::Wait;
use std::thread::Threads;

// Tells a teller of the resume, where one was added.
fn tell_resume<R: Wait, T: Teller>(
    rt: &R,
    teller: &mut T,
    resumed: Option<Receipt>,
) -> Result<(), RunFail>
    requires { IfSome resumed (IsNextOf (T.list teller.old) (T.takes teller.old)) }
    ensures told { OnOk result (T.list teller.new ≡ list_resumed resumed (T.list teller.old)) }
    ensures unchanged { OnErr result (T.list teller.new ≡ T.list teller.old) }
    ensures takes { (events : List Event) → T.takes teller.new events
        ↔ T.takes teller.old events }
    ensures some { OnErr result (IsSome resumed) }
    ensures cause { IfErr result (λ fail. fail ≡ run_fail.NoMemory) }
    ensures lacked { OnErr result (IsTrue (T.may_lack teller.new)) }
{
    match resumed {
        Some(receipt) => tell(rt, teller, &receipt),
        None => Ok(()),
    }
}

impl<G: Gate + Sync> Workers<'_, G> {
    /// Begins the life of what was examined, and runs to the end of the history, with these workers, or
    /// without where they have no thread. The teller stands at the events that were found, and is told each
    /// event once that is on the disk, the resume too. What it says holds of what was examined over disks
    /// that stand now as they stood then, whatever they were before. Want of memory comes where the run
    /// finds none, or where the teller does: the last event is then in the journal, and it was not told.
    pub fn go_on<'p, R: Threads + Wait + Sync, D: Disk + Send, E: Disk + Send, T: Teller + Send>(
        &self,
        rt: &R,
        alloc: Global,
        examined: Examined<'p>,
        journal: &mut D,
        spool: &mut E,
        teller: &mut T,
    ) -> Result<Work<'p>, HistoryFail>
        requires in_hand { IsInHand examined (D.state journal.old) (E.state spool.old) }
        requires told { IsTold (T.list teller.old) (T.takes teller.old) (plan_held examined)
            (list_found examined) }
        ensures ends { EndsOn D.Disk E.Disk self.now.threads
            (LacksTelling (T.may_lack teller.new) (T.list teller.new)) examined.entry
            journal.old journal.new spool.old spool.new result }
        ensures told { IfOk result (λ work. IsTold (T.list teller.new) (T.takes teller.new)
            (plan_held examined.entry) (list_in work)) }
    {
        lawful_is_lawful_so_far();
        table_of_alone();
        let Begun { mut work, resumed } = begin(examined, journal, spool)?;
        tell_resume(rt, teller, resumed)?;
        if self.threads == 0 {
            run_told(rt, alloc, &mut work, journal, spool, teller)?;
            return Ok(work);
        }
        let Ran { work, answer, .. } = run_with_workers(
            rt,
            alloc,
            work,
            journal,
            spool,
            teller,
            self.gate,
            self.threads,
        );
        answer?;
        Ok(work)
    }
}
