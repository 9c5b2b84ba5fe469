ghost use Rattle.std.specs.Prelude.{◌≡◌, ◌⊎◌, IsErrOf, IsTrue, OnOk};
ghost use Rattle.conc_journal.specs.Journals.{state_of};
ghost use Rattle.conc_outside.specs.Counts.{Rose};
ghost use Rattle.conc_run_state.specs.Disks.{disks};
ghost use Rattle.conc_run_state.specs.Works.{list_in};
ghost use Rattle.conc_run_state.specs.declared.error.RunFail.TheVariants as RunFail;
ghost use Rattle.conc_run_steps.specs.Going.{WentOn};
ghost use Rattle.conc_run_steps.specs.Steps.{IsReady, plan_in, readings_in};
ghost use Rattle.conc_run_steps.specs.Told.{IsTold, IsUntold};
ghost use Rattle.conc_run_alone.specs.Runs.{GoesAlone, HasFinished, LacksMemoryAfter};

use crate::running::step;
use conc_disk::Disk;
use conc_journal::Teller;
use conc_run_state::{RunFail, Work};
use conc_run_steps::tell;
use std::alloc::Global;
use std::sync::Wait;

/// Goes on as `run_alone` does, and tells each event that it added once that is on the disk. A teller that finds no
/// memory ends the run: the last event is then in the journal, and it was not told.
pub fn run_told<R: Wait, D: Disk, E: Disk, T: Teller>(
    rt: &R,
    alloc: Global,
    work: &mut Work<'_>,
    journal: &mut D,
    spool: &mut E,
    teller: &mut T,
) -> Result<(), RunFail>
    requires ready { IsReady work.old (D.state journal.old) (E.state spool.old) }
    requires told { IsTold (T.list teller.old) (T.takes teller.old) (plan_in work.old)
        (list_in work.old) }

    // What it makes, however it ends.
    ensures went_on { WentOn (plan_in work.old) (readings_in work.old)
        (disks (D.state journal.old) (D.state journal.new) (E.state spool.old) (E.state spool.new))
        work.old work.new }
    ensures alone { GoesAlone work.old work.new }
    ensures finished { OnOk result (HasFinished work.old work.new) }
    ensures told { OnOk result (IsTold (T.list teller.new) (T.takes teller.new) (plan_in work.old)
        (list_in work.new)) }

    // Why it ends before.
    ensures journal_fault { IsErrOf result RunFail.JournalFault
        → Rose (D.state journal.old).faults (D.state journal.new).faults }
    ensures spool_fault { IsErrOf result RunFail.SpoolFault
        → Rose (E.state spool.old).faults (E.state spool.new).faults }
    ensures memory { IsErrOf result RunFail.NoMemory → LacksMemoryAfter work.old work.new
        ⊎ (IsTrue (T.may_lack teller.new) × IsUntold (T.list teller.new) (list_in work.new)) }
    ensures sound { (IsErrOf result RunFail.JournalFault → ⊥)
        → state_of work.new.journal ≡ state_of work.old.journal }
{
    while let Some(receipt) = step(alloc, work, journal, spool)? {
        tell(rt, teller, &receipt)?;
    }
    Ok(())
}
