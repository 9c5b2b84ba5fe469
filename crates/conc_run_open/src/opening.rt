ghost use Rattle.std.specs.Prelude.{◌≡◌, ◌⊎◌, ◌<◌, IfErr, IfOk, IfSome, IsFalse, IsNone, OnErr, Some};
ghost use Rattle.conc_disk.specs.Disk.{Stays};
ghost use Rattle.conc_disk.specs.Left.{LeavesOnly};
ghost use Rattle.conc_journal.specs.Journals.{IsOn, room_of, state_of};
ghost use Rattle.conc_journal.specs.Receipts.{IsNextOf};
ghost use Rattle.conc_outside.specs.Counts.{Rose};
ghost use Rattle.conc_run_state.specs.Causes.{HasCause, is_journal_fault};
ghost use Rattle.conc_run_state.specs.Handed.{IsUntouched};
ghost use Rattle.conc_run_state.specs.Stores.{ran_over, SameStores};
ghost use Rattle.conc_run_state.specs.Works.{AreReady, list_in};
ghost use Rattle.conc_run_state.specs.declared.error.HistoryFail.TheVariants as history_fail;
ghost use Rattle.conc_run_state.specs.declared.error.DiskName.TheVariants as disk_name;
ghost use Rattle.conc_run_open.specs.Examined.{digests_held, IsInHand, MayStartWith, list_found, plan_held, readings_held};
ghost use Rattle.conc_run_open.specs.Opening.{BeginsOn, IsBegun, IsGivenUp};

use crate::examining::{Examined, examine};
use crate::starting::start;
use conc_disk::{Disk, DiskFault};
use conc_journal::Receipt;
use conc_run_state::{DiskName, HistoryFail, Input, Stores, Work};
use std::alloc::Global;

/// A life that is begun.
#[derive(Drop)]
pub struct Begun<'p> {
    pub work: Work<'p>,
    /// The receipt of the resume, where one was added.
    pub resumed: Option<Receipt>,
}

/// Begins the life of what was examined: it writes the header where no journal was begun, brings a
/// journal of version 1 to version 2, and adds a resume where events were found, and hands out its
/// receipt. The spool's disk is only lent.
pub fn begin<'p, D: Disk, E: Disk>(
    examined: Examined<'p>,
    journal: &mut D,
    spool: &E,
) -> Result<Begun<'p>, HistoryFail>
    requires may { MayStartWith (plan_held examined) (digests_held examined) examined.due.items
        examined.journal }
    requires room { 0 < room_of examined.journal }
    requires on { IsOn examined.journal (D.state journal.old) }

    // Of what was found on disks that stood so.
    ensures begins { BeginsOn D.Disk E.Disk examined.entry journal.old journal.new spool.now
        result }

    // Of what is in hand.
    ensures ready { IsInHand examined.entry (D.state journal.old) (E.state spool.now)
        → IfOk result (λ begun. AreReady (plan_held examined.entry) (readings_held examined.entry)
        begun.work (D.state journal.new) (E.state spool.now)) }
    ensures resumed { IfOk result (λ begun. IfSome begun.resumed
        (IsNextOf (Some (list_found examined.entry)) (λ list. list ≡ list_in begun.work))) }
    ensures still { IfOk result (λ begun. IsNone begun.resumed
        → list_in begun.work ≡ list_found examined.entry) }
    ensures cause { IfErr result (λ fail. fail ≡ history_fail.DiskFault disk_name.Journal) }
    ensures fault { OnErr result (Rose (D.state journal.old).faults (D.state journal.new).faults) }
{
    let Examined {
        input,
        machine,
        journal: mut list,
        spool: texts,
        due,
    } = examined;
    match start(&mut list, journal, input.digests, &due) {
        Ok(resumed) => Ok(Begun {
            work: Work {
                machine,
                journal: list,
                spool: texts,
            },
            resumed,
        }),
        Err(DiskFault) => Err(HistoryFail::DiskFault {
            disk: DiskName::Journal,
        }),
    }
}

/// Opens the journal and the spool of a run of this input, and begins a life: it writes the header where
/// no journal was begun, brings a journal of version 1 to version 2, and adds a resume where events were
/// found. Before that it judges all that stands there, in this order: whether it is a journal, this
/// input's, and this script's; whether the spool can be read; the first record that is broken, that may
/// not follow, or whose extent ends past the spool; and whether there is room for a life. It takes the
/// memory for the machine, for the stamps and for the events of the life before it writes.
pub fn open<'p, D: Disk, E: Disk>(
    alloc: Global,
    input: &Input<'p>,
    stores: &mut Stores<'_, D, E>,
) -> Result<Work<'p>, HistoryFail>
    ensures same { SameStores stores.old stores.new }
    ensures begun { IfOk result (IsBegun (ran_over D.Disk E.Disk input.now stores.old stores.new)) }

    // Each cause, and what is written then.
    ensures cause { IfErr result
        (HasCause (ran_over D.Disk E.Disk input.now stores.old stores.new)) }
    ensures untouched { IfErr result (λ e. IsFalse (is_journal_fault e)
        → IsUntouched (ran_over D.Disk E.Disk input.now stores.old stores.new)) }

    // A crash at any moment. What it leaves where a life is begun stands above.
    ensures given_up { OnErr result
        (IsUntouched (ran_over D.Disk E.Disk input.now stores.old stores.new)
        ⊎ IsGivenUp (ran_over D.Disk E.Disk input.now stores.old stores.new)) }
    ensures spool { Stays (E.state stores.old.spool.now) (E.state stores.new.spool.now) }
    ensures spool_survives { LeavesOnly (E.state stores.old.spool.now).may_leave
        (E.state stores.old.spool.now) (E.state stores.new.spool.now) }
{
    let examined = examine(alloc, input, stores)?;
    let Begun { work, .. } = begin(examined, stores.journal, stores.spool)?;
    Ok(work)
}
