ghost use Rattle.std.specs.Prelude.{◌≡◌, ◌<◌, IfErr, IfOk, IfSome, IsErrOf, IsNone, IsSome, None, OnErr, OnOk, Some};
ghost use Rattle.std.specs.Option.{ForSome, option_map};
ghost use Rattle.conc_run_choice.specs.Choices.{event_of, HasItsText};
ghost use Rattle.conc_outside.specs.Counts.{Rose};
ghost use Rattle.conc_journal.specs.Journals.{state_of};
ghost use Rattle.conc_journal.specs.Receipts.{IsNextOf};
ghost use Rattle.conc_run_state.specs.Disks.{disks};
ghost use Rattle.conc_run_alone.specs.Runs.{GoesAlone, HasFinished, LacksMemoryAfter, LacksMemoryAt, StepFits};
ghost use Rattle.conc_run_steps.specs.Going.{WentOn};
ghost use Rattle.conc_run_steps.specs.Steps.{any_disk, IsFinished, IsReady, IsTied, left_in, next_in, plan_in, readings_in};
ghost use Rattle.conc_run_state.specs.Works.{list_in};
ghost use Rattle.conc_run_state.specs.declared.error.RunFail.TheVariants as RunFail;

use conc_disk::Disk;
use conc_journal::Receipt;
use conc_run_choice::{Next, next_event};
use conc_run_state::{RunFail, Work};
use conc_run_steps::{log_event, store_text};
use std::alloc::Global;

// The event that comes next, if one does, with its text.
fn next(alloc: Global, work: &Work<'_>) -> Result<Option<Next>, RunFail>
    requires tied { IsTied None work.now any_disk any_disk }
    ensures event { IfOk result (λ next. option_map event_of next ≡ next_in work.now) }
    ensures text { IfOk result (λ next. ForSome next
        (λ n. HasItsText (plan_in work.now) n.event n.text)) }
    ensures cause { IfErr result (λ e. e ≡ RunFail.NoMemory) }
    ensures memory { OnErr result (LacksMemoryAt work.now) }
{
    Ok(next_event(alloc, &work.machine)?)
}

/// Adds the event that comes next, if one does, and hands out its receipt. Its text is on the spool's disk
/// before it is journaled, and it is journaled before the machine takes it in.
pub(crate) fn step<D: Disk, E: Disk>(
    alloc: Global,
    work: &mut Work<'_>,
    journal: &mut D,
    spool: &mut E,
) -> Result<Option<Receipt>, RunFail>
    requires ready { IsReady work.old (D.state journal.old) (E.state spool.old) }

    ensures went_on { WentOn (plan_in work.old) (readings_in work.old)
        (disks (D.state journal.old) (D.state journal.new) (E.state spool.old) (E.state spool.new))
        work.old work.new }
    ensures alone { GoesAlone work.old work.new }
    ensures ready { OnOk result (IsReady work.new (D.state journal.new) (E.state spool.new)) }
    ensures receipt { IfOk result (λ logged. IfSome logged
        (IsNextOf (Some (list_in work.old)) (λ list. list ≡ list_in work.new))) }
    ensures fits { StepFits work.old (disks (D.state journal.old) (D.state journal.new)
        (E.state spool.old) (E.state spool.new)) }
    ensures less { IfOk result (λ logged. IsSome logged → left_in work.new < left_in work.old) }
    ensures finished { IfOk result (λ logged. IsNone logged → IsFinished work.new) }
    ensures still { IfOk result (λ logged. IsNone logged
        → list_in work.new ≡ list_in work.old) }

    // Why it adds none.
    ensures journal_fault { IsErrOf result RunFail.JournalFault
        → Rose (D.state journal.old).faults (D.state journal.new).faults }
    ensures spool_fault { IsErrOf result RunFail.SpoolFault
        → Rose (E.state spool.old).faults (E.state spool.new).faults }
    ensures memory { IsErrOf result RunFail.NoMemory → LacksMemoryAt work.new }
    ensures sound { (IsErrOf result RunFail.JournalFault → ⊥)
        → state_of work.new.journal ≡ state_of work.old.journal }
{
    match next(alloc, work)? {
        None => Ok(None),
        Some(next) => {
            store_text(work, spool, &next)?;
            Ok(Some(log_event(work, journal, spool, next.event)?))
        }
    }
}

/// Goes on from the journal's list to the end of the history. Each choice is fixed: the event that is
/// forced; else the end of the request that runs, with its report; else the start of the first let
/// request in precedence at its first place; else the next reading. The text of a report is on the
/// spool's disk before the end is journaled, and an event is journaled before the machine takes it in. It
/// takes memory for reports alone. A report that finds none leaves its request without an end, and is
/// the one that comes next.
pub fn run_alone<D: Disk, E: Disk>(
    alloc: Global,
    work: &mut Work<'_>,
    journal: &mut D,
    spool: &mut E,
) -> Result<(), RunFail>
    requires ready { IsReady work.old (D.state journal.old) (E.state spool.old) }

    // What it makes, however it ends.
    ensures went_on { WentOn (plan_in work.old) (readings_in work.old)
        (disks (D.state journal.old) (D.state journal.new) (E.state spool.old) (E.state spool.new))
        work.old work.new }
    ensures alone { GoesAlone work.old work.new }
    ensures finished { OnOk result (HasFinished work.old work.new) }

    // Why it ends before.
    ensures journal_fault { IsErrOf result RunFail.JournalFault
        → Rose (D.state journal.old).faults (D.state journal.new).faults }
    ensures spool_fault { IsErrOf result RunFail.SpoolFault
        → Rose (E.state spool.old).faults (E.state spool.new).faults }
    ensures memory { IsErrOf result RunFail.NoMemory → LacksMemoryAfter work.old work.new }
    ensures sound { (IsErrOf result RunFail.JournalFault → ⊥)
        → state_of work.new.journal ≡ state_of work.old.journal }
{
    while step(alloc, work, journal, spool)?.is_some() {}
    Ok(())
}
