ghost use Rattle.std.specs.Prelude.{◌≡◌, ◌⊎◌, ◌+◌, ◌<◌, ◌∷◌, ◌++◌, [], IfOk, IsTrue, None, OnErr, OnOk, Some, length};
ghost use Rattle.conc_journal.specs.Journals.{room_of, state_of};
ghost use Rattle.conc_journal.specs.Receipts.{IsNextOf};
ghost use Rattle.conc_journal.specs.JournalStates.{after_fault, has_faulted};
ghost use Rattle.conc_journal_image.specs.Fields.{has_record};
ghost use Rattle.conc_base_law.specs.Law.{Lawful};
ghost use Rattle.conc_outside.specs.Counts.{Rose};
ghost use Rattle.conc_run_steps.specs.Logging.{LogsEvent};
ghost use Rattle.conc_run_state.specs.Adding.{AddsRecords, stamp_for};
ghost use Rattle.conc_run_steps.specs.Steps.{any_disk, IsTied, MayLog, plan_in, readings_in, StaysBegun, StaysHeld, SurvivesFor};
ghost use Rattle.conc_run_state.specs.Works.{list_in};

use crate::JournalFault;
use conc_disk::Disk;
use conc_journal::Receipt;
use conc_run_state::{RunFail, Work};
use conc_types::{Event, Plan};

// The stamp with which an event is journaled: the plan's for a command, and 0 for every other event.
fn stamp_due(plan: &Plan, event: Event) -> u64
    ensures { result ≡ stamp_for plan.now event }
{
    match event {
        Event::Command { number } => plan.stamp(number).unwrap_or(0),
        _ => 0,
    }
}

/// Adds an event to the journal, and then takes it into the machine. After a fault the machine has not taken
/// it, and the journal's disk has it or not; where an earlier append had met one nothing is done. The spool
/// and its disk stay as they are.
pub fn add_event<D: Disk>(
    work: &mut Work<'_>,
    journal: &mut D,
    event: Event,
) -> Result<Receipt, JournalFault>
    requires tied { IsTied (Some event) work.old (D.state journal.old) any_disk }
    requires lawful { Lawful (plan_in work.old) (readings_in work.old)
        (list_in work.old ++ event ∷ []) }
    requires spelled { IsTrue (has_record event) }
    requires room { 0 < room_of work.old.journal }

    ensures logged { OnOk result (IsTied None work.new (D.state journal.new) any_disk) }
    ensures added { OnOk result (list_in work.new ≡ list_in work.old ++ event ∷ []) }
    ensures receipt { IfOk result (IsNextOf (Some (list_in work.old))
        (λ list. list ≡ list_in work.new)) }
    ensures state { OnOk result (state_of work.new.journal ≡ state_of work.old.journal) }
    ensures written { OnOk result (AddsRecords (plan_in work.old) (length (list_in work.old))
        (event ∷ []) (D.state journal.old) (D.state journal.new)) }
    ensures room { OnOk result (room_of work.new.journal + 1 ≡ room_of work.old.journal) }
    ensures begun_for { OnOk result (StaysBegun (plan_in work.old) work.old.journal
        work.new.journal) }

    // A fault.
    ensures not_logged { OnErr result (IsTied (Some event) work.new (D.state journal.new)
        any_disk) }
    ensures as_before { OnErr result (list_in work.new ≡ list_in work.old) }
    ensures machine { OnErr result (work.new.machine ≡ work.old.machine) }
    ensures failed { OnErr result (state_of work.new.journal
        ≡ after_fault event (stamp_for (plan_in work.old) event) (state_of work.old.journal)) }
    ensures held_for { OnErr result (StaysHeld (plan_in work.old) work.old.journal
        work.new.journal) }
    ensures fault { OnErr result (Rose (D.state journal.old).faults (D.state journal.new).faults
        ⊎ IsTrue (has_faulted (state_of work.old.journal))) }

    // A crash at any moment, and what stays.
    ensures survives { SurvivesFor work.old (list_in work.old)
        (list_in work.old ++ event ∷ []) (D.state journal.old) (D.state journal.new) }
    ensures plan { plan_in work.new ≡ plan_in work.old }
    ensures readings { readings_in work.new ≡ readings_in work.old }
    ensures spool { work.new.spool ≡ work.old.spool }
{
    let stamp = stamp_due(work.machine.plan(), event);
    match work.journal.append(journal, event, stamp) {
        Ok(receipt) => {
            work.machine.apply(event);
            Ok(receipt)
        }
        Err(_) => Err(JournalFault),
    }
}

/// Adds an event to the journal, and then takes it into the machine. The spool's disk, which is only
/// lent, has the event's text, if it is an end with one. After a fault the machine has not taken the
/// event, and the journal's disk has it or not.
pub fn log_event<D: Disk, E: Disk>(
    work: &mut Work<'_>,
    journal: &mut D,
    spool: &E,
    event: Event,
) -> Result<Receipt, RunFail>
    requires tied { IsTied (Some event) work.old (D.state journal.old) (E.state spool.now) }
    requires may { MayLog work.old event }
    ensures { LogsEvent event result work.old work.new (D.state journal.old)
        (D.state journal.new) (E.state spool.now) }
{
    Ok(add_event(work, journal, event)?)
}
