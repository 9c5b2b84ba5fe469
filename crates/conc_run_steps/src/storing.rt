ghost use Rattle.std.specs.Prelude.{◌≡◌, ◌∷◌, ◌++◌, [], IfErr, IsOk, None, OnErr, OnOk, Some};
ghost use Rattle.conc_run_choice.specs.Choices.{HasItsText};
ghost use Rattle.conc_base_law.specs.Law.{Lawful};
ghost use Rattle.conc_outside.specs.Counts.{Rose};
ghost use Rattle.conc_run_steps.specs.Steps.{any_disk, IsTied, MayLog, plan_in, readings_in, StoresOn};
ghost use Rattle.conc_journal_spool.specs.Spools.{used_of};
ghost use Rattle.conc_run_state.specs.Works.{list_in};
ghost use Rattle.conc_run_state.specs.declared.error.RunFail.TheVariants as RunFail;

use conc_disk::{Disk, DiskFault};
use conc_run_choice::Next;
use conc_run_state::{RunFail, Work};

/// Brings the text of the event, if it has one, to the spool's disk. After a fault the spool is as before.
pub fn store_text<E: Disk>(work: &mut Work<'_>, spool: &mut E, next: &Next) -> Result<(), RunFail>
    requires tied { IsTied None work.old any_disk (E.state spool.old) }
    requires lawful { Lawful (plan_in work.old) (readings_in work.old)
        (list_in work.old ++ next.now.event ∷ []) }
    requires text { HasItsText (plan_in work.old) next.now.event next.now.text }

    ensures pending { OnOk result (IsTied (Some next.now.event) work.new any_disk
        (E.state spool.new)) }
    ensures stored { OnOk result (StoresOn (plan_in work.old) (used_of work.old.spool)
        (list_in work.old) (list_in work.old ++ next.now.event ∷ []) (E.state spool.old)
        (E.state spool.new)) }

    // An event without a text asks nothing of the disk.
    ensures without_text { next.now.text ≡ None → IsOk result
        × (spool.new ≡ spool.old) }

    // A fault.
    ensures not_stored { OnErr result (IsTied None work.new any_disk (E.state spool.new)) }
    ensures as_before { OnErr result (StoresOn (plan_in work.old) (used_of work.old.spool)
        (list_in work.old) (list_in work.old) (E.state spool.old) (E.state spool.new)) }
    ensures fault { OnErr result (Rose (E.state spool.old).faults (E.state spool.new).faults) }
    ensures cause { IfErr result (λ e. e ≡ RunFail.SpoolFault) }

    // All else stays.
    ensures may { MayLog work.old next.now.event → MayLog work.new next.now.event }
    ensures machine { work.new.machine ≡ work.old.machine }
    ensures journal { work.new.journal ≡ work.old.journal }
{
    match &next.text {
        None => Ok(()),
        Some(text) => match work.spool.append(spool, text.as_slice()) {
            Ok(_) => Ok(()),
            Err(DiskFault) => Err(RunFail::SpoolFault),
        },
    }
}
