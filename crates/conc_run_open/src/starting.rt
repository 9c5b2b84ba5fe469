ghost use Rattle.std.specs.Prelude.{◌≡◌, ◌<◌, IsFalse, IsTrue, OnErr, OnOk, length};
ghost use Rattle.conc_outside.specs.Counts.{Rose};
ghost use Rattle.conc_types.specs.declared.digests.Digests.{Digests as DigestsOf};
ghost use Rattle.conc_types.specs.declared.plan.Plan.{Plan};
ghost use Rattle.conc_base_law.specs.Alone.{opening};
ghost use Rattle.conc_journal.specs.Journals.{IsOn, list_of, room_of, state_of};
ghost use Rattle.conc_journal.specs.JournalStates.{has_faulted, takes_events};
ghost use Rattle.conc_disk.specs.Disk.{SeenFollows};
ghost use Rattle.conc_run_state.specs.Adding.{AddsRecords};
ghost use Rattle.conc_run_state.specs.Inputs.{IsBegunFor, IsOfVersionTwo};
ghost use Rattle.conc_run_open.specs.Examined.{MayStartWith};
ghost use Rattle.conc_run_open.specs.Starting.{HasOpened, IsOpened, IsRenewed, resume_behind, SurvivesBetween};

use conc_data_digests::LazyDigests;
use conc_disk::{Disk, DiskFault};
use conc_journal::{Journal, Receipt};
use conc_types::Event;

// Brings a journal that was begun to version 2, with these stamps, unless it is of that version.
fn renew<D: Disk>(
    journal: &mut Journal,
    disk: &mut D,
    digests: &LazyDigests,
    due: &[u64],
) -> Result<(), DiskFault>
    requires may { (plan : Plan) × MayStartWith plan digests.now due.now journal.old }
    requires begun { IsTrue (takes_events (state_of journal.old)) }
    requires on { IsOn journal.old (D.state disk.old) }
    ensures on { IsOn journal.new (D.state disk.new) }
    ensures begun_for { (plan : Plan) → MayStartWith plan digests.now due.now journal.old
        → OnOk result (IsBegunFor plan digests.now journal.new) }
    ensures version { OnOk result (IsOfVersionTwo journal.new) }
    ensures list { list_of journal.new ≡ list_of journal.old }
    ensures room { room_of journal.new ≡ room_of journal.old }
    ensures written { (plan : Plan) → MayStartWith plan digests.now due.now journal.old
        → OnOk result (SeenFollows (IsRenewed plan digests.now (list_of journal.old))
        (D.state disk.old) (D.state disk.new)) }
    ensures fault { OnErr result (Rose (D.state disk.old).faults (D.state disk.new).faults) }
    ensures survives { (plan : Plan) → MayStartWith plan digests.now due.now journal.old
        → SurvivesBetween plan digests.now (list_of journal.old) (list_of journal.old)
        (D.state disk.old) (D.state disk.new) }
{
    if journal.is_of_version_one() {
        journal.migrate(disk, &digests.base(), due)
    } else {
        Ok(())
    }
}

// Adds a resume where the journal has events.
fn resume<D: Disk>(journal: &mut Journal, disk: &mut D) -> Result<Option<Receipt>, DiskFault>
    requires begun { IsTrue (takes_events (state_of journal.old)) }
    requires sound { IsFalse (has_faulted (state_of journal.old)) }
    requires room { 0 < room_of journal.old }
    requires on { IsOn journal.old (D.state disk.old) }
    ensures on { OnOk result (IsOn journal.new (D.state disk.new)) }
    ensures begun_for { (plan : Plan) (digests : DigestsOf) → IsBegunFor plan digests journal.old
        → OnOk result (IsBegunFor plan digests journal.new) }
    ensures version { IsOfVersionTwo journal.old → OnOk result (IsOfVersionTwo journal.new) }
    ensures opened { HasOpened result journal.old journal.new }
    ensures written { (plan : Plan) → OnOk result (AddsRecords plan (length (list_of journal.old))
        (resume_behind (list_of journal.old)) (D.state disk.old) (D.state disk.new)) }
    ensures fault { OnErr result (Rose (D.state disk.old).faults (D.state disk.new).faults) }
    ensures survives { (plan : Plan) (digests : DigestsOf) → IsBegunFor plan digests journal.old
        → SurvivesBetween plan digests (list_of journal.old) (opening (list_of journal.old))
        (D.state disk.old) (D.state disk.new) }
{
    if journal.events().is_empty() {
        return Ok(None);
    }
    match journal.append(disk, Event::Resume, 0) {
        Ok(receipt) => Ok(Some(receipt)),
        Err(_) => Err(DiskFault),
    }
}

/// Begins a life in a journal: the header where none was begun; version 2 where it is of version 1; and a
/// resume where it has events. It hands out the receipt of the resume, where it added one.
pub(crate) fn start<D: Disk>(
    journal: &mut Journal,
    disk: &mut D,
    digests: &LazyDigests,
    due: &[u64],
) -> Result<Option<Receipt>, DiskFault>
    requires may { (plan : Plan) × MayStartWith plan digests.now due.now journal.old }
    requires room { 0 < room_of journal.old }
    requires on { IsOn journal.old (D.state disk.old) }

    ensures on { OnOk result (IsOn journal.new (D.state disk.new)) }
    ensures begun_for { (plan : Plan) → MayStartWith plan digests.now due.now journal.old
        → OnOk result (IsBegunFor plan digests.now journal.new) }
    ensures version { OnOk result (IsOfVersionTwo journal.new) }
    ensures opened { HasOpened result journal.old journal.new }
    ensures written { (plan : Plan) → MayStartWith plan digests.now due.now journal.old
        → OnOk result (SeenFollows (IsOpened plan digests.now (list_of journal.old))
        (D.state disk.old) (D.state disk.new)) }
    ensures fault { OnErr result (Rose (D.state disk.old).faults (D.state disk.new).faults) }

    ensures survives { (plan : Plan) → MayStartWith plan digests.now due.now journal.old
        → SurvivesBetween plan digests.now (list_of journal.old)
        (opening (list_of journal.old)) (D.state disk.old) (D.state disk.new) }
{
    if !journal.takes_events() {
        journal.begin(disk, &digests.both())?;
        return Ok(None);
    }
    renew(journal, disk, digests, due)?;
    resume(journal, disk)
}
