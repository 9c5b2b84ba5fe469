ghost use Rattle.std.specs.Prelude.{◌≡◌, ◌+◌, ◌^◌, ◌<◌, ◌≤◌, count_by, is_some, length, IfOk, IfSome, OnErr, OnOk};
ghost use Rattle.std.specs.Int.{to_be_bytes, w64};
ghost use Rattle.std.specs.Option.{option_map};
ghost use Rattle.conc_outside.specs.Counts.{Rose};
ghost use Rattle.conc_disk.specs.Disk.{Follows, IsLater, Reaches, Torn, written};
ghost use Rattle.conc_disk.specs.Left.{EachImage, LeavesOnly};
ghost use Rattle.conc_journal_image.specs.Fields.{has_stamp};
ghost use Rattle.conc_journal_image.specs.Layout.{offset_behind};
ghost use Rattle.conc_journal_image.specs.declared.label.Label.{Label};
ghost use Rattle.conc_journal_image.specs.declared.label.Version.TheVariants.{One};
ghost use Rattle.conc_journal_image.specs.declared.layout.TheConstants.{MOST_RECORDS};
ghost use Rattle.conc_journal.specs.Journals.{FitsState};
ghost use Rattle.conc_journal.specs.Migrating.{HasMigrated, HaveStamps, IsOfOne, IsOfTwo, IsStamping, StaysOfOne, with_stamps};
ghost use Rattle.conc_journal.specs.declared.journal.JournalState.TheVariants.{MigrateFailed};

use crate::durable::write_durable;
use conc_disk::Disk;
use conc_journal_image::offset_behind;
use conc_outside::Failed;
use conc_types::Event;

// Where a record has its stamp.
const STAMP_AT: u64 = 12;

// Where the header has the base digest, and the version.
const BASE_AT: u64 = 48;

const VERSION_AT: u64 = 63;

// Writes a stamp into the record behind so many others.
fn write_stamp<D: Disk>(disk: &mut D, records: u64, stamp: u64) -> Result<(), Failed>
    requires few { records < MOST_RECORDS }
    requires reaches { Reaches (D.state disk.old) (offset_behind records + 33) }
    ensures later { IsLater (D.state disk.old) (D.state disk.new) }
    ensures exposes { is_some (D.state disk.new).seen ≡ is_some (D.state disk.old).seen }
    ensures images { Follows (Torn (offset_behind records + 12) 8) (D.state disk.old)
        (D.state disk.new) }
    ensures written { OnOk result ((D.state disk.new).seen ≡ option_map
        (written (offset_behind records + 12) (to_be_bytes w64 stamp)) (D.state disk.old).seen) }
    ensures failed { OnErr result (Rose (D.state disk.old).faults (D.state disk.new).faults) }
{
    disk.write_at(offset_behind(records) + STAMP_AT, &stamp.to_be_bytes())
}

// Writes the next stamp into the record of the event at this index, if the event is a command. It hands
// out how many stamps are written then.
fn stamp_event<D: Disk>(
    disk: &mut D,
    events: &[Event],
    index: usize,
    stamps: &[u64],
    number: usize,
) -> Result<usize, Failed>
    requires few { length events.now ≤ MOST_RECORDS }
    requires index { index < length events.now }
    requires counted { length stamps.now ≡ count_by has_stamp events.now }
    requires stamping { (before : D) × IsStamping events.now stamps.now index number
        (D.state before) (D.state disk.old) }
    ensures stamped { (before : D) → IsStamping events.now stamps.now index number
        (D.state before) (D.state disk.old) → IfOk result (λ next. IsStamping events.now
        stamps.now (index + 1) next (D.state before) (D.state disk.new)) }
    ensures stays { (before : D) → IsStamping events.now stamps.now index number
        (D.state before) (D.state disk.old)
        → OnErr result (StaysOfOne events.now (D.state before) (D.state disk.new)) }
    ensures failed { OnErr result (Rose (D.state disk.old).faults (D.state disk.new).faults) }
{
    match events[index] {
        Event::Command { .. } => {
            write_stamp(disk, index as u64, stamps[number])?;
            Ok(number + 1)
        }
        _ => Ok(number),
    }
}

// Writes the stamps of the commands among these events into their records.
fn write_stamps<D: Disk>(disk: &mut D, events: &[Event], stamps: &[u64]) -> Result<(), Failed>
    requires few { length events.now ≤ MOST_RECORDS }
    requires counted { length stamps.now ≡ count_by has_stamp events.now }
    requires reaches { Reaches (D.state disk.old) (offset_behind (length events.now) + 1) }
    ensures stays { StaysOfOne events.now (D.state disk.old) (D.state disk.new) }
    ensures stamped { OnOk result (IfSome (D.state disk.new).seen
        (HaveStamps events.now stamps.now)) }
    ensures bytes { OnOk result ((D.state disk.new).seen
        ≡ option_map (with_stamps (length events.now) events.now stamps.now) (D.state disk.old).seen) }
    ensures reaches { OnOk result (Reaches (D.state disk.new)
        (offset_behind (length events.now) + 1)) }
    ensures failed { OnErr result (Rose (D.state disk.old).faults (D.state disk.new).faults) }
{
    let mut number = 0;
    for index in 0..events.len() {
        number = stamp_event(disk, events, index, stamps, number)?;
    }
    Ok(())
}

/// Writes into a journal of version 1 with these events the stamps of their commands, and the base
/// digest, and then the version 2.
pub(crate) fn write_version<D: Disk>(
    disk: &mut D,
    events: &[Event],
    base: &[u8; 15],
    stamps: &[u64],
) -> Result<(), Failed>
    requires few { length events.now ≤ MOST_RECORDS }
    requires counted { length stamps.now ≡ count_by has_stamp events.now }
    requires reaches { Reaches (D.state disk.old) (offset_behind (length events.now) + 1) }
    ensures images { (label : Label) → label.version ≡ One
        → EachImage (IsOfOne label events.now) (D.state disk.old)
        → EachImage (FitsState (MigrateFailed label base.now) stamps.now events.now)
        (D.state disk.new) }
    ensures turned { (label : Label) → label.version ≡ One
        → EachImage (IsOfOne label events.now) (D.state disk.old)
        → OnOk result (EachImage (IsOfTwo label base.now stamps.now events.now)
        (D.state disk.new)) }
    ensures survives { (label : Label) → label.version ≡ One
        → EachImage (IsOfOne label events.now) (D.state disk.old)
        → LeavesOnly (FitsState (MigrateFailed label base.now) stamps.now events.now)
        (D.state disk.old) (D.state disk.new) }
    ensures bytes { OnOk result (HasMigrated events.now base.now stamps.now (D.state disk.old)
        (D.state disk.new)) }
    ensures failed { OnErr result (Rose (D.state disk.old).faults (D.state disk.new).faults) }
{
    write_stamps(disk, events, stamps)?;
    write_durable(disk, BASE_AT, base)?;
    write_durable(disk, VERSION_AT, &[1])
}
