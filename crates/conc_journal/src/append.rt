ghost use Rattle.std.specs.Prelude.{◌≡◌, ◌+◌, ◌^◌, ◌<◌, [], ◌∷◌, ◌++◌, length, All, IsTrue, OnErr, OnOk};
ghost use Rattle.conc_outside.specs.Counts.{Rose};
ghost use Rattle.conc_disk.specs.Disk.{Reaches};
ghost use Rattle.conc_journal_image.specs.Fields.{has_record};
ghost use Rattle.conc_journal_image.specs.declared.layout.TheConstants.{RECORD_BYTES};
ghost use Rattle.conc_disk.specs.Left.{EachImage, HasWritten, LeavesOnly, TornFrom};
ghost use Rattle.conc_journal.specs.Left.{AddedFrom, LeavesAdded};
ghost use Rattle.conc_journal.specs.Records.{IsSpelled};

use crate::durable::write_durable;
use conc_disk::Disk;
use conc_journal_image::record_of;
use conc_outside::Failed;
use conc_types::Event;

// The bytes of a record, and the closed gate of the next one.
fn before_gate(spelled: &[u8]) -> [u8; 32]
    requires { length spelled.now ≡ 31 }
    ensures bytes { result ≡ spelled.now ++ 0 ∷ [] }
    ensures are_bytes { All (λ byte. byte < 256) spelled.now }
{
    let mut bytes = [0; 32];
    bytes[..31].copy_from_slice(spelled);
    bytes
}

/// The event's record behind its gate, with this stamp where it is a command, and the closed gate of
/// the next one.
pub(crate) fn record_before_gate(event: Event, stamp: u64) -> [u8; 32]
    requires { IsTrue (has_record event) }
    ensures { IsSpelled event stamp result }
{
    before_gate(&record_of(event, stamp))
}

/// Writes the record behind its gate, which is here, and then opens the gate.
pub(crate) fn add_record<D: Disk>(disk: &mut D, at: u64, spelled: &[u8; 32]) -> Result<(), Failed>
    requires fits { at + 1 < 2 ^ 64 }
    requires behind { Reaches (D.state disk.old) (at + 1) }
    ensures images { EachImage (AddedFrom (D.state disk.old) at spelled.now) (D.state disk.new) }
    ensures added { OnOk result (LeavesAdded at spelled.now (D.state disk.old) (D.state disk.new)) }
    ensures written { OnOk result (HasWritten at (1 ∷ spelled.now) (D.state disk.old)
        (D.state disk.new)) }
    ensures survives { LeavesOnly (AddedFrom (D.state disk.old) at spelled.now) (D.state disk.old)
        (D.state disk.new) }
    ensures writes_there { LeavesOnly (TornFrom (D.state disk.old) at (RECORD_BYTES + 1))
        (D.state disk.old) (D.state disk.new) }
    ensures failed { OnErr result (Rose (D.state disk.old).faults (D.state disk.new).faults) }
{
    write_durable(disk, at + 1, spelled)?;
    write_durable(disk, at, &[1])
}
