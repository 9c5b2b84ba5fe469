ghost use Rattle.std.specs.Prelude.{IfOk, OnErr, OnOk};
ghost use Rattle.conc_outside.specs.Counts.{Rose};
ghost use Rattle.conc_disk.specs.Disk.{HasLength, LeavesWhatWasSeen, Stays};
ghost use Rattle.conc_disk.specs.Left.{LeavesOnly};

use crate::Disk;
use conc_outside::Failed;

/// Brings all that was written to the disk, and returns the number of its bytes.
pub fn settle<D: Disk>(disk: &mut D) -> Result<u64, Failed>
    ensures length { IfOk result (λ n. HasLength (D.state disk.new) n) }
    ensures durable { OnOk result (LeavesWhatWasSeen (D.state disk.old) (D.state disk.new)) }
    ensures stays { Stays (D.state disk.old) (D.state disk.new) }
    ensures survives { LeavesOnly (D.state disk.old).may_leave (D.state disk.old)
        (D.state disk.new) }
    ensures failed { OnErr result (Rose (D.state disk.old).faults (D.state disk.new).faults) }
{
    disk.sync()?;
    disk.len()
}
