ghost use Rattle.std.specs.Prelude.{IfErr, IfOk};
ghost use Rattle.conc_disk.specs.Disk.{Stays};
ghost use Rattle.conc_disk.specs.Left.{LeavesOnly};
ghost use Rattle.conc_run_open.specs.Listing.{HasListCause, IsListed};

use crate::judging::resume_whole;
use crate::reading::open_own;
use conc_data_digests::LazyDigests;
use conc_disk::Disk;
use conc_run_state::HistoryFail;
use conc_types::{Event, Plan};
use std::alloc::Global;

/// The events in the journal of a run of this plan, whose input has these digests; none where no journal
/// was begun. It writes nothing, so a journal of version 1 stays one, and it needs no spool. It judges
/// what stands there, in this order: whether it is a journal, this input's, and this script's; and the
/// first record that is broken, or whose event may not follow those before it with every life judged as
/// an earlier one.
pub fn read_list<D: Disk>(
    alloc: Global,
    plan: &Plan,
    digests: &LazyDigests,
    journal: &mut D,
) -> Result<Vec<Event>, HistoryFail>
    ensures listed { IfOk result (λ events. IsListed plan.now digests.now (D.state journal.old)
        events.items) }
    ensures cause { IfErr result (HasListCause plan.now digests.now (D.state journal.old)
        (D.state journal.new)) }
    ensures stays { Stays (D.state journal.old) (D.state journal.new) }
    ensures survives { LeavesOnly (D.state journal.old).may_leave (D.state journal.old)
        (D.state journal.new) }
{
    let opened = open_own(alloc, plan, digests, journal)?;
    resume_whole(alloc, plan, opened.journal.events(), opened.broken)?;
    Ok(opened.journal.into_events())
}
