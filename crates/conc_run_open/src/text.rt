ghost use Rattle.std.specs.Prelude.{◌≡◌, IfErr, IfOk, MatchOption};
ghost use Rattle.conc_run_state.specs.Disks.{AreUntouched};
ghost use Rattle.conc_run_state.specs.Stores.{disks_of, SameStores};
ghost use Rattle.conc_run_open.specs.Texts.{HasEnd, HasNoEnd, HasText, HasTextCause, report_in};

use crate::TextFail;
use crate::judging::resume_whole;
use crate::reading::{open_own, open_texts};
use conc_data_digests::LazyDigests;
use conc_disk::Disk;
use conc_run_state::Stores;
use conc_types::{Event, Extent, Plan, RequestId};
use std::alloc::Global;

// Where the report of this request stands, if the event is its end and has one.
fn report_in(event: Event, id: RequestId) -> Option<Extent>
    ensures { result ≡ report_in event id }
{
    match event {
        Event::Ended {
            request,
            extent,
            ..
        } if request == id => extent,
        _ => None,
    }
}

// Where the report of the first end of this request stands that has one.
fn find_report(events: &[Event], id: RequestId) -> Option<Extent>
    ensures { MatchOption result (HasNoEnd events.now id) (HasEnd events.now id) }
{
    for event in events {
        if let Some(extent) = report_in(*event, id) {
            return Some(extent);
        }
    }
    None
}

/// The text of the report with which this request ended, from the spool of a run of this plan, whose
/// input has these digests. It writes nothing, so a journal of version 1 stays one. It judges what stands
/// on the disks, in this order: whether there is a journal, this input's, and this script's; whether the
/// spool can be read; and the first record that is broken, that may not follow, or whose extent ends past
/// the spool. Only then it looks for the end of the request and reads its text.
pub fn read_text<D: Disk, E: Disk>(
    alloc: Global,
    plan: &Plan,
    digests: &LazyDigests,
    id: RequestId,
    stores: &mut Stores<'_, D, E>,
) -> Result<Vec<u8>, TextFail>
    ensures same { SameStores stores.old stores.new }
    ensures text { IfOk result (λ text. HasText plan.now digests.now id
        (D.state stores.old.journal.now) (E.state stores.old.spool.now) text.items) }
    ensures cause { IfErr result (HasTextCause plan.now digests.now id
        (disks_of D.Disk E.Disk stores.old stores.new)) }
    ensures untouched { AreUntouched (disks_of D.Disk E.Disk stores.old stores.new) }
{
    let opened = open_own(alloc, plan, digests, stores.journal)?;
    let texts = open_texts(alloc, plan, opened.journal.events(), stores.spool)?;
    resume_whole(alloc, plan, opened.journal.events(), opened.broken)?;
    let Some(extent) = find_report(opened.journal.events(), id) else {
        return Err(TextFail::NotEnded);
    };
    Ok(texts.read(alloc, stores.spool, extent)?)
}
