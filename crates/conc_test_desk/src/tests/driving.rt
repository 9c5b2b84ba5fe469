ghost use Rattle.std.specs.Prelude.{◌≡◌, ◌<◌, ◌+◌, IfOk, IsTrue, None, OnOk};
ghost use Rattle.conc_pool_seats.specs.declared.views.LeadState.TheVariants as lead_state;
ghost use Rattle.conc_run_desk.specs.Desks.{lead_state_at};
ghost use Rattle.conc_test_desk.specs.Driven.{IsDriven, IsPlain, room_at};

use crate::Disks;
use conc_board::{Board, Looked, Progress};
use conc_run_desk::{Desk, KeepFail, Kept};
use conc_types::{Event, PlaceId, RequestId};
use std::process::Abort;

/// Logs an event that is no start and no end, and has to be lawful. False where the journal's disk failed.
pub(crate) fn log<Rt: Abort>(
    rt: &Rt,
    board: &Board,
    desk: &mut Desk<'_>,
    disks: &mut Disks,
    r: RequestId,
    event: Event,
) -> bool
    requires driven { IsDriven r board.now desk.old disks.old }
    requires room { 0 < room_at desk.old }
    requires plain { IsPlain event }
    ensures driven { IsDriven r board.now desk.new disks.new }
    ensures room { IsTrue result → room_at desk.new + 1 ≡ room_at desk.old }
{
    if !desk.machine().judge(&event) {
        panic!(rt; "the event is not lawful");
    }
    desk.log_event(board, &mut disks.journal, event).is_ok()
}

/// Lets the request out on the board, which has to be let there and not to run, and not to be on the board.
pub(crate) fn release<Rt: Abort>(
    rt: &Rt,
    board: &Board,
    desk: &mut Desk<'_>,
    disks: &mut Disks,
    r: RequestId,
)
    requires driven { IsDriven r board.now desk.old disks.old }
    ensures driven { IsDriven r board.now desk.new disks.new }
    ensures room { room_at desk.new ≡ room_at desk.old }
{
    match desk.progress(board, r) {
        Progress::NotLet => {}
        _ => panic!(rt; "the request is on the board"),
    }
    if !desk.machine().waits_to_start(r) {
        panic!(rt; "the request is not let");
    }
    desk.release(board, r);
}

/// Withdraws the request from the board, which has to be let out there.
pub(crate) fn withdraw<Rt: Abort>(
    rt: &Rt,
    board: &Board,
    desk: &mut Desk<'_>,
    disks: &mut Disks,
    r: RequestId,
)
    requires driven { IsDriven r board.now desk.old disks.old }
    ensures driven { IsDriven r board.now desk.new disks.new }
    ensures room { room_at desk.new ≡ room_at desk.old }
{
    match desk.progress(board, r) {
        Progress::Let => desk.withdraw(board, r),
        _ => panic!(rt; "the request is not let out"),
    }
}

/// Sees the request, which has to be let out, claimed by a place.
pub(crate) fn see_claim<Rt: Abort>(
    rt: &Rt,
    board: &Board,
    desk: &mut Desk<'_>,
    disks: &mut Disks,
    r: RequestId,
) -> PlaceId
    requires driven { IsDriven r board.now desk.old disks.old }
    ensures driven { IsDriven r board.now desk.new disks.new }
    ensures room { room_at desk.new ≡ room_at desk.old }
    ensures seen { lead_state_at desk.new r ≡ lead_state.Seen result }
{
    match desk.progress(board, r) {
        Progress::Let => {}
        _ => panic!(rt; "the request is not let out"),
    }
    match desk.look(board, r) {
        Looked::Claimed(place) => place,
        _ => panic!(rt; "the request is not claimed"),
    }
}

/// Logs the start of the request at the place that claims it. False where the journal's disk failed; the claim then
/// stands.
pub(crate) fn start<Rt: Abort>(
    rt: &Rt,
    board: &Board,
    desk: &mut Desk<'_>,
    disks: &mut Disks,
    r: RequestId,
) -> bool
    requires driven { IsDriven r board.now desk.old disks.old }
    requires room { 0 < room_at desk.old }
    ensures driven { IsDriven r board.now desk.new disks.new }
    ensures room { IsTrue result → room_at desk.new + 1 ≡ room_at desk.old }
{
    let event = Event::Started {
        request: r,
        place: see_claim(rt, board, desk, disks, r),
    };
    if !desk.machine().judge(&event) {
        panic!(rt; "the event is not lawful");
    }
    desk.log_event(board, &mut disks.journal, event).is_ok()
}

/// Keeps what was left for the request, which has to have the go, and logs its end.
pub(crate) fn end<Rt: Abort>(
    rt: &Rt,
    board: &Board,
    desk: &mut Desk<'_>,
    disks: &mut Disks,
    r: RequestId,
) -> Result<Option<Event>, KeepFail>
    requires driven { IsDriven r board.now desk.old disks.old }
    requires room { 0 < room_at desk.old }
    ensures driven { OnOk result (IsDriven r board.now desk.new disks.new) }
    ensures room { IfOk result (λ ended. ended ≡ None → room_at desk.new ≡ room_at desk.old) }
{
    match desk.progress(board, r) {
        Progress::Gone => {}
        _ => panic!(rt; "the request has no go"),
    }
    if desk.machine().forced().is_some() {
        panic!(rt; "an event is forced");
    }
    match desk.keep(board, &mut disks.spool, r)? {
        Kept::NotYet => Ok(None),
        Kept::Ready(event) => match desk.log_event(board, &mut disks.journal, event) {
            Ok(_) => Ok(Some(event)),
            Err(_) => panic!(rt; "the journal's disk failed"),
        },
    }
}
