// What the resolver does on the board and for the lanes, beside the list.
ghost use Rattle.std.specs.Prelude.{◌≡◌, [], IsTrue, length};
ghost use Rattle.conc_types.specs.declared.event.RequestId.{RequestId};
ghost use Rattle.conc_board.specs.Seats.{plan_of, TakesMore};
ghost use Rattle.conc_pool_lanes.specs.Lanes as lanes_spec;
ghost use Rattle.conc_pool_lanes.specs.Lanes.{are_shorter, IsLeadPassOf, puts_of};
ghost use Rattle.conc_pool_lanes.specs.Puts.{lists_for};
ghost use Rattle.conc_pool_lanes.specs.Rooms.{room_for};
ghost use Rattle.conc_pool_seats.specs.LeadStates.{IsLet};
ghost use Rattle.conc_pool_seats.specs.Words.{IsRequest};
ghost use Rattle.conc_run_desk.specs.Desks.{IsAt, lead_state_at, list_at, plan_at};
ghost use Rattle.conc_run_desk.specs.Following.{SameBut};
ghost use Rattle.conc_run_workers.specs.Filling.{AreFilled, joined_after};
ghost use Rattle.conc_run_workers.specs.Resolving.{Dismisses, SetsPlaces, StaysAt};

use conc_board::{Board, Progress};
use conc_pool_lanes::{Lanes, LeadPass};
use conc_run_desk::Desk;
use conc_time::place_count;
use conc_types::{Event, PlaceId, RequestId};
use std::sync::Wait;

/// Lets a request out if it is let in the list, does not run, and is not on the board. True where it did.
pub(crate) fn release(board: &Board, desk: &mut Desk<'_>, r: RequestId) -> bool
    requires at { IsAt board.now desk.old }
    ensures { StaysAt board.now desk.old desk.new }
{
    if !desk.machine().waits_to_start(r) {
        return false;
    }
    match desk.progress(board, r) {
        Progress::NotLet => {
            desk.release(board, r);
            true
        }
        Progress::Let | Progress::Gone | Progress::Done => false,
    }
}

/// What an event means that lets a request: the request is let out on the board, as `release` does, and put into the lanes,
/// also where it is not let out. It is put behind that, so that no hand takes it from its lane before.
pub(crate) fn let_out<R: Wait>(
    rt: &R,
    board: &Board,
    lanes: &Lanes<'_>,
    desk: &mut Desk<'_>,
    pass: &mut LeadPass,
    event: Event,
)
    requires at { IsAt board.now desk.old }
    requires pass { IsLeadPassOf lanes.now pass.old }
    requires room { IsTrue (are_shorter (room_for (lanes_spec.plan_of lanes.now))
        (puts_of pass.old)) }
    ensures stays { StaysAt board.now desk.old desk.new }
    ensures pass { IsLeadPassOf lanes.now pass.new }
    ensures put { puts_of pass.new
        ≡ joined_after (lanes_spec.plan_of lanes.now) event (puts_of pass.old) }
{
    if let Event::LetOut { request } = event {
        release(board, desk, request);
        lanes.put(rt, pass, request);
    }
}

/// Puts each request into the lanes, by number, that is let in the list of a new desk and does not run.
pub(crate) fn put_waiting<R: Wait>(rt: &R, lanes: &Lanes<'_>, desk: &Desk<'_>, pass: &mut LeadPass)
    requires plan { lanes_spec.plan_of lanes.now ≡ plan_at desk.now }
    requires begun { desk.now.begun_with ≡ length (list_at desk.now) }
    requires pass { IsLeadPassOf lanes.now pass.old }
    requires empty { puts_of pass.old ≡ lists_for (plan_at desk.now) [] }
    ensures { AreFilled lanes.now desk.now pass.new }
{
    let machine = desk.machine();
    for request in machine.plan().requests.as_slice() {
        if machine.waits_to_start(request.number) {
            lanes.put(rt, pass, request.number);
        }
    }
}

/// Lets each request out that is let in the list, does not run, and is not on the board.
pub(crate) fn release_all(board: &Board, desk: &mut Desk<'_>)
    requires at { IsAt board.now desk.old }
    ensures { StaysAt board.now desk.old desk.new }
{
    for request in desk.machine().plan().requests.as_slice() {
        release(board, desk, request.number);
    }
}

/// Withdraws a request if it is let out and has no go.
pub(crate) fn withdraw(board: &Board, desk: &mut Desk<'_>, r: RequestId)
    requires at { IsAt board.now desk.old }
    requires request { IsRequest (plan_of board.now) r }
    ensures stays { StaysAt board.now desk.old desk.new }
    ensures not_let { IsLet (lead_state_at desk.new r) → ⊥ }
    ensures others { SameBut r desk.old.lead desk.new.lead }
{
    if matches!(desk.progress(board, r), Progress::Let) {
        desk.withdraw(board, r);
    }
}

/// Withdraws each request that is let out and has no go. A hand that waits for one of them comes out only so.
pub(crate) fn withdraw_all(board: &Board, desk: &mut Desk<'_>)
    requires at { IsAt board.now desk.old }
    ensures stays { StaysAt board.now desk.old desk.new }
    ensures none_let { (r : RequestId) → IsRequest (plan_of board.now) r → IsLet (lead_state_at desk.new r)
        → ⊥ }
    ensures posts { TakesMore desk.old.lead desk.new.lead }
{
    for request in desk.machine().plan().requests.as_slice() {
        withdraw(board, desk, request.number);
    }
}

/// Opens each place that may be used at the last reading, and closes each other one.
pub(crate) fn set_places(board: &Board, desk: &mut Desk<'_>)
    requires at { IsAt board.now desk.old }
    ensures { SetsPlaces board.now desk.old desk.new }
{
    for index in 0..place_count(desk.machine().plan()) {
        let place = PlaceId { index };
        if desk.machine().usable(place) {
            desk.open_place(board, place);
        } else {
            desk.close_place(board, place);
        }
    }
}

/// Withdraws each request that no hand serves, and tells the hands that there is no more to come.
pub(crate) fn dismiss(board: &Board, desk: &mut Desk<'_>)
    requires at { IsAt board.now desk.old }
    ensures { Dismisses board.now desk.old desk.new }
{
    withdraw_all(board, desk);
    desk.finish_all(board);
}
