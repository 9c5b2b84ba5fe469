ghost use Rattle.std.specs.Prelude.{◌≡◌};
ghost use Rattle.conc_types.specs.declared.event.Event.TheVariants as events;
ghost use Rattle.conc_types.specs.declared.event.PlaceId.{PlaceId};
ghost use Rattle.conc_types.specs.declared.event.RequestId.{RequestId};
ghost use Rattle.conc_board.specs.Seats.{IsLeadOf, lead_state_of, places_of_lead, plan_of};
ghost use Rattle.conc_pool_seats.specs.Words.{IsRequest};
ghost use Rattle.conc_pool_seats.specs.declared.views.LeadState.TheVariants as lead_state;
ghost use Rattle.conc_run_desk.specs.Following.{Follows, SameBut, StopsWhatRuns, Withdrawn, ToldToStop};

use conc_board::{Board, Lead, Progress};
use conc_event_effects::act;
use conc_types::{Act, Event, Plan, RequestId};

// Withdraws a request that is let out and has no go.
fn withdraw(board: &Board, lead: &mut Lead, plan: &Plan, r: RequestId)
    requires lead { IsLeadOf board.now lead.old }
    requires plan { plan.now ≡ plan_of board.now }
    ensures lead { IsLeadOf board.now lead.new }
    ensures lead_state { Withdrawn (lead_state_of lead.old r) (lead_state_of lead.new r) }
    ensures others { SameBut r lead.old lead.new }
{
    if plan.request(r).is_none() {
        return;
    }
    if matches!(board.progress(lead, r), Progress::Let) {
        board.back(lead, r);
    }
}

// Tells a request to stop that has the go.
fn tell_to_stop(board: &Board, lead: &mut Lead, plan: &Plan, r: RequestId)
    requires lead { IsLeadOf board.now lead.old }
    requires plan { plan.now ≡ plan_of board.now }
    ensures lead { IsLeadOf board.now lead.new }
    ensures lead_state { ToldToStop (lead_state_of lead.old r) (lead_state_of lead.new r) }
    ensures stops { StopsWhatRuns (lead_state_of lead.old r) r lead.old lead.new }
    ensures others { SameBut r lead.old lead.new }
{
    if plan.request(r).is_none() {
        return;
    }
    if matches!(board.progress(lead, r), Progress::Gone) {
        board.stop(lead, r);
    }
}

/// Does what a logged event means for the board: the go after a start; a request that is held or
/// cancelled is withdrawn, and one that is terminated is told to stop.
pub(crate) fn follow(board: &Board, lead: &mut Lead, plan: &Plan, event: Event)
    requires lead { IsLeadOf board.now lead.old }
    requires plan { plan.now ≡ plan_of board.now }
    requires start { (r : RequestId) (p : PlaceId) → event ≡ events.Started r p
        → IsRequest plan.now r × (lead_state_of lead.old r ≡ lead_state.Seen p) }
    ensures lead { IsLeadOf board.now lead.new }
    ensures follows { Follows plan.now event lead.old lead.new }
{
    if let Event::Started { request, place } = event {
        board.go(lead, request, place);
        return;
    }
    match act(plan, event) {
        Some(Act::Hold { request }) => withdraw(board, lead, plan, *request),
        Some(Act::Cancel { request }) => withdraw(board, lead, plan, *request),
        Some(Act::Terminate { request }) => tell_to_stop(board, lead, plan, *request),
        _ => {}
    }
}
