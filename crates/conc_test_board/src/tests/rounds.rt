ghost use Rattle.std.specs.Prelude.{◌≡◌, ℕ, Bool, false};
ghost use Rattle.conc_pool_seats.specs.LeadStates.{IsGone, IsLet, is_marked};
ghost use Rattle.conc_pool_seats.specs.Words.{IsRequest};
ghost use Rattle.conc_pool_seats.specs.declared.views.Doing.TheVariants as does;
ghost use Rattle.conc_pool_seats.specs.declared.views.LeadState.TheVariants as lead_state;
ghost use Rattle.conc_board.specs.Claims.{HasClaim, HasPermit};
ghost use Rattle.conc_board.specs.Seats.{IsHandOf, IsLeadOf, lead_state_of, plan_of, places_of_hand, Stays};
ghost use Rattle.conc_test_board.specs.Rounds.{IsFree, OnlyOne, WaitsWith};

use crate::{let_out_if_apart, look_let};
use conc_board::{Board, Claim, Hand, Lead, Looked, Permit, Polled, Posted};
use conc_types::{PlaceId, Plan, RequestId};
use std::process::Abort;

/// Lets out a request, which has to exclude none of the plan.
pub fn let_out_apart<Rt: Abort>(rt: &Rt, board: &Board, plan: &Plan, lead: &mut Lead, r: RequestId)
    requires plan { plan.now ≡ plan_of board.now }
    requires lead { IsLeadOf board.now lead.old }
    requires request { IsRequest (plan_of board.now) r }
    requires lead_state { lead_state_of lead.old r ≡ lead_state.NotLet }
    ensures lead { OnlyOne board.now r lead.old lead.new }
    ensures lead_state { lead_state_of lead.new r ≡ lead_state.Let }
{
    if !let_out_if_apart(board, plan, lead, r) {
        panic!(rt; "the request excludes another one");
    }
}

/// Claims a request, which has to be there.
pub fn claim_some<Rt: Abort>(
    rt: &Rt,
    board: &Board,
    plan: &Plan,
    hand: &mut Hand,
    place: PlaceId,
    hint: Option<RequestId>,
) -> Claim
    requires plan { plan.now ≡ plan_of board.now }
    requires free { IsFree board.now place hand.old }
    ensures hand { Stays board.now hand.old hand.new }
    ensures claim { HasClaim hand.new result }
{
    board.claim(hand, place, plan, hint).expect(rt, "a claim")
}

/// Gives the go to a request that has to be claimed, and answers the place.
pub fn go_where_claimed<Rt: Abort>(rt: &Rt, board: &Board, lead: &mut Lead, r: RequestId) -> PlaceId
    requires lead { IsLeadOf board.now lead.old }
    requires request { IsRequest (plan_of board.now) r }
    requires lead_state { IsLet (lead_state_of lead.old r) }
    ensures lead { OnlyOne board.now r lead.old lead.new }
    ensures lead_state { lead_state_of lead.new r ≡ lead_state.Gone result false }
{
    match look_let(board, lead, r) {
        Looked::Claimed(place) => {
            board.go(lead, r, place);
            place
        }
        _ => panic!(rt; "the request is not claimed"),
    }
}

/// The permit that has to answer a claim.
pub fn permit_for<Rt: Abort>(rt: &Rt, board: &Board, hand: &mut Hand, claim: Claim) -> Permit
    requires { WaitsWith board.now hand.old claim }
    ensures hand { Stays board.now hand.old hand.new }
    ensures permit { HasPermit hand.new result }
{
    match board.poll(hand, claim) {
        Polled::Go(permit) => permit,
        _ => panic!(rt; "the request has no go"),
    }
}

/// Takes what has to be left for a request.
pub fn collect_some<Rt: Abort>(rt: &Rt, board: &Board, lead: &mut Lead, r: RequestId) -> Posted
    requires lead { IsLeadOf board.now lead.old }
    requires request { IsRequest (plan_of board.now) r }
    requires lead_state { IsGone (lead_state_of lead.old r) }
    ensures lead { OnlyOne board.now r lead.old lead.new }
    ensures lead_state { lead_state_of lead.new r
        ≡ lead_state.Done (is_marked (lead_state_of lead.old r)) }
{
    match board.collect(lead, r) {
        Ok(posted) => posted,
        Err(_) => panic!(rt; "nothing was left"),
    }
}
