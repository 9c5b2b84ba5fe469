ghost use Rattle.std.specs.Prelude.{◌≡◌, IfOk, IsFalse, IsTrue, not, OnOk};
ghost use Rattle.std.specs.List.{list_all};
ghost use Rattle.conc_types.specs.declared.event.RequestId.{RequestId};
ghost use Rattle.conc_base_law.specs.Plans as plans_spec;
ghost use Rattle.conc_pool_seats.specs.Rule.{exclude};
ghost use Rattle.conc_pool_seats.specs.LeadStates.{IsGone, IsLet};
ghost use Rattle.conc_pool_seats.specs.Places.{has};
ghost use Rattle.conc_pool_seats.specs.Words.{IsPlace, IsRequest};
ghost use Rattle.conc_pool_seats.specs.declared.views.LeadState.TheVariants as lead_state;
ghost use Rattle.conc_pool_seats.specs.declared.views.Doing.TheVariants as does;
ghost use Rattle.conc_board.specs.Claims.{HasPermit};
ghost use Rattle.conc_board.specs.Seats.{doing_of, IsHandOf, IsLeadOf, lead_state_of, places_of_lead, plan_of, Stays};
ghost use Rattle.conc_test_board.specs.Rounds.{IsFree, IsSeen, OnlyOne, PassesOn};

use conc_board::{Board, Hand, Lead, Looked, Permit, Posted};
use conc_rules::are_exclusive;
use conc_types::{NoMemory, PlaceId, Plan, Req, RequestId};
use conc_worker::report_for;
use std::alloc::Global;

// Whether the request excludes none of these.
fn excludes_no_other(plan: &Plan, x: &Req, others: &[Req]) -> bool
    ensures { result ≡ list_all (λ y. not (plans_spec.are_exclusive plan.now x.now y)) others.now }
{
    others.iter().all(|y| !are_exclusive(plan, x, y))
}

/// Whether the request excludes none of the plan.
pub fn excludes_none(plan: &Plan, r: RequestId) -> bool
    ensures { IsTrue result → (q : RequestId) → IsFalse (exclude plan.now r q) }
{
    match plan.request(r) {
        Some(x) => excludes_no_other(plan, x, plan.requests.as_slice()),
        None => true,
    }
}

/// Lets out a request that excludes none of the plan, and says whether it does.
pub fn let_out_if_apart(board: &Board, plan: &Plan, lead: &mut Lead, r: RequestId) -> bool
    requires plan { plan.now ≡ plan_of board.now }
    requires lead { IsLeadOf board.now lead.old }
    requires request { IsRequest (plan_of board.now) r }
    requires lead_state { lead_state_of lead.old r ≡ lead_state.NotLet }
    ensures lead { IsTrue result → OnlyOne board.now r lead.old lead.new }
    ensures lead_state { IsTrue result → lead_state_of lead.new r ≡ lead_state.Let }
{
    if !excludes_none(plan, r) {
        return false;
    }
    board.let_out(lead, r);
    true
}

/// Looks at a request that is let out.
pub fn look_let(board: &Board, lead: &mut Lead, r: RequestId) -> Looked
    requires lead { IsLeadOf board.now lead.old }
    requires request { IsRequest (plan_of board.now) r }
    requires lead_state { IsLet (lead_state_of lead.old r) }
    ensures lead { OnlyOne board.now r lead.old lead.new }
    ensures lead_state { IsLet (lead_state_of lead.new r) }
    ensures seen { IsSeen result (lead_state_of lead.new r) }
{
    board.look(lead, r)
}

/// Looks at a request that has the go.
pub fn look_gone(board: &Board, lead: &mut Lead, r: RequestId) -> Looked
    requires lead { IsLeadOf board.now lead.old }
    requires request { IsRequest (plan_of board.now) r }
    requires lead_state { IsGone (lead_state_of lead.old r) }
    ensures lead { OnlyOne board.now r lead.old lead.new }
    ensures lead_state { lead_state_of lead.new r ≡ lead_state_of lead.old r }
{
    board.look(lead, r)
}

/// A hand that does nothing, with this place of the lead's.
pub fn hand_at(board: &Board, lead: &mut Lead, place: PlaceId) -> Hand
    requires lead { IsLeadOf board.now lead.old }
    requires place { IsPlace (plan_of board.now) place }
    requires own { IsTrue (has (places_of_lead lead.old) place) }
    ensures passed { PassesOn board.now place lead.old lead.new }
    ensures hand { IsFree board.now place result }
{
    board.split(lead, &[place])
}

/// Leaves the report of the request that is served. False where it has none; nothing is left then.
pub fn post_report(
    alloc: Global,
    board: &Board,
    plan: &Plan,
    hand: &mut Hand,
    permit: Permit,
) -> Result<bool, NoMemory>
    requires plan { plan.now ≡ plan_of board.now }
    requires hand { IsHandOf board.now hand.old }
    requires permit { HasPermit hand.old permit }
    ensures hand { OnOk result (Stays board.now hand.old hand.new) }
    ensures idle { IfOk result (λ left. IsTrue left → doing_of hand.new ≡ does.Idle) }
{
    match report_for(alloc, plan, permit.request())? {
        Some(made) => {
            board.post(hand, permit, Posted::Text(made));
            Ok(true)
        }
        None => Ok(false),
    }
}
