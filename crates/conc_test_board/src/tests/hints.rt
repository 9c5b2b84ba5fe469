ghost use Rattle.std.specs.Prelude.{◌≡◌};
ghost use Rattle.conc_types.specs.declared.event.RequestId.{RequestId};
ghost use Rattle.conc_base_law.specs.Places.{count_of_places};
ghost use Rattle.conc_pool_seats.specs.LeadStates.{IsLet};
ghost use Rattle.conc_pool_seats.specs.Words.{count_of_requests, IsRequest};
ghost use Rattle.conc_pool_seats.specs.declared.views.LeadState.TheVariants as lead_state;
ghost use Rattle.conc_board.specs.Seats.{HasAllPlaces, IsLeadOf, lead_state_of, plan_of};
ghost use Rattle.conc_pool_lanes.specs.Lanes.{AreHandPasses};
ghost use Rattle.conc_test_board.specs.Rounds.{AreBothLet, OnlyOne};
ghost use Rattle.conc_test_board.specs.Workers.{AreOfPlan, IsReady};

use super::board::plan_of_four;
use super::rounds::let_out_apart;
use super::workers::{hand_of, hire, work_at};
use crate::{Worker, hand_at, look_let};
use conc_board::{Board, Lead, Looked};
use conc_pool_lanes::{HandPass, Lanes};
use conc_types::{NoMemory, PlaceId, Plan, RequestId};
use std::alloc::Global;
use std::process::Abort;
use std::sync::Wait;
use std::test::Fail;
use std::thread;
use std::thread::{Threads, join_mut};

const ONE: RequestId = RequestId { number: 1 };

const TWO: RequestId = RequestId { number: 2 };

const HERE: PlaceId = PlaceId { index: 0 };

// How often the lead looks at both requests before it gives up.
const TURNS: u32 = 20_000_000;

// ---- the lead

// Whether a hand claims a request that is let out.
fn is_claimed(board: &Board, lead: &mut Lead, r: RequestId) -> bool
    requires lead { IsLeadOf board.now lead.old }
    requires request { IsRequest (plan_of board.now) r }
    requires lead_state { IsLet (lead_state_of lead.old r) }
    ensures lead { OnlyOne board.now r lead.old lead.new }
    ensures lead_state { IsLet (lead_state_of lead.new r) }
{
    matches!(look_let(board, lead, r), Looked::Claimed(_))
}

// The one of the requests 1 and 2 that a hand claims first.
fn claimed_first<Rt: Abort>(rt: &Rt, board: &Board, lead: &mut Lead) -> RequestId
    requires four { count_of_requests (plan_of board.now) ≡ 4 }
    requires lead { AreBothLet board.now lead.old }
    ensures lead { AreBothLet board.now lead.new }
{
    for _ in 0..TURNS {
        if is_claimed(board, lead, ONE) {
            return ONE;
        }
        if is_claimed(board, lead, TWO) {
            return TWO;
        }
        thread::yield_now();
    }
    panic!(rt; "no claim")
}

// Sees that this request is claimed first. Then withdraws both, and tells that there is no more to
// come.
fn see_claimed<Rt: Abort>(rt: &Rt, board: &Board, lead: &mut Lead, named: RequestId)
    requires four { count_of_requests (plan_of board.now) ≡ 4 }
    requires lead { AreBothLet board.now lead.old }
    ensures { IsLeadOf board.now lead.new }
{
    let claimed = claimed_first(rt, board, lead);
    assert_eq!(rt; claimed, named);
    board.back(lead, ONE);
    board.back(lead, TWO);
    board.finish_all(lead);
}

// ---- the worker

// The lead beside a worker.
fn see_beside<R: Threads + Wait + Abort + Sync>(
    rt: &R,
    alloc: Global,
    board: &Board,
    plan: &Plan,
    lanes: &Lanes<'_>,
    lead: &mut Lead,
    worker: &mut Worker,
    named: RequestId,
)
    requires plan { AreOfPlan plan.now board.now lanes.now }
    requires four { count_of_requests (plan_of board.now) ≡ 4 }
    requires lead { AreBothLet board.now lead.old }
    requires worker { IsReady board.now lanes.now (record { index = 0 }) worker.old }
    ensures lead { IsLeadOf board.now lead.new }
    ensures worker { IsReady board.now lanes.now (record { index = 0 }) worker.new }
{
    join_mut(
        rt,
        &mut ||
            requires { (count_of_requests (plan_of board.now) ≡ 4)
                × AreBothLet board.now lead.now }
            ensures { IsLeadOf board.entry.now lead.exit.now }
        { see_claimed(rt, board, lead, named) },
        &mut ||
            requires { AreOfPlan plan.now board.now lanes.now
                × IsReady board.now lanes.now (record { index = 0 }) worker.now }
            ensures { IsReady board.entry.now lanes.entry.now (record { index = 0 })
                worker.exit.now }
        { work_at(rt, alloc, board, plan, lanes, worker, HERE) },
    );
}

// Lets both requests out, and opens the worker's place.
fn let_both_out<Rt: Abort>(rt: &Rt, board: &Board, plan: &Plan, lead: &mut Lead)
    requires plan { plan.now ≡ plan_of board.now }
    requires four { count_of_requests (plan_of board.now) ≡ 4 }
    requires three { count_of_places (plan_of board.now) ≡ 3 }
    requires lead { IsLeadOf board.now lead.old }
    requires lead_states { (r : RequestId) → lead_state_of lead.old r ≡ lead_state.NotLet }
    ensures { AreBothLet board.now lead.new }
{
    let_out_apart(rt, board, plan, lead, ONE);
    let_out_apart(rt, board, plan, lead, TWO);
    board.open_place(lead, HERE);
}

// A worker with one open place, and this request alone in its lane.
fn claims_named<R: Threads + Wait + Abort + Sync>(
    rt: &R,
    alloc: Global,
    board: &Board,
    plan: &Plan,
    lanes: &Lanes<'_>,
    mut lead: Lead,
    passes: &mut Vec<HandPass>,
    named: RequestId,
)
    requires plan { AreOfPlan plan.now board.now lanes.now }
    requires four { count_of_requests (plan_of board.now) ≡ 4 }
    requires three { count_of_places (plan_of board.now) ≡ 3 }
    requires lead { IsLeadOf board.now lead }
    requires lead_states { (r : RequestId) → lead_state_of lead r ≡ lead_state.NotLet }
    requires places { HasAllPlaces board.now lead }
    requires passes { AreHandPasses lanes.now passes.old.items }
{
    let hand = hand_at(board, &mut lead, HERE);
    let mut worker = hire(rt, hand, passes);
    let_both_out(rt, board, plan, &mut lead);
    see_beside(rt, alloc, board, plan, lanes, &mut lead, &mut worker, named);
    board.join(&mut lead, hand_of(rt, worker));
}

// ---- the trial

// Two requests are let out before a worker begins, and its lane names this one: it claims it first.
fn tries_what_is_named<R: Threads + Wait + Abort + Sync>(
    rt: &R,
    alloc: Global,
    plan: &Plan,
    named: RequestId,
) -> Result<(), NoMemory>
    requires four { count_of_requests plan.now ≡ 4 }
    requires three { count_of_places plan.now ≡ 3 }
{
    let (board, lead) = Board::new(alloc, plan)?;
    let (lanes, mut puts, mut passes) = Lanes::new(alloc, plan, 1)?;
    lanes.put(rt, &mut puts, named);
    claims_named(rt, alloc, &board, plan, &lanes, lead, &mut passes, named);
    Ok(())
}

#[test]
fn a_worker_tries_first_what_its_lane_names(rt: HostRuntime) -> Result<(), Fail> {
    let plan = plan_of_four(&rt, rt.alloc())?;
    tries_what_is_named(&rt, rt.alloc(), &plan, TWO)?;
    tries_what_is_named(&rt, rt.alloc(), &plan, ONE)?;
    Ok(())
}
