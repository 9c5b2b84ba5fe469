ghost use Rattle.std.specs.Prelude.{◌≡◌, IfOk, OnOk, Some};
ghost use Rattle.std.specs.Thread.{IsSync};
ghost use Rattle.conc_types.specs.declared.event.PlaceId.{PlaceId};
ghost use Rattle.conc_types.specs.declared.event.RequestId.{RequestId};
ghost use Rattle.conc_base_law.specs.Places.{count_of_places};
ghost use Rattle.conc_pool_seats.specs.LeadStates.{IsGone, IsLet};
ghost use Rattle.conc_pool_seats.specs.Words.{count_of_requests, IsRequest};
ghost use Rattle.conc_pool_seats.specs.declared.views.LeadState.TheVariants as lead_state;
ghost use Rattle.conc_board.specs.Seats.{HasAllPlaces, IsLeadOf, lead_state_of, plan_of, SameLeadStates};
ghost use Rattle.conc_pool_lanes.specs.Lanes.{AreHandPasses, IsHandPassOf};
ghost use Rattle.conc_pool_lanes.specs.declared.lanes.Lanes.{Lanes};
ghost use Rattle.conc_test_board.specs.Rounds.{OnlyOne};
ghost use Rattle.conc_test_board.specs.Workers.{AreOfPlan, AreReady, IsReady};

use super::board::{join_three, open_all, plan_of_four, three_hands};
use super::rounds::let_out_apart;
use crate::{Three, Worker, look_let};
use conc_board::{Board, Hand, Lead, Looked, Posted};
use conc_edge_gate::FreeGate;
use conc_pool_lanes::{HandPass, Lanes};
use conc_types::{NoMemory, PlaceId, Plan, RequestId};
use conc_worker::work;
use std::alloc::Global;
use std::process::Abort;
use std::sync::Wait;
use std::test::Fail;
use std::thread;
use std::thread::{Threads, join_mut};

// ---- the lead

// Gives the go to a request as soon as a worker claims it.
fn go_when_claimed<R: Wait>(rt: &R, board: &Board, lead: &mut Lead, r: RequestId)
    requires lead { IsLeadOf board.now lead.old }
    requires request { IsRequest (plan_of board.now) r }
    requires lead_state { IsLet (lead_state_of lead.old r) }
    ensures lead { OnlyOne board.now r lead.old lead.new }
    ensures lead_state { IsGone (lead_state_of lead.new r) }
{
    for _ in rt.forever() {
        match look_let(board, lead, r) {
            Looked::Claimed(place) => {
                board.go(lead, r, place);
                return;
            }
            _ => thread::yield_now(),
        }
    }
    unreachable!()
}

// Takes what a worker leaves for a request, as soon as it does.
fn collect_when_left<R: Wait>(rt: &R, board: &Board, lead: &mut Lead, r: RequestId) -> Posted
    requires lead { IsLeadOf board.now lead.old }
    requires request { IsRequest (plan_of board.now) r }
    requires lead_state { IsGone (lead_state_of lead.old r) }
    ensures lead { OnlyOne board.now r lead.old lead.new }
{
    for _ in rt.forever() {
        match board.collect(lead, r) {
            Ok(posted) => return posted,
            Err(_) => thread::yield_now(),
        }
    }
    unreachable!()
}

// Lets a request out, and sees that a worker leaves its report.
fn see_through<R: Wait + Abort>(rt: &R, board: &Board, plan: &Plan, lead: &mut Lead, r: RequestId)
    requires plan { plan.now ≡ plan_of board.now }
    requires lead { IsLeadOf board.now lead.old }
    requires request { IsRequest (plan_of board.now) r }
    requires lead_state { lead_state_of lead.old r ≡ lead_state.NotLet }
    ensures lead { OnlyOne board.now r lead.old lead.new }
{
    let_out_apart(rt, board, plan, lead, r);
    go_when_claimed(rt, board, lead, r);
    match collect_when_left(rt, board, lead, r) {
        Posted::Text(made) => {
            assert!(rt; made.text.as_slice() == b"key,count\ntotal,1\n".as_slice());
        }
        _ => panic!(rt; "no text"),
    }
}

// Sees each of the four requests through, and then tells the workers that there is no more to come.
fn see_all<R: Wait + Abort>(rt: &R, board: &Board, plan: &Plan, lead: &mut Lead)
    requires plan { plan.now ≡ plan_of board.now }
    requires four { count_of_requests (plan_of board.now) ≡ 4 }
    requires lead { IsLeadOf board.now lead.old }
    requires lead_states { (r : RequestId) → lead_state_of lead.old r ≡ lead_state.NotLet }
    ensures { IsLeadOf board.now lead.new }
{
    for number in 1..5 {
        see_through(rt, board, plan, lead, RequestId { number });
    }
    board.finish_all(lead);
}

// ---- the workers

/// A worker with this hand, and with one of the passes.
pub(super) fn hire<Rt: Abort>(rt: &Rt, hand: Hand, passes: &mut Vec<HandPass>) -> Worker
    ensures hand { result.hand ≡ Some hand }
    ensures pass { (lanes : Lanes) → AreHandPasses lanes passes.old.items
        → IsHandPassOf lanes result.pass × AreHandPasses lanes passes.new.items }
{
    let Some(pass) = passes.pop() else {
        panic!(rt; "no pass");
    };
    Worker {
        hand: Some(hand),
        pass,
    }
}

/// The hand that the worker has to have.
pub(super) fn hand_of<Rt: Abort>(rt: &Rt, worker: Worker) -> Hand
    ensures { worker.hand ≡ Some result }
{
    worker.hand.expect(rt, "a hand")
}

// Lanes, and three workers that take from them, each at a place of its own.
fn hire_three<'p, Rt: Abort>(
    rt: &Rt,
    alloc: Global,
    board: &Board,
    plan: &'p Plan,
    lead: &mut Lead,
) -> Result<(Lanes<'p>, Three), NoMemory>
    requires plan { plan.now ≡ plan_of board.now }
    requires three { count_of_places (plan_of board.now) ≡ 3 }
    requires lead { IsLeadOf board.now lead.old }
    requires places { HasAllPlaces board.now lead.old }
    ensures lead { OnOk result (IsLeadOf board.now lead.new) }
    ensures lead_states { OnOk result (SameLeadStates lead.old lead.new) }
    ensures plan { IfOk result (λ made. AreOfPlan plan.now board.now made.0) }
    ensures workers { IfOk result (λ made. AreReady board.now made.0 made.1) }
{
    let (lanes, _, mut passes) = Lanes::new(alloc, plan, 3)?;
    let (first, second, third) = three_hands(board, lead);
    let first = hire(rt, first, &mut passes);
    let second = hire(rt, second, &mut passes);
    let third = hire(rt, third, &mut passes);
    Ok((
        lanes,
        Three {
            first,
            second,
            third,
        },
    ))
}

/// Lets a worker serve one place, until all is finished.
pub(super) fn work_at<R: Wait>(
    rt: &R,
    alloc: Global,
    board: &Board,
    plan: &Plan,
    lanes: &Lanes<'_>,
    worker: &mut Worker,
    place: PlaceId,
)
    requires plan { AreOfPlan plan.now board.now lanes.now }
    requires worker { IsReady board.now lanes.now place worker.old }
    ensures { IsReady board.now lanes.now place worker.new }
{
    let Some(hand) = worker.hand.take() else {
        unreachable!()
    };
    let pass = &mut worker.pass;
    let hand = work(
        rt,
        alloc,
        board,
        plan,
        hand,
        &[place],
        lanes,
        pass,
        &FreeGate,
    );
    worker.hand = Some(hand);
}

// Two workers, each in a thread of its own.
fn work_at_two<R: Threads + Wait + Sync>(
    rt: &R,
    alloc: Global,
    board: &Board,
    plan: &Plan,
    lanes: &Lanes<'_>,
    first: &mut Worker,
    second: &mut Worker,
)
    requires plan { AreOfPlan plan.now board.now lanes.now }
    requires first { IsReady board.now lanes.now (record { index = 1 }) first.old }
    requires second { IsReady board.now lanes.now (record { index = 2 }) second.old }
    ensures first { IsReady board.now lanes.now (record { index = 1 }) first.new }
    ensures second { IsReady board.now lanes.now (record { index = 2 }) second.new }
{
    join_mut(
        rt,
        &mut ||
            requires { AreOfPlan plan.now board.now lanes.now
                × IsReady board.now lanes.now (record { index = 1 }) first.now }
            ensures { IsReady board.entry.now lanes.entry.now (record { index = 1 })
                first.exit.now }
        { work_at(rt, alloc, board, plan, lanes, first, PlaceId { index: 1 }) },
        &mut ||
            requires { AreOfPlan plan.now board.now lanes.now
                × IsReady board.now lanes.now (record { index = 2 }) second.now }
            ensures { IsReady board.entry.now lanes.entry.now (record { index = 2 })
                second.exit.now }
        { work_at(rt, alloc, board, plan, lanes, second, PlaceId { index: 2 }) },
    );
}

// Three workers, each in a thread of its own.
fn work_at_three<R: Threads + Wait + Sync>(
    rt: &R,
    alloc: Global,
    board: &Board,
    plan: &Plan,
    lanes: &Lanes<'_>,
    workers: &mut Three,
)
    requires plan { AreOfPlan plan.now board.now lanes.now }
    requires workers { AreReady board.now lanes.now workers.old }
    ensures { AreReady board.now lanes.now workers.new }
{
    let Three {
        first,
        second,
        third,
    } = workers;
    join_mut(
        rt,
        &mut ||
            requires { AreOfPlan plan.now board.now lanes.now
                × IsReady board.now lanes.now (record { index = 0 }) first.now }
            ensures { IsReady board.entry.now lanes.entry.now (record { index = 0 })
                first.exit.now }
        { work_at(rt, alloc, board, plan, lanes, first, PlaceId { index: 0 }) },
        &mut ||
            requires { IsSync R.row × AreOfPlan plan.now board.now lanes.now
                × IsReady board.now lanes.now (record { index = 1 }) second.now
                × IsReady board.now lanes.now (record { index = 2 }) third.now }
            ensures { IsReady board.entry.now lanes.entry.now (record { index = 1 })
                second.exit.now
                × IsReady board.entry.now lanes.entry.now (record { index = 2 }) third.exit.now }
        { work_at_two(rt, alloc, board, plan, lanes, second, third) },
    );
}

// The lead beside the workers.
fn see_all_served<R: Threads + Wait + Abort + Sync>(
    rt: &R,
    alloc: Global,
    board: &Board,
    plan: &Plan,
    lanes: &Lanes<'_>,
    lead: &mut Lead,
    workers: &mut Three,
)
    requires plan { AreOfPlan plan.now board.now lanes.now }
    requires four { count_of_requests (plan_of board.now) ≡ 4 }
    requires lead { IsLeadOf board.now lead.old }
    requires lead_states { (r : RequestId) → lead_state_of lead.old r ≡ lead_state.NotLet }
    requires workers { AreReady board.now lanes.now workers.old }
    ensures lead { IsLeadOf board.now lead.new }
    ensures workers { AreReady board.now lanes.now workers.new }
{
    join_mut(
        rt,
        &mut ||
            requires { (plan.now ≡ plan_of board.now) × (count_of_requests (plan_of board.now) ≡ 4)
                × IsLeadOf board.now lead.now
                × ((r : RequestId) → lead_state_of lead.now r ≡ lead_state.NotLet) }
            ensures { IsLeadOf board.entry.now lead.exit.now }
        { see_all(rt, board, plan, lead) },
        &mut ||
            requires { IsSync R.row × AreOfPlan plan.now board.now lanes.now
                × AreReady board.now lanes.now workers.now }
            ensures { AreReady board.entry.now lanes.entry.now workers.exit.now }
        { work_at_three(rt, alloc, board, plan, lanes, workers) },
    );
}

// Takes the hands of the workers in again.
fn join_workers<Rt: Abort>(
    rt: &Rt,
    board: &Board,
    lanes: &Lanes<'_>,
    lead: &mut Lead,
    workers: Three,
)
    requires lead { IsLeadOf board.now lead.old }
    requires three { count_of_places (plan_of board.now) ≡ 3 }
    requires workers { AreReady board.now lanes.now workers }
    ensures lead { IsLeadOf board.now lead.new }
    ensures places { HasAllPlaces board.now lead.new }
{
    let first = hand_of(rt, workers.first);
    let second = hand_of(rt, workers.second);
    let third = hand_of(rt, workers.third);
    join_three(board, lead, first, second, third);
}

// ---- the trial

#[test]
fn three_workers_serve_four_requests(rt: HostRuntime) -> Result<(), Fail> {
    let plan = plan_of_four(&rt, rt.alloc())?;
    let (board, mut lead) = Board::new(rt.alloc(), &plan)?;
    let (lanes, mut workers) = hire_three(&rt, rt.alloc(), &board, &plan, &mut lead)?;
    open_all(&board, &mut lead);
    see_all_served(
        &rt,
        rt.alloc(),
        &board,
        &plan,
        &lanes,
        &mut lead,
        &mut workers,
    );
    join_workers(&rt, &board, &lanes, &mut lead, workers);
    let words = board.close(lead);
    for (index, word) in [2, 2, 2, 2, 1, 1, 1, 1].into_iter().enumerate() {
        assert_eq!(rt; words.get(index), Some(word));
    }
    Ok(())
}
