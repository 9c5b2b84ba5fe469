ghost use Rattle.std.specs.Prelude.{◌≡◌, ◌≢◌, ◌<◌, ◌∷◌, [], IfOk, IsTrue, OnOk};
ghost use Rattle.conc_types.specs.declared.event.RequestId.{RequestId};
ghost use Rattle.conc_base_law.specs.Places.{count_of_places};
ghost use Rattle.conc_pool_seats.specs.Words.{count_of_requests, IsRequest};
ghost use Rattle.conc_pool_seats.specs.LeadStates.{IsGone, is_marked};
ghost use Rattle.conc_pool_seats.specs.declared.views.Doing.TheVariants as does;
ghost use Rattle.conc_pool_seats.specs.declared.views.LeadState.TheVariants as lead_state;
ghost use Rattle.conc_board.specs.Claims.{HasClaim, HasPermit};
ghost use Rattle.conc_board.specs.Seats.{doing_of, HasAllPlaces, IsHandOf, IsLeadOf, lead_state_of, plan_of, places_of_lead, SameLeadStates, Stays};
ghost use Rattle.conc_test_board.specs.Rounds.{IsFree, OnlyOne, WaitsWith};

use super::rounds::{claim_some, collect_some, go_where_claimed, let_out_apart, permit_for};
use crate::{hand_at, look_gone, look_let, post_report};
use conc_board::{Board, Claim, Hand, Lead, Looked, NotYet, Permit, Polled, Posted};
use conc_test_worked::plan_from;
use conc_time::place_count;
use conc_types::{NoMemory, PlaceId, Plan, ReadFail, RequestId};
use std::alloc::Global;
use std::fmt::Debug;
use std::process::Abort;
use std::test::Fail;

// Two places of a manager that runs P, and one of a manager that runs Q.
const SETUP: &[u8] = b"tables = [\"t.csv\"]
program = [{ name = \"P\", table = \"t.csv\" }, { name = \"Q\", table = \"t.csv\" }]
[[manager]]
name = \"M\"
include = [{ program = \"P\" }]
shift = [{ places = 2 }]
[[manager]]
name = \"N\"
include = [{ program = \"Q\" }]
";

// The requests 1, 2 and 3 of P, and 4 of Q.
const SCRIPT: &[u8] = b"at,do,what,user,priority,start,domain,argument
2025-03-03T09:00:00,submit,P,ann,,,,
2025-03-03T09:00:00,submit,P,ann,,,,
2025-03-03T09:00:00,submit,P,ann,,,,
2025-03-03T09:00:00,submit,Q,ann,,,,
";

pub(super) fn plan_of_four(rt: &impl Abort, alloc: Global) -> Result<Plan, ReadFail>
    ensures { IfOk result (λ plan. (count_of_requests plan ≡ 4) × (count_of_places plan ≡ 3)) }
{
    let plan = plan_from(alloc, SETUP, SCRIPT, b"k,v\na,1\n")?.expect(rt, "one table");
    assert!(rt; plan.requests.len() == 4);
    assert!(rt; place_count(&plan) == 3);
    Ok(plan)
}

fn same<Rt: Abort, T: PartialEq + Debug + Copy>(rt: &Rt, found: T, want: T) {
    assert_eq!(rt; found, want);
}

// ---- answers that have to come

fn not_yet<Rt: Abort>(rt: &Rt, board: &Board, hand: &mut Hand, claim: Claim) -> Claim
    requires { WaitsWith board.now hand.old claim }
    ensures hand { Stays board.now hand.old hand.new }
    ensures claim { HasClaim hand.new result }
{
    if let Polled::NotYet(same) = board.poll(hand, claim) {
        return same;
    }
    panic!(rt; "an answer")
}

fn withdrawn<Rt: Abort>(rt: &Rt, board: &Board, hand: &mut Hand, claim: Claim)
    requires { WaitsWith board.now hand.old claim }
    ensures hand { Stays board.now hand.old hand.new }
    ensures idle { doing_of hand.new ≡ does.Idle }
{
    match board.poll(hand, claim) {
        Polled::Withdrawn => {}
        _ => panic!(rt; "not withdrawn"),
    }
}

fn finds_nothing<Rt: Abort>(rt: &Rt, board: &Board, lead: &mut Lead, r: RequestId)
    requires lead { IsLeadOf board.now lead.old }
    requires request { IsRequest (plan_of board.now) r }
    requires lead_state { IsGone (lead_state_of lead.old r) }
    ensures lead { OnlyOne board.now r lead.old lead.new }
    ensures lead_state { lead_state_of lead.new r ≡ lead_state_of lead.old r }
{
    match board.collect(lead, r) {
        Err(NotYet) => {}
        Ok(_) => panic!(rt; "something was left"),
    }
}

// Leaves that a request stopped, as it was told to.
fn post_stopped<Rt: Abort>(rt: &Rt, board: &Board, hand: &mut Hand, permit: Permit)
    requires hand { IsHandOf board.now hand.old }
    requires permit { HasPermit hand.old permit }
    ensures hand { Stays board.now hand.old hand.new }
    ensures idle { doing_of hand.new ≡ does.Idle }
{
    if !board.wants_stop(hand, &permit) {
        panic!(rt; "not told to stop");
    }
    board.post(hand, permit, Posted::Stopped);
}

// ---- rounds

// A claim is withdrawn.
fn claim_is_withdrawn<Rt: Abort>(
    rt: &Rt,
    board: &Board,
    plan: &Plan,
    lead: &mut Lead,
    hand: &mut Hand,
    place: PlaceId,
    r: RequestId,
)
    requires plan { plan.now ≡ plan_of board.now }
    requires lead { IsLeadOf board.now lead.old }
    requires request { IsRequest (plan_of board.now) r }
    requires lead_state { lead_state_of lead.old r ≡ lead_state.NotLet }
    requires free { IsFree board.now place hand.old }
    ensures lead { OnlyOne board.now r lead.old lead.new }
    ensures lead_state { lead_state_of lead.new r ≡ lead_state.NotLet }
    ensures hand { IsFree board.now place hand.new }
{
    let_out_apart(rt, board, plan, lead, r);
    same(rt, look_let(board, lead, r), Looked::Free);
    let claim = claim_some(rt, board, plan, hand, place, None);
    same(rt, claim.request(), r);
    same(rt, claim.place(), place);
    same(rt, look_let(board, lead, r), Looked::Claimed(place));
    let claim = not_yet(rt, board, hand, claim);
    board.back(lead, r);
    withdrawn(rt, board, hand, claim);
}

// A request is told to stop before it is served to its end.
fn stop_comes_before_the_post<Rt: Abort>(
    rt: &Rt,
    board: &Board,
    plan: &Plan,
    lead: &mut Lead,
    hand: &mut Hand,
    place: PlaceId,
    r: RequestId,
)
    requires plan { plan.now ≡ plan_of board.now }
    requires lead { IsLeadOf board.now lead.old }
    requires request { IsRequest (plan_of board.now) r }
    requires lead_state { lead_state_of lead.old r ≡ lead_state.NotLet }
    requires free { IsFree board.now place hand.old }
    ensures lead { OnlyOne board.now r lead.old lead.new }
    ensures hand { IsFree board.now place hand.new }
{
    let_out_apart(rt, board, plan, lead, r);
    let claim = claim_some(rt, board, plan, hand, place, Some(r));
    same(rt, go_where_claimed(rt, board, lead, r), place);
    finds_nothing(rt, board, lead, r);
    let permit = permit_for(rt, board, hand, claim);
    same(rt, (permit.request(), permit.place()), (r, place));
    same(rt, look_gone(board, lead, r), Looked::Running(place));
    same(rt, board.wants_stop(hand, &permit), false);
    same(rt, board.stop(lead, r), true);
    same(rt, board.stop(lead, r), false);
    same(rt, look_gone(board, lead, r), Looked::Running(place));
    post_stopped(rt, board, hand, permit);
    same(rt, look_gone(board, lead, r), Looked::Ended(place));
    assert!(rt; matches!(collect_some(rt, board, lead, r), Posted::Stopped));
}

// A request is told to stop after its report was left.
fn stop_comes_after_the_post<Rt: Abort>(
    rt: &Rt,
    alloc: Global,
    board: &Board,
    plan: &Plan,
    lead: &mut Lead,
    hand: &mut Hand,
    place: PlaceId,
    r: RequestId,
) -> Result<(), NoMemory>
    requires plan { plan.now ≡ plan_of board.now }
    requires lead { IsLeadOf board.now lead.old }
    requires request { IsRequest (plan_of board.now) r }
    requires lead_state { lead_state_of lead.old r ≡ lead_state.NotLet }
    requires free { IsFree board.now place hand.old }
    ensures lead { OnOk result (OnlyOne board.now r lead.old lead.new) }
    ensures hand { OnOk result (IsFree board.now place hand.new) }
{
    let_out_apart(rt, board, plan, lead, r);
    let claim = claim_some(rt, board, plan, hand, place, None);
    same(rt, go_where_claimed(rt, board, lead, r), place);
    let permit = permit_for(rt, board, hand, claim);
    assert!(rt; post_report(alloc, board, plan, hand, permit)?);
    same(rt, board.stop(lead, r), false);
    match collect_some(rt, board, lead, r) {
        Posted::Text(made) => {
            assert!(rt; made.text.as_slice() == b"key,count\ntotal,1\n".as_slice());
        }
        _ => panic!(rt; "no text"),
    }
    Ok(())
}

// A closed place claims nothing, and an open one does.
fn place_is_closed<Rt: Abort>(
    rt: &Rt,
    board: &Board,
    plan: &Plan,
    lead: &mut Lead,
    hand: &mut Hand,
    place: PlaceId,
    r: RequestId,
)
    requires plan { plan.now ≡ plan_of board.now }
    requires lead { IsLeadOf board.now lead.old }
    requires request { IsRequest (plan_of board.now) r }
    requires lead_state { lead_state_of lead.old r ≡ lead_state.NotLet }
    requires free { IsFree board.now place hand.old }
    ensures lead { OnlyOne board.now r lead.old lead.new }
    ensures lead_state { lead_state_of lead.new r ≡ lead_state.NotLet }
    ensures hand { IsFree board.now place hand.new }
{
    let_out_apart(rt, board, plan, lead, r);
    board.close_place(lead, place);
    if board.claim(hand, place, plan, Some(r)).is_some() {
        panic!(rt; "a claim");
    }
    board.open_place(lead, place);
    let claim = claim_some(rt, board, plan, hand, place, Some(r));
    board.back(lead, r);
    withdrawn(rt, board, hand, claim);
}

// Of two requests the hinted one is claimed; a hint that the place does not serve is passed over, and
// nothing is claimed where nothing is let out.
fn hints_are_followed<Rt: Abort>(
    rt: &Rt,
    board: &Board,
    plan: &Plan,
    lead: &mut Lead,
    hand: &mut Hand,
    place: PlaceId,
    first: RequestId,
    second: RequestId,
    other: RequestId,
)
    requires plan { plan.now ≡ plan_of board.now }
    requires lead { IsLeadOf board.now lead.old }
    requires request { IsRequest (plan_of board.now) first }
    requires requested { IsRequest (plan_of board.now) second }
    requires lead_state { lead_state_of lead.old first ≡ lead_state.NotLet }
    requires second_lead_state { lead_state_of lead.old second ≡ lead_state.NotLet }
    requires two { second ≢ first }
    requires free { IsFree board.now place hand.old }
    ensures lead { IsLeadOf board.now lead.new }
    ensures hand { IsFree board.now place hand.new }
{
    if board.claim(hand, place, plan, Some(first)).is_some() {
        panic!(rt; "a claim");
    }
    let_out_apart(rt, board, plan, lead, first);
    let_out_apart(rt, board, plan, lead, second);
    let claim = claim_some(rt, board, plan, hand, place, Some(second));
    same(rt, claim.request(), second);
    board.back(lead, second);
    withdrawn(rt, board, hand, claim);
    let claim = claim_some(rt, board, plan, hand, place, Some(other));
    same(rt, claim.request(), first);
    board.back(lead, first);
    withdrawn(rt, board, hand, claim);
}

// ---- the trial

// Three hands that do nothing, each with a place of its own.
pub(super) fn three_hands(board: &Board, lead: &mut Lead) -> (Hand, Hand, Hand)
    requires lead { IsLeadOf board.now lead.old }
    requires places { HasAllPlaces board.now lead.old }
    requires three { count_of_places (plan_of board.now) ≡ 3 }
    ensures lead { IsLeadOf board.now lead.new }
    ensures lead_states { SameLeadStates lead.old lead.new }
    ensures first { IsFree board.now (record { index = 0 }) result.0 }
    ensures second { IsFree board.now (record { index = 1 }) result.1 }
    ensures third { IsFree board.now (record { index = 2 }) result.2 }
{
    let first = hand_at(board, lead, PlaceId { index: 0 });
    let second = hand_at(board, lead, PlaceId { index: 1 });
    let third = hand_at(board, lead, PlaceId { index: 2 });
    (first, second, third)
}

// Takes the hands in again.
pub(super) fn join_three(board: &Board, lead: &mut Lead, first: Hand, second: Hand, third: Hand)
    requires lead { IsLeadOf board.now lead.old }
    requires three { count_of_places (plan_of board.now) ≡ 3 }
    requires first { IsFree board.now (record { index = 0 }) first }
    requires second { IsFree board.now (record { index = 1 }) second }
    requires third { IsFree board.now (record { index = 2 }) third }
    ensures lead { IsLeadOf board.now lead.new }
    ensures places { HasAllPlaces board.now lead.new }
{
    board.join(lead, first);
    board.join(lead, second);
    board.join(lead, third);
}

pub(super) fn open_all(board: &Board, lead: &mut Lead)
    requires lead { IsLeadOf board.now lead.old }
    requires three { count_of_places (plan_of board.now) ≡ 3 }
    ensures lead { IsLeadOf board.now lead.new }
    ensures lead_states { SameLeadStates lead.old lead.new }
{
    board.open_place(lead, PlaceId { index: 0 });
    board.open_place(lead, PlaceId { index: 1 });
    board.open_place(lead, PlaceId { index: 2 });
}

// All rounds, each with requests that are not let out.
fn take_turns<Rt: Abort>(
    rt: &Rt,
    alloc: Global,
    board: &Board,
    plan: &Plan,
    lead: &mut Lead,
    first: &mut Hand,
    second: &mut Hand,
    third: &mut Hand,
) -> Result<(), NoMemory>
    requires plan { plan.now ≡ plan_of board.now }
    requires four { count_of_requests (plan_of board.now) ≡ 4 }
    requires lead { IsLeadOf board.now lead.old }
    requires lead_states { (r : RequestId) → lead_state_of lead.old r ≡ lead_state.NotLet }
    requires first { IsFree board.now (record { index = 0 }) first.old }
    requires second { IsFree board.now (record { index = 1 }) second.old }
    requires third { IsFree board.now (record { index = 2 }) third.old }
    ensures lead { OnOk result (IsLeadOf board.now lead.new) }
    ensures first { OnOk result (IsFree board.now (record { index = 0 }) first.new) }
    ensures second { OnOk result (IsFree board.now (record { index = 1 }) second.new) }
    ensures third { OnOk result (IsFree board.now (record { index = 2 }) third.new) }
{
    let one = RequestId { number: 1 };
    let two = RequestId { number: 2 };
    let three = RequestId { number: 3 };
    let four = RequestId { number: 4 };
    let here = PlaceId { index: 0 };
    let there = PlaceId { index: 1 };
    claim_is_withdrawn(rt, board, plan, lead, first, here, one);
    stop_comes_before_the_post(rt, board, plan, lead, second, there, two);
    stop_comes_after_the_post(
        rt,
        alloc,
        board,
        plan,
        lead,
        third,
        PlaceId { index: 2 },
        four,
    )?;
    place_is_closed(rt, board, plan, lead, first, here, three);
    hints_are_followed(rt, board, plan, lead, second, there, one, three, four);
    Ok(())
}

#[test]
fn a_lead_and_three_hands_take_turns(rt: HostRuntime) -> Result<(), Fail> {
    let plan = plan_of_four(&rt, rt.alloc())?;
    let (board, mut lead) = Board::new(rt.alloc(), &plan)?;
    let (mut first, mut second, mut third) = three_hands(&board, &mut lead);
    open_all(&board, &mut lead);
    same(&rt, board.finished(&mut first), false);
    take_turns(
        &rt,
        rt.alloc(),
        &board,
        &plan,
        &mut lead,
        &mut first,
        &mut second,
        &mut third,
    )?;
    board.finish_all(&mut lead);
    same(&rt, board.finished(&mut first), true);
    join_three(&board, &mut lead, first, second, third);
    let words = board.close(lead);
    for (index, word) in [0, 2, 0, 2, 1, 1, 1, 1].into_iter().enumerate() {
        same(&rt, words.get(index), Some(word));
    }
    same(&rt, words.len(), 8);
    Ok(())
}
