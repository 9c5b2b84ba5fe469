// The workers of a run: each has a hand at the board, a pass for the lanes, and places of its own.
ghost use Rattle.std.specs.Prelude.{◌≡◌, ◌<◌, ◌≤◌, ℕ, All, IfOk, length, None, slice_index_or, vec_len};
ghost use Rattle.conc_types.specs.declared.event.RequestId.{RequestId};
ghost use Rattle.conc_board.specs.Seats.{HasAllPlaces, IsLeadOf, plan_of, posts_of_lead, SameLeadStates, SameSwitches};
ghost use Rattle.conc_pool_lanes.specs.Lanes.{AreHandPasses};
ghost use Rattle.conc_pool_lanes.specs.declared.lanes.Lanes.{Lanes};
ghost use Rattle.conc_run_workers.specs.Resolving.{IsDismissed};
ghost use Rattle.conc_run_workers.specs.Crews.{AreDealt, Covers, HasOnePlan, HasPass, HaveServed, IsFree, IsFreeMember, IsTakenIn, MayServe, places_had, SameLists, SamePasses};

use crate::arrivals::Arrivals;
use conc_board::{Board, Hand, Lead};
use conc_edge_gate::Gate;
use conc_pool_lanes::{HandPass, Lanes};
use conc_time::place_count;
use conc_types::{NoMemory, PlaceId, Plan};
use conc_worker::work;
use std::alloc::Global;
use std::sync::Wait;
use std::thread;
use std::thread::Threads;

/// What the threads of a run share.
#[derive(Drop)]
pub(crate) struct Shared<'p> {
    /// Gives the memory for reports.
    pub(crate) alloc: Global,
    pub(crate) plan: &'p Plan,
    pub(crate) board: Board,
    pub(crate) lanes: Lanes<'p>,
    pub(crate) arrivals: Arrivals,
}

/// A worker of a run, with its hand while it serves no place.
#[derive(Drop)]
pub struct CrewMember {
    pub(crate) hand: Option<Hand>,
    pub(crate) pass: HandPass,
    /// The places that it serves.
    pub places: Vec<PlaceId>,
}

// The places of one thread of so many: each whose index leaves this rest.
fn dealt(alloc: Global, plan: &Plan, threads: u32, rest: u32) -> Result<Vec<PlaceId>, NoMemory>
    requires { 0 < threads }
    ensures { IfOk result (λ places. AreDealt plan.now threads rest places.items) }
{
    let mut places = Vec::new(alloc);
    for index in 0..place_count(plan) {
        if index % threads == rest {
            places.push(PlaceId { index })?;
        }
    }
    Ok(places)
}

/// A worker without a hand for each of so many passes. The places are dealt among them in turn.
pub(crate) fn hire(
    alloc: Global,
    plan: &Plan,
    threads: u32,
    mut passes: Vec<HandPass>,
) -> Result<Vec<CrewMember>, NoMemory>
    requires some { 0 < threads }
    requires passes { vec_len passes ≡ threads }
    ensures count { IfOk result (λ crew. vec_len crew ≡ threads) }
    ensures dealt { IfOk result (λ crew. (i : ℕ) (d : _) → i < threads
        → AreDealt plan.now threads i (slice_index_or crew.items i d).places.items) }
    ensures passes { IfOk result (λ crew. (lanes : Lanes) → AreHandPasses lanes passes.items
        → All (HasPass lanes) crew.items) }
{
    let mut crew = Vec::with_capacity(alloc, threads as usize)?;
    for rest in 0..threads {
        let places = dealt(alloc, plan, threads, rest)?;
        let Some(pass) = passes.pop() else {
            unreachable!()
        };
        crew.push(CrewMember {
            hand: None,
            pass,
            places,
        })?;
    }
    Ok(crew)
}

/// Gives each worker a hand, to which its places pass.
pub(crate) fn give_hands(board: &Board, lead: &mut Lead, crew: &mut [CrewMember])
    requires lead { IsLeadOf board.now lead.old }
    requires all { HasAllPlaces board.now lead.old }
    requires some { 0 < length crew.old }
    requires dealt { (i : ℕ) (d : _) → i < length crew.old
        → AreDealt (plan_of board.now) (length crew.old) i
        (slice_index_or crew.old i d).places.items }
    ensures lead { IsLeadOf board.now lead.new }
    ensures lead_states { SameLeadStates lead.old lead.new }
    ensures free { All (IsFreeMember board.now) crew.new }
    ensures covers { Covers (plan_of board.now) lead.new crew.new }
    ensures lists { SameLists crew.old crew.new }
    ensures passes { SamePasses crew.old crew.new }
{
    for index in 0..crew.len() {
        let hand = board.split(lead, crew[index].places.as_slice());
        crew[index].hand = Some(hand);
    }
}

/// Each worker serves its places in a thread of its own, until all is finished. It reports that it is here before it serves.
pub(crate) fn run_crew<R: Threads + Wait + Sync, G: Gate + Sync>(
    rt: &R,
    shared: &Shared<'_>,
    crew: &mut [CrewMember],
    gate: &G,
)
    requires { MayServe shared.now crew.old }
    ensures { HaveServed shared.now crew.old crew.new }
{
    let threads = crew.len();
    thread::for_each_mut(
        rt,
        crew,
        threads,
        &|_index, member: &mut CrewMember|
            requires { HasOnePlan shared.now × IsFreeMember shared.now.board member.now
                × HasPass shared.now.lanes member.now }
            ensures { IsFreeMember shared.entry.now.board member.exit.now
                × (places_had member.exit.now.hand ≡ places_had member.entry.now.hand)
                × (member.exit.now.places.items ≡ member.entry.now.places.items) }
        {
            shared.arrivals.arrive();
            let Some(hand) = member.hand.take() else {
                unreachable!()
            };
            let hand = work(
                rt,
                shared.alloc,
                &shared.board,
                shared.plan,
                hand,
                member.places.as_slice(),
                &shared.lanes,
                &mut member.pass,
                gate,
            );
            member.hand = Some(hand);
        },
    );
}

/// Joins the hands of all workers, which were told that there is no more to come, to the lead, which then has all places.
pub(crate) fn take_in(board: &Board, lead: &mut Lead, crew: &mut [CrewMember])
    requires lead { IsLeadOf board.now lead.old }
    requires dismissed { IsDismissed board.now lead.old }
    requires free { All (IsFreeMember board.now) crew.old }
    requires covers { Covers (plan_of board.now) lead.old crew.old }
    ensures lead { IsLeadOf board.now lead.new }
    ensures all { HasAllPlaces board.now lead.new }
    ensures lead_states { SameLeadStates lead.old lead.new }
    ensures switches { SameSwitches lead.old lead.new }
    ensures posts { posts_of_lead lead.new ≡ posts_of_lead lead.old }
    ensures taken_in { All IsTakenIn crew.new }
    ensures lists { SameLists crew.old crew.new }
{
    for index in 0..crew.len() {
        if let Some(hand) = crew[index].hand.take() {
            board.join(lead, hand);
        }
    }
}
