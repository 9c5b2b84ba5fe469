ghost use Rattle.std.specs.Prelude.{◌≡◌, ◌≤◌, ◌+◌, All, IfSome, IsTrue};
ghost use Rattle.std.specs.Thread.{IsSync};
ghost use Rattle.conc_board.specs.Seats.{plan_of};
ghost use Rattle.conc_test_bench_board.specs.Benches.{IsBench};
ghost use Rattle.conc_test_bench_board.specs.Crews.{CrewFits, Fits};
ghost use Rattle.conc_test_bench_board.specs.Leads.{IsFresh};

use crate::Fail;
use crate::crews::crews_of;
use crate::lead_calls::{collect_all, go_all, let_out_all};
use crate::meeting::{Meeting, Member};
use crate::plans::{PLACES, ROUNDS, admits_all, bench_plan};
use crate::times::Times;
use crate::workers::{Step, Worker, make_all};
use conc_board::{Board, Lead};
use conc_types::Plan;
use std::alloc::{AllocError, Global};
use std::thread::{self, Threads, join};
use std::time::Clock;

// The steps of a round, before the lead gives the go and after it.
const CLAIM: [Step; 1] = [Step::Claim];

const SERVE: [Step; 2] = [Step::Poll, Step::Post];

// The part of one thread: where it meets the others, and what its calls took.
#[derive(Drop)]
struct Part<'a> {
    member: Member<'a>,
    times: Times,
}

// The part of a thread that has the plan in its cache. None where a manager does not admit each request.
fn part_of<'a>(plan: &Plan, meeting: &'a Meeting) -> Option<Part<'a>> {
    if !admits_all(plan) {
        meeting.break_off();
        return None;
    }
    Some(Part {
        member: Member::new(meeting),
        times: Times::new(),
    })
}

// These steps of a round, each at the same time as those of the other threads. False where one of them did not come through.
fn make_together<R: Clock>(
    rt: &R,
    board: &Board,
    plan: &Plan,
    workers: &mut [Worker],
    steps: &[Step],
    part: &mut Part<'_>,
) -> bool
    requires plan { plan.now ≡ plan_of board.now }
    requires workers { All (Fits board.now) workers.old }
    ensures workers { All (Fits board.now) workers.new }
{
    for step in steps {
        if !part.member.meet() {
            return false;
        }
        let Some(took) = make_all(rt, board, plan, workers, *step) else {
            return false;
        };
        part.times.add(*step, took);
    }
    part.member.meet()
}

// All rounds of a thread without the lead.
fn work<R: Clock>(
    rt: &R,
    board: &Board,
    plan: &Plan,
    meeting: &Meeting,
    workers: &mut [Worker],
) -> Option<Times>
    requires plan { plan.now ≡ plan_of board.now }
    requires workers { All (Fits board.now) workers.old }
{
    let mut part = part_of(plan, meeting)?;
    for _ in 0..ROUNDS {
        if !make_together(rt, board, plan, workers, &CLAIM, &mut part)
            || !make_together(rt, board, plan, workers, &SERVE, &mut part)
        {
            meeting.break_off();
            return None;
        }
    }
    Some(part.times)
}

// A round of the thread with the lead, which begins after this number.
fn lead_round<R: Clock>(
    rt: &R,
    board: &Board,
    plan: &Plan,
    lead: &mut Lead,
    first: u32,
    workers: &mut [Worker],
    part: &mut Part<'_>,
) -> bool
    requires plan { plan.now ≡ plan_of board.now }
    requires bench { IsBench (plan_of board.now) }
    requires round { first + 64 ≤ 3840 }
    requires lead { IsFresh board.now first lead.old }
    requires workers { All (Fits board.now) workers.old }
    ensures lead { IsTrue result → IsFresh board.now (first + 64) lead.new }
    ensures workers { All (Fits board.now) workers.new }
{
    let_out_all(board, lead, first);
    if !make_together(rt, board, plan, workers, &CLAIM, part) {
        return false;
    }
    if !go_all(board, lead, first) {
        return false;
    }
    if !make_together(rt, board, plan, workers, &SERVE, part) {
        return false;
    }
    collect_all(rt, board, lead, first, &mut part.times.collects)
}

// All rounds of the thread with the lead.
fn lead_and_work<R: Clock>(
    rt: &R,
    board: &Board,
    plan: &Plan,
    meeting: &Meeting,
    lead: &mut Lead,
    workers: &mut [Worker],
) -> Option<Times>
    requires plan { plan.now ≡ plan_of board.now }
    requires bench { IsBench (plan_of board.now) }
    requires lead { IsFresh board.now 0 lead.old }
    requires workers { All (Fits board.now) workers.old }
{
    let mut part = part_of(plan, meeting)?;
    for round in 0..ROUNDS {
        let first = round * PLACES;
        if !lead_round(rt, board, plan, lead, first, workers, &mut part) {
            meeting.break_off();
            return None;
        }
    }
    Some(part.times)
}

// Each crew in a thread of its own.
fn work_all<R: Threads + Clock + Sync>(
    rt: &R,
    board: &Board,
    plan: &Plan,
    meeting: &Meeting,
    crews: Vec<Vec<Worker>>,
) -> Result<Vec<Option<Times>>, AllocError>
    requires plan { plan.now ≡ plan_of board.now }
    requires crews { All (CrewFits board.now) crews.items }
{
    thread::map_vec(
        rt,
        crews,
        &|mut crew: Vec<Worker>| -> Option<Times>
            requires { (plan.now ≡ plan_of board.now) × CrewFits board.now crew }
        { work(rt, board, plan, meeting, crew.as_mut_slice()) },
    )
}

// The times of all threads together, where none broke off.
fn together(led: Option<Times>, worked: &[Option<Times>]) -> Option<Times> {
    let mut all = led?;
    for times in worked {
        all = all.with((*times)?);
    }
    Some(all)
}

// The thread with the lead and the first crew beside those of the others.
fn run_all<R: Threads + Clock + Sync>(
    rt: &R,
    board: &Board,
    plan: &Plan,
    meeting: &Meeting,
    mut lead: Lead,
    mut first: Vec<Worker>,
    others: Vec<Vec<Worker>>,
) -> Result<Option<Times>, AllocError>
    requires plan { plan.now ≡ plan_of board.now }
    requires bench { IsBench (plan_of board.now) }
    requires lead { IsFresh board.now 0 lead }
    requires first { CrewFits board.now first }
    requires others { All (CrewFits board.now) others.items }
{
    let (led, worked) = join(
        rt,
        move || -> Option<Times>
            requires { IsSync R.row × (plan.now ≡ plan_of board.now) × IsBench (plan_of board.now)
                × IsFresh board.now 0 lead × CrewFits board.now first }
        { lead_and_work(rt, board, plan, meeting, &mut lead, first.as_mut_slice()) },
        move || -> Result<Vec<Option<Times>>, AllocError>
            requires { IsSync R.row × (plan.now ≡ plan_of board.now)
                × All (CrewFits board.now) others.items }
        { work_all(rt, board, plan, meeting, others) },
    );
    Ok(together(led, worked?.as_slice()))
}

// One of the crews, and the others.
fn one_and_others(
    _board: &Board,
    mut crews: Vec<Vec<Worker>>,
) -> Option<(Vec<Worker>, Vec<Vec<Worker>>)>
    requires crews { All (CrewFits _board.now) crews.items }
    ensures one { IfSome result (λ p. CrewFits _board.now p.0) }
    ensures others { IfSome result (λ p. All (CrewFits _board.now) p.1.items) }
{
    let one = crews.pop()?;
    Some((one, crews))
}

/// What all calls took, with so many threads of hands.
pub(crate) fn measure<R: Threads + Clock + Sync>(
    rt: &R,
    alloc: Global,
    threads: u32,
) -> Result<Times, Fail> {
    let plan = bench_plan(alloc)?;
    let (board, mut lead) = Board::new(alloc, &plan)?;
    let size = PLACES.checked_div(threads).ok_or(Fail::Words)?;
    let crews = crews_of(alloc, &board, &mut lead, size as usize)?;
    let Some((first, others)) = one_and_others(&board, crews) else {
        return Err(Fail::Words);
    };
    let meeting = Meeting::new(threads);
    run_all(rt, &board, &plan, &meeting, lead, first, others)?.ok_or(Fail::Answer)
}
