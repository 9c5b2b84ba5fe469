ghost use Rattle.std.specs.Prelude.{◌≡◌, All};
ghost use Rattle.conc_board.specs.Seats.{plan_of};
ghost use Rattle.conc_test_bench_board.specs.Crews.{Fits};

use crate::plans::PLACES;
use conc_board::{Board, Claim, Hand, Permit, Polled, Posted};
use conc_types::{PlaceId, Plan, RequestId};
use std::mem;
use std::time::{Clock, Duration, Instant};

/// What a worker has to do.
#[derive(Drop)]
pub(crate) enum Task {
    Free,
    Waits(Claim),
    Serves(Permit),
}

/// A hand, its place, and the request that it claims next.
#[derive(Drop)]
pub(crate) struct Worker {
    pub(crate) hand: Hand,
    pub(crate) place: PlaceId,
    pub(crate) task: Task,
    pub(crate) next: RequestId,
}

// Claims the next request. False where another one is claimed, or none.
fn claim_next(board: &Board, plan: &Plan, worker: &mut Worker) -> bool
    requires plan { plan.now ≡ plan_of board.now }
    requires worker { Fits board.now worker.old }
    ensures worker { Fits board.now worker.new }
{
    match worker.task {
        Task::Free => {}
        _ => return false,
    }
    match board.claim(&mut worker.hand, worker.place, plan, Some(worker.next)) {
        Some(claim) => {
            let is_next = claim.request() == worker.next;
            worker.task = Task::Waits(claim);
            is_next
        }
        None => false,
    }
}

// Polls the claim. False where there is no permit.
fn poll_claim(board: &Board, worker: &mut Worker) -> bool
    requires worker { Fits board.now worker.old }
    ensures worker { Fits board.now worker.new }
{
    match mem::replace(&mut worker.task, Task::Free) {
        Task::Waits(claim) => match board.poll(&mut worker.hand, claim) {
            Polled::Go(permit) => {
                worker.task = Task::Serves(permit);
                true
            }
            Polled::NotYet(claim) => {
                worker.task = Task::Waits(claim);
                false
            }
            Polled::Withdrawn => false,
        },
        other => {
            worker.task = other;
            false
        }
    }
}

// Leaves that there was no memory. False where there is no permit.
fn post_nothing(board: &Board, worker: &mut Worker) -> bool
    requires worker { Fits board.now worker.old }
    ensures worker { Fits board.now worker.new }
{
    match mem::replace(&mut worker.task, Task::Free) {
        Task::Serves(permit) => {
            board.post(&mut worker.hand, permit, Posted::NoMemory);
            worker.next.number = worker.next.number.saturating_add(PLACES);
            true
        }
        other => {
            worker.task = other;
            false
        }
    }
}

/// What each worker does, one after the other.
#[derive(Clone, Copy)]
pub(crate) enum Step {
    Claim,
    Poll,
    Post,
}

// Makes the step. False where another request is claimed or none, and where there is no permit.
fn make(board: &Board, plan: &Plan, worker: &mut Worker, step: Step) -> bool
    requires plan { plan.now ≡ plan_of board.now }
    requires worker { Fits board.now worker.old }
    ensures worker { Fits board.now worker.new }
{
    match step {
        Step::Claim => claim_next(board, plan, worker),
        Step::Poll => poll_claim(board, worker),
        Step::Post => post_nothing(board, worker),
    }
}

/// Each worker makes the step. Returns what the steps took in all; none where one worker could not make it, or the
/// clock cannot be read.
pub(crate) fn make_all<R: Clock>(
    rt: &R,
    board: &Board,
    plan: &Plan,
    workers: &mut [Worker],
    step: Step,
) -> Option<Duration>
    requires plan { plan.now ≡ plan_of board.now }
    requires workers { All (Fits board.now) workers.old }
    ensures workers { All (Fits board.now) workers.new }
{
    let start = Instant::now(rt).ok()?;
    let mut fine = true;
    for worker in workers.iter_mut() {
        fine &= make(board, plan, worker, step);
    }
    let took = start.elapsed(rt).ok()?;
    if fine { Some(took) } else { None }
}
