ghost use Rattle.std.specs.Prelude.{All, IfOk, IsTrue, OnOk};
ghost use Rattle.conc_pool_seats.specs.Places.{has};
ghost use Rattle.conc_pool_seats.specs.Words.{IsPlace};
ghost use Rattle.conc_board.specs.Seats.{HasAllPlaces, IsLeadOf, plan_of, places_of_lead};
ghost use Rattle.conc_test_board.specs.Rounds.{PassesOn};
ghost use Rattle.conc_test_bench_board.specs.Benches.{IsBench};
ghost use Rattle.conc_test_bench_board.specs.Crews.{CrewFits, Fits};
ghost use Rattle.conc_test_bench_board.specs.Leads.{IsFresh};

use crate::plans::PLACES;
use crate::workers::{Task, Worker};
use conc_board::{Board, Lead};
use conc_test_board::hand_at;
use conc_types::{NoMemory, PlaceId, RequestId};
use std::alloc::Global;
use std::mem;

// A worker at a place of the lead's, which is opened.
fn worker_at(board: &Board, lead: &mut Lead, place: PlaceId) -> Worker
    requires lead { IsLeadOf board.now lead.old }
    requires place { IsPlace (plan_of board.now) place }
    requires own { IsTrue (has (places_of_lead lead.old) place) }
    ensures passed { PassesOn board.now place lead.old lead.new }
    ensures worker { Fits board.now result }
{
    board.open_place(lead, place);
    Worker {
        hand: hand_at(board, lead, place),
        place,
        task: Task::Free,
        next: RequestId {
            number: place.index.saturating_add(1),
        },
    }
}

// Adds a worker to the crew, which is put with the others once it has this size.
fn add_worker(
    alloc: Global,
    board: &Board,
    crews: &mut Vec<Vec<Worker>>,
    crew: &mut Vec<Worker>,
    worker: Worker,
    size: usize,
) -> Result<(), NoMemory>
    requires crews { All (CrewFits board.now) crews.old.items }
    requires crew { All (Fits board.now) crew.old.items }
    requires worker { Fits board.now worker }
    ensures crews { OnOk result (All (CrewFits board.now) crews.new.items) }
    ensures crew { OnOk result (All (Fits board.now) crew.new.items) }
{
    crew.push(worker)?;
    if crew.len() == size {
        crews.push(mem::replace(crew, Vec::new(alloc)))?;
    }
    Ok(())
}

/// A worker for each place, in crews of this size.
pub(crate) fn crews_of(
    alloc: Global,
    board: &Board,
    lead: &mut Lead,
    size: usize,
) -> Result<Vec<Vec<Worker>>, NoMemory>
    requires lead { IsFresh board.now 0 lead.old }
    requires places { HasAllPlaces board.now lead.old }
    requires bench { IsBench (plan_of board.now) }
    ensures lead { IfOk result (λ _. IsFresh board.now 0 lead.new) }
    ensures crews { IfOk result (λ crews. All (CrewFits board.now) crews.items) }
{
    let mut crews = Vec::new(alloc);
    let mut crew = Vec::new(alloc);
    for index in 0..PLACES {
        let worker = worker_at(board, lead, PlaceId { index });
        add_worker(alloc, board, &mut crews, &mut crew, worker, size)?;
    }
    Ok(crews)
}
