ghost use Rattle.std.specs.Prelude.{◌≡◌, ◌≤◌, ◌+◌, IsTrue};
ghost use Rattle.conc_pool_seats.specs.LeadStates.{IsGone, IsLet};
ghost use Rattle.conc_pool_seats.specs.Words.{IsRequest};
ghost use Rattle.conc_board.specs.Seats.{IsLeadOf, lead_state_of, plan_of};
ghost use Rattle.conc_test_board.specs.Rounds.{OnlyOne};
ghost use Rattle.conc_test_bench_board.specs.Benches.{IsBench};
ghost use Rattle.conc_test_bench_board.specs.Leads.{AreSo, IsFresh};

use crate::plans::PLACES;
use crate::times::add_since;
use conc_board::{Board, Lead, Looked, Posted};
use conc_test_board::look_let;
use conc_types::RequestId;
use std::time::{Clock, Duration, Instant};

/// Lets out the requests of a round, which begins after this number.
pub(crate) fn let_out_all(board: &Board, lead: &mut Lead, first: u32)
    requires lead { IsFresh board.now first lead.old }
    requires bench { IsBench (plan_of board.now) }
    requires round { first + 64 ≤ 3840 }
    ensures lead { AreSo board.now first IsLet lead.new }
{
    for index in 0..PLACES {
        board.let_out(
            lead,
            RequestId {
                number: first + index + 1,
            },
        );
    }
}

// Gives the go to a request that has to be claimed. False where it is not.
fn go_where_claimed(board: &Board, lead: &mut Lead, r: RequestId) -> bool
    requires lead { IsLeadOf board.now lead.old }
    requires request { IsRequest (plan_of board.now) r }
    requires lead_state { IsLet (lead_state_of lead.old r) }
    ensures lead { IsTrue result → OnlyOne board.now r lead.old lead.new }
    ensures lead_state { IsTrue result → IsGone (lead_state_of lead.new r) }
{
    match look_let(board, lead, r) {
        Looked::Claimed(place) => {
            board.go(lead, r, place);
            true
        }
        _ => false,
    }
}

/// Gives the go to the requests of a round. False where one is not claimed.
pub(crate) fn go_all(board: &Board, lead: &mut Lead, first: u32) -> bool
    requires lead { AreSo board.now first IsLet lead.old }
    requires bench { IsBench (plan_of board.now) }
    requires round { first + 64 ≤ 3840 }
    ensures lead { IsTrue result → AreSo board.now first IsGone lead.new }
{
    for index in 0..PLACES {
        let r = RequestId {
            number: first + index + 1,
        };
        if !go_where_claimed(board, lead, r) {
            return false;
        }
    }
    true
}

// Takes what was left for a request. False where it is not that there was no memory.
fn collect_nothing(board: &Board, lead: &mut Lead, r: RequestId) -> bool
    requires lead { IsLeadOf board.now lead.old }
    requires request { IsRequest (plan_of board.now) r }
    requires lead_state { IsGone (lead_state_of lead.old r) }
    ensures lead { OnlyOne board.now r lead.old lead.new }
{
    matches!(board.collect(lead, r), Ok(Posted::NoMemory))
}

// Takes what was left for the requests of a round. False where something else was left for one.
fn collect_each(board: &Board, lead: &mut Lead, first: u32) -> bool
    requires lead { AreSo board.now first IsGone lead.old }
    requires bench { IsBench (plan_of board.now) }
    requires round { first + 64 ≤ 3840 }
    ensures lead { IsFresh board.now (first + 64) lead.new }
{
    let mut fine = true;
    for index in 0..PLACES {
        let r = RequestId {
            number: first + index + 1,
        };
        fine &= collect_nothing(board, lead, r);
    }
    fine
}

/// The same, and the time is added.
pub(crate) fn collect_all<R: Clock>(
    rt: &R,
    board: &Board,
    lead: &mut Lead,
    first: u32,
    total: &mut Duration,
) -> bool
    requires lead { AreSo board.now first IsGone lead.old }
    requires bench { IsBench (plan_of board.now) }
    requires round { first + 64 ≤ 3840 }
    ensures lead { IsTrue result → IsFresh board.now (first + 64) lead.new }
{
    let Ok(start) = Instant::now(rt) else {
        return false;
    };
    collect_each(board, lead, first) & add_since(rt, start, total)
}
