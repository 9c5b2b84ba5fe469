ghost use Rattle.std.specs.Prelude.{◌≡◌, OnOk};
ghost use Rattle.conc_board.specs.Claims.{HasClaim, HasPermit};
ghost use Rattle.conc_board.specs.Seats.{doing_of, IsHandOf, plan_of, Stays};
ghost use Rattle.conc_pool_seats.specs.declared.views.Doing.TheVariants as does;
ghost use Rattle.conc_test_board.specs.Rounds.{IsFree};

use conc_board::{Board, Claim, Hand, Permit, Polled, Posted};
use conc_types::{NoMemory, PlaceId, Plan};
use conc_worker::report_for;
use std::alloc::Global;
use std::process::Abort;

/// Claims a request for a place, which has to be there.
pub(crate) fn claim_at<Rt: Abort>(
    rt: &Rt,
    board: &Board,
    plan: &Plan,
    hand: &mut Hand,
    place: PlaceId,
) -> Claim
    requires plan { plan.now ≡ plan_of board.now }
    requires free { IsFree board.now place hand.old }
    ensures hand { Stays board.now hand.old hand.new }
    ensures claim { HasClaim hand.new result }
{
    board
        .claim(hand, place, plan, None)
        .expect(rt, "a request to claim")
}

/// The answer to a claim, which has to be the permit.
pub(crate) fn permit_of<Rt: Abort>(rt: &Rt, board: &Board, hand: &mut Hand, claim: Claim) -> Permit
    requires hand { IsHandOf board.now hand.old }
    requires claim { HasClaim hand.old claim }
    ensures hand { Stays board.now hand.old hand.new }
    ensures permit { HasPermit hand.new result }
{
    let Polled::Go(permit) = board.poll(hand, claim) else {
        panic!(rt; "the claim has no go");
    };
    permit
}

/// Sees that the claimed request was withdrawn.
pub(crate) fn sees_it_withdrawn<Rt: Abort>(rt: &Rt, board: &Board, hand: &mut Hand, claim: Claim)
    requires hand { IsHandOf board.now hand.old }
    requires claim { HasClaim hand.old claim }
    ensures hand { Stays board.now hand.old hand.new }
    ensures idle { doing_of hand.new ≡ does.Idle }
{
    let Polled::Withdrawn = board.poll(hand, claim) else {
        panic!(rt; "the claim stands");
    };
}

/// Leaves what comes of the request that is served: its report, or, where it is told to stop, that it stopped.
pub(crate) fn serve<Rt: Abort>(
    rt: &Rt,
    alloc: Global,
    board: &Board,
    plan: &Plan,
    hand: &mut Hand,
    permit: Permit,
) -> Result<(), NoMemory>
    requires plan { plan.now ≡ plan_of board.now }
    requires hand { IsHandOf board.now hand.old }
    requires permit { HasPermit hand.old permit }
    ensures hand { OnOk result (Stays board.now hand.old hand.new) }
    ensures idle { OnOk result (doing_of hand.new ≡ does.Idle) }
{
    if board.wants_stop(hand, &permit) {
        board.post(hand, permit, Posted::Stopped);
        return Ok(());
    }
    let made = report_for(alloc, plan, permit.request())?.expect(rt, "a report");
    board.post(hand, permit, Posted::Text(made));
    Ok(())
}
