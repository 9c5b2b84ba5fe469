ghost use Rattle.std.specs.Prelude.{◌≡◌};
ghost use Rattle.conc_board.specs.Claims.{HasClaim};
ghost use Rattle.conc_board.specs.Seats.{IsHandOf, plan_of, Stays};
ghost use Rattle.conc_worker.specs.Serving.{IfPosted, Serves};

use crate::leaving::{posted_as, report_for};
use conc_board::{Board, Claim, Hand, Polled, Posted};
use conc_edge_gate::Gate;
use conc_types::{Plan, RequestId};
use std::alloc::Global;

/// What came of a look for the answer to a claim.
#[derive(Drop)]
pub enum Served {
    /// The request was served, and something was left for it.
    Posted(RequestId),
    /// There is no answer yet.
    NotYet(Claim),
    /// The request was withdrawn.
    Withdrawn,
}

/// Looks once for the answer to a claim. With the go it serves the request: it goes through the gate,
/// looks once whether the request was told to stop, and leaves that it stopped, or its report, or that
/// there was no memory for one. Nothing is left for a request that did not come through the gate. It waits for nobody but the gate. After `Posted` and `Withdrawn` the
/// hand does nothing.
pub fn serve_once<G: Gate>(
    alloc: Global,
    board: &Board,
    plan: &Plan,
    hand: &mut Hand,
    claim: Claim,
    gate: &G,
) -> Served
    requires plan { plan.now ≡ plan_of board.now }
    requires hand { IsHandOf board.now hand.old }
    requires claim { HasClaim hand.old claim }
    ensures hand { Stays board.now hand.old hand.new }
    ensures served { Serves plan.now result claim hand.old hand.new }
    ensures came { IfPosted result (G.came gate.now) }
{
    let permit = match board.poll(hand, claim) {
        Polled::Go(permit) => permit,
        Polled::NotYet(same) => return Served::NotYet(same),
        Polled::Withdrawn => return Served::Withdrawn,
    };
    let request = permit.request();
    gate.before(request);
    if board.wants_stop(hand, &permit) {
        board.post(hand, permit, Posted::Stopped);
        return Served::Posted(request);
    }
    let posted = posted_as(report_for(alloc, plan, request));
    board.post(hand, permit, posted);
    Served::Posted(request)
}
