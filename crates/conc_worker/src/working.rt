ghost use Rattle.std.specs.Prelude.{◌≡◌};
ghost use Rattle.conc_pool_seats.specs.declared.views.Doing.TheVariants as does;
ghost use Rattle.conc_board.specs.Seats.{doing_of, IsHandOf, places_of_hand, plan_of};
ghost use Rattle.conc_pool_lanes.specs.Lanes as lanes_spec;
ghost use Rattle.conc_pool_lanes.specs.Lanes.{IsHandPassOf};
ghost use Rattle.conc_worker.specs.Places.{AreServed};
ghost use Rattle.conc_worker.specs.Working.{SawTheEnd};

use crate::worker::{ToDo, Worker};
use conc_board::{Board, Hand};
use conc_edge_gate::Gate;
use conc_pool_lanes::{HandPass, Lanes};
use conc_types::{PlaceId, Plan};
use std::alloc::Global;
use std::sync::Wait;

/// Serves the places until all is finished. It claims requests for them in turn, for each place the one that it
/// takes from the lane of the place's manager, and any where that lane is empty; and it serves those that get
/// the go. Where it finds nothing to do, or no answer to a claim, it sleeps until the hands' bell is rung. It gives the hand back only after it found that all is finished; the hand then does nothing.
/// With no place it waits for the end alone.
pub fn work<R: Wait, G: Gate>(
    rt: &R,
    alloc: Global,
    board: &Board,
    plan: &Plan,
    mut hand: Hand,
    places: &[PlaceId],
    lanes: &Lanes<'_>,
    pass: &mut HandPass,
    gate: &G,
) -> Hand
    requires plan { plan.now ≡ plan_of board.now }
    requires hand { IsHandOf board.now hand }
    requires idle { doing_of hand ≡ does.Idle }
    requires places { AreServed plan.now hand places.now }
    requires lanes { lanes_spec.plan_of lanes.now ≡ plan.now }
    requires pass { IsHandPassOf lanes.now pass.old }
    ensures hand { IsHandOf board.now result }
    ensures idle { doing_of result ≡ does.Idle }
    ensures places { places_of_hand result ≡ places_of_hand hand }
    ensures ended { SawTheEnd board.now hand result }
    ensures pass { IsHandPassOf lanes.now pass.new }
{
    let worker = Worker {
        alloc,
        board,
        plan,
        places,
        lanes,
    };
    let mut first = 0;
    for _ in rt.forever() {
        match worker.next(rt, &mut hand, pass, first) {
            ToDo::Serve(claim, next) => {
                worker.see_through(rt, &mut hand, claim, gate);
                first = next;
            }
            ToDo::Finish => return hand,
        }
    }
    unreachable!()
}
