ghost use Rattle.std.specs.Prelude.{◌≡◌};
ghost use Rattle.conc_board.specs.Seats.{plan_of};
ghost use Rattle.conc_pool_lanes.specs.Lanes as lanes_spec;
ghost use Rattle.conc_worker.specs.Places.{ArePlaces};

use crate::managers::manager_of;
use crate::serving::{Served, serve_once};
use conc_board::{Board, Claim, Hand};
use conc_edge_gate::Gate;
use conc_pool_lanes::{HandPass, Lanes};
use conc_types::{PlaceId, Plan, RequestId};
use std::alloc::Global;
use std::hint;
use std::sync::Wait;

// How often a hand that does nothing looks into the lanes before it looks at all requests, and sleeps.
const LOOKS: u32 = 1_024;

// How often a hand that waits looks for the answer to its claim before it sleeps. A look reads one word.
const POLLS: u32 = 64;

/// What a worker works with.
#[derive(Drop)]
pub(crate) struct Worker<'a> {
    pub(crate) alloc: Global,
    pub(crate) board: &'a Board,
    pub(crate) plan: &'a Plan,
    // Those that it serves.
    pub(crate) places: &'a [PlaceId],
    pub(crate) lanes: &'a Lanes<'a>,
    ghost same_plan: { plan.now ≡ plan_of board.now },
    ghost same_lanes: { lanes_spec.plan_of lanes.now ≡ plan.now },
    ghost of_plan: { ArePlaces plan.now places.now },
}

// Where a hand looks for a request.
#[derive(Clone, Copy)]
enum Search {
    // In the lane of a place's manager.
    Lanes,
    // There, and where that lane is empty among all requests.
    Everywhere,
}

// What a hand that does nothing finds to do.
#[derive(Drop)]
pub(crate) enum ToDo {
    // To serve this claim. The next round begins at the place with this index.
    Serve(Claim, usize),
    // There is no more to come.
    Finish,
}

impl Worker<'_> {
    ghost use Rattle.std.specs.Prelude.{◌≤◌, IfNone, IfSome, IsTrue, length};
    ghost use Rattle.conc_pool_seats.specs.Places.{has};
    ghost use Rattle.conc_pool_seats.specs.declared.views.Doing.TheVariants as does;
    ghost use Rattle.conc_board.specs.Claims.{HasClaim};
    ghost use Rattle.conc_board.specs.Seats.{doing_of, IsHandOf};
    ghost use Rattle.conc_pool_lanes.specs.Lanes.{IsHandPassOf};
    ghost use Rattle.conc_worker.specs.Working.{ComesToRest, Finds, IsFree, Looks, MakesSteps};

    // ---- looking for work

    /// Waits until there is something to do. It sleeps only once it looked again after it said so.
    pub(crate) fn next<R: Wait>(
        &self,
        rt: &R,
        hand: &mut Hand,
        pass: &mut HandPass,
        first: usize,
    ) -> ToDo
        requires free { IsFree self.now hand.old pass.old }
        requires first { first ≤ length self.now.places.now }
        ensures found { Finds self.now result hand.old hand.new }
        ensures pass { IsHandPassOf self.now.lanes.now pass.new }
    {
        for _ in rt.forever() {
            for _ in 0..LOOKS {
                if let Some(next) = self.look(rt, hand, pass, first, Search::Lanes) {
                    return next;
                }
                hint::spin_loop();
            }
            let key = self.board.hands_bell().prepare_wait();
            if let Some(next) = self.look(rt, hand, pass, first, Search::Everywhere) {
                return next;
            }
            key.wait(rt);
        }
        unreachable!()
    }

    // Looks once for something to do: whether all is finished, and then at each place in turn, from the one with
    // this index on. It claims a request for the first place that can have one. The next round begins behind that place.
    fn look<R: Wait>(
        &self,
        rt: &R,
        hand: &mut Hand,
        pass: &mut HandPass,
        first: usize,
        search: Search,
    ) -> Option<ToDo>
        requires free { IsFree self.now hand.old pass.old }
        requires first { first ≤ length self.now.places.now }
        ensures found { Looks self.now result hand.old hand.new }
        ensures pass { IsHandPassOf self.now.lanes.now pass.new }
    {
        if self.board.finished(hand) {
            return Some(ToDo::Finish);
        }
        let count = self.places.len();
        for offset in 0..count {
            let index = (first + offset) % count;
            if let Some(claim) = self.claim_at(rt, search, self.places[index], hand, pass) {
                return Some(ToDo::Serve(claim, index + 1));
            }
        }
        None
    }

    // Claims a request for this place, if it is open: the one that is next in its manager's lane. Where that lane is
    // empty it claims any, if it is to look everywhere.
    fn claim_at<R: Wait>(
        &self,
        rt: &R,
        search: Search,
        place: PlaceId,
        hand: &mut Hand,
        pass: &mut HandPass,
    ) -> Option<Claim>
        requires free { IsFree self.now hand.old pass.old }
        requires place { IsTrue (has self.now.places.now place) }
        ensures made { MakesSteps self.now.board.now hand.old hand.new }
        ensures claimed { IfSome result (HasClaim hand.new) }
        ensures none { IfNone result (doing_of hand.new ≡ does.Idle) }
        ensures pass { IsHandPassOf self.now.lanes.now pass.new }
    {
        if !self.board.is_open(hand, place) {
            return None;
        }
        match (self.take_hint(rt, pass, place), search) {
            (None, Search::Lanes) => None,
            (hint, _) => self.board.claim(hand, place, self.plan, hint),
        }
    }

    // The request that is next in the lane of the place's manager.
    fn take_hint<R: Wait>(&self, rt: &R, pass: &mut HandPass, place: PlaceId) -> Option<RequestId>
        requires pass { IsHandPassOf self.now.lanes.now pass.old }
        ensures pass { IsHandPassOf self.now.lanes.now pass.new }
    {
        let manager = manager_of(self.plan, place)?;
        self.lanes.take(rt, pass, manager)
    }

    // ---- serving

    /// Serves a claim until something was left for its request, or the request was withdrawn. It sleeps
    /// only once it looked again after it said so.
    pub(crate) fn see_through<R: Wait, G: Gate>(
        &self,
        rt: &R,
        hand: &mut Hand,
        claim: Claim,
        gate: &G,
    )
        requires hand { IsHandOf self.now.board.now hand.old }
        requires claim { HasClaim hand.old claim }
        ensures { ComesToRest self.now.board.now hand.old hand.new }
    {
        let mut claim = claim;
        for _ in rt.forever() {
            for _ in 0..POLLS {
                match serve_once(self.alloc, self.board, self.plan, hand, claim, gate) {
                    Served::NotYet(same) => claim = same,
                    Served::Posted(_) | Served::Withdrawn => return,
                }
                hint::spin_loop();
            }
            let key = self.board.hands_bell().prepare_wait();
            match serve_once(self.alloc, self.board, self.plan, hand, claim, gate) {
                Served::NotYet(same) => claim = same,
                Served::Posted(_) | Served::Withdrawn => return,
            }
            key.wait(rt);
        }
        unreachable!()
    }
}
