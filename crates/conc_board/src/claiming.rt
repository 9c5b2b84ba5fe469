ghost use Rattle.std.specs.Prelude.{◌≡◌, ◌≤◌, ℕ, true, List, IfNone, IfSome, IsTrue, Some};
ghost use Rattle.std.specs.Option.{option_copied};
ghost use Rattle.conc_pool_seats.specs.Places.{has};
ghost use Rattle.conc_pool_seats.specs.Words.{count_of_requests, IsPlace, IsRequest};
ghost use Rattle.conc_pool_seats.specs.declared.views.Doing.TheVariants as does;
ghost use Rattle.conc_board.specs.Admission.{admits_at};
ghost use Rattle.conc_board.specs.Owners.{manager_at};
ghost use Rattle.conc_board.specs.Claims.{ClaimsAt, ClaimsOne, FindsNone, FollowsHint, LooksNextAtHint, MayClaim, MissesAll, MissesOne, MissesSome};
ghost use Rattle.conc_board.specs.Seats.{doing_of, IsHandOf, places_of_hand, plan_of};

use crate::numbers::{RELEASED, claimed, request_word};
use crate::plays::Claims;
use crate::{Board, Claim, Hand};
use conc_rules::admits;
use conc_types::{Manager, PlaceId, Plan, RequestId};

// A place of a plan, with its manager.
#[derive(Drop)]
struct Managed<'a> {
    plan: &'a Plan,
    place: PlaceId,
    manager: &'a Manager,
    ghost has_place: { manager_at plan.now place ≡ Some manager.now },
}

impl Managed<'_> {
    // Whether the manager admits the request with this number.
    fn admits(&self, r: RequestId) -> bool
        ensures { result ≡ admits_at self.now.plan.now self.now.place r }
    {
        match self.plan.request(r) {
            Some(request) => admits(self.manager, request),
            None => false,
        }
    }
}

impl Board {
    /// Claims a request for a place of the hand's, one that the place's manager admits: the hinted one
    /// where it is admitted and let out, else the first that is. `None` only where the place was
    /// found closed, or each request that its manager admits was found not let out or claimed already. An
    /// admitted hint is looked at before any other request.
    pub fn claim(
        &self,
        hand: &mut Hand,
        place: PlaceId,
        plan: &Plan,
        hint: Option<RequestId>,
    ) -> Option<Claim>
        requires hand { IsHandOf self.now hand.old }
        requires plan { plan.now ≡ plan_of self.now }
        requires idle { doing_of hand.old ≡ does.Idle }
        requires place { IsPlace plan.now place }
        requires own { IsTrue (has (places_of_hand hand.old) place) }
        ensures claimed { IfSome result (λ claim. ClaimsAt self.now place hand.old hand.new claim) }
        ensures none { IfNone result (FindsNone self.now place hand.old hand.new) }
        ensures hint { FollowsHint self.now place hint hand.old hand.new }
    {
        if !self.is_open(hand, place) {
            return None;
        }
        let manager = self.manager_at(plan, place)?;
        let at = Managed {
            plan,
            place,
            manager,
        };
        match self.claim_hinted(hand, &at, hint) {
            Some(claim) => Some(claim),
            None => self.claim_any(hand, &at),
        }
    }

    // The manager of a place.
    fn manager_at<'a>(&self, plan: &'a Plan, place: PlaceId) -> Option<&'a Manager>
        requires plan { plan.now ≡ plan_of self.now }
        requires place { IsPlace plan.now place }
        ensures { option_copied result ≡ manager_at plan.now place }
    {
        let owner = *self.owners.get(place.index as usize)?;
        plan.setup.managers.as_slice().get(owner as usize)
    }

    // Claims the hinted request, if there is one and the manager admits it.
    fn claim_hinted(
        &self,
        hand: &mut Hand,
        at: &Managed<'_>,
        hint: Option<RequestId>,
    ) -> Option<Claim>
        requires plan { at.now.plan.now ≡ plan_of self.now }
        requires may { MayClaim self.now at.now.place hand.old }
        ensures claimed { IfSome result (ClaimsAt self.now at.now.place hand.old hand.new) }
        ensures none { IfNone result (MissesSome self.now hand.old hand.new) }
        ensures hint { LooksNextAtHint at.now.plan.now at.now.place hint hand.old hand.new }
    {
        let r = hint?;
        if !at.admits(r) {
            return None;
        }
        self.claim_one(hand, r, at.place)
    }

    // Claims the first request that the manager admits and that is let out.
    fn claim_any(&self, hand: &mut Hand, at: &Managed<'_>) -> Option<Claim>
        requires plan { at.now.plan.now ≡ plan_of self.now }
        requires may { MayClaim self.now at.now.place hand.old }
        ensures claimed { IfSome result (ClaimsAt self.now at.now.place hand.old hand.new) }
        ensures none { IfNone result (MissesAll self.now at.now.place hand.old hand.new) }
    {
        for index in 0..self.requests {
            let r = RequestId {
                number: index as u32 + 1,
            };
            if at.admits(r) {
                match self.claim_one(hand, r, at.place) {
                    Some(claim) => return Some(claim),
                    None => {}
                }
            }
        }
        None
    }

    // Claims this request, if it is let out.
    fn claim_one(&self, hand: &mut Hand, r: RequestId, place: PlaceId) -> Option<Claim>
        requires request { IsRequest (plan_of self.now) r }
        requires admitted { IsTrue (admits_at (plan_of self.now) place r) }
        requires may { MayClaim self.now place hand.old }
        ensures claimed { IfSome result (ClaimsOne self.now r place hand.old hand.new) }
        ensures none { IfNone result (MissesOne self.now r hand.old hand.new) }
    {
        let word = self
            .table
            .shared
            .compare_exchange::<Claims>(&mut hand.seat, request_word(r), RELEASED, claimed(place));
        if word != RELEASED {
            return None;
        }
        self.last_claims.set(place, r);
        self.bells.lead.notify_all();
        Some(Claim { request: r, place })
    }
}
