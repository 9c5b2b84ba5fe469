ghost use Rattle.std.specs.Prelude.{◌≡◌, ◌+◌, ◌≤◌, [], ◌++◌, IfOk, None};
ghost use Rattle.conc_types.specs.declared.event.RequestId.{RequestId};
ghost use Rattle.conc_base_law.specs.Places.{count_of_places};
ghost use Rattle.conc_pool_seats.specs.Places.{AreAmong};
ghost use Rattle.conc_pool_seats.specs.Words.{count_of_requests, count_of_words};
ghost use Rattle.conc_board.specs.Owners.{AreOwners};
ghost use Rattle.conc_pool_seats.specs.declared.views.Doing.TheVariants as does;
ghost use Rattle.conc_pool_seats.specs.declared.views.LeadState.TheVariants as lead_state;

use crate::bells::Bells;
use crate::hand::Hand;
use crate::last_claims::LastClaims;
use crate::lead::Lead;
use crate::owners::owners_of;
use crate::plays::{BoardRule, Passing, SplitsOff, TakesIn};
use atomic_table::Table;
use conc_pool_seats::{Posted, View};
use conc_time::place_count;
use conc_types::{NoMemory, PlaceId, Plan, RequestId};
use crossbeam_utils::sync::EventCount;
use std::alloc::Global;
use std::marker::Brand;

/// A board for the requests and places of a plan: a word for each, one for the end, and a slot for
/// each request, which all seats share.
#[derive(Drop)]
pub struct Board {
    pub(crate) table: Table<Option<Posted>, View, Plan, BoardRule, Global>,
    pub(crate) requests: usize,
    pub(crate) places: usize,
    // For each place its manager, by its place in the setup.
    pub(crate) owners: Vec<u32>,
    pub(crate) bells: Bells,
    pub(crate) last_claims: LastClaims,
    ghost words: { table.shared.table_id.words ≡ count_of_words table.shared.key },
    ghost slots: { table.shared.table_id.slots ≡ count_of_requests table.shared.key },
    ghost request_count: { requests ≡ count_of_requests table.shared.key },
    ghost place_count: { places ≡ count_of_places table.shared.key },
    ghost few_places: { places ≤ 64 },
    ghost managers: { AreOwners table.shared.key places owners.items },
}

impl Board {
    ghost use Rattle.conc_board.specs.Seats.{doing_of, found_by_hand, found_by_lead, HasAllPlaces, HasSetNothing, IsHandOf, IsLeadOf, lead_state_of, plan_of, places_of_hand, places_of_lead, posts_of_lead, SameLeadStates, SameSwitches, IsSplitOff};

    /// A board on which nothing is let out, and each place is closed. The lead has all places.
    pub fn new(alloc: Global, plan: &Plan) -> Result<(Board, Lead), NoMemory>
        ensures plan { IfOk result (λ made. plan_of made.0 ≡ plan.now) }
        ensures lead { IfOk result (λ made. IsLeadOf made.0 made.1) }
        ensures lead_states { IfOk result
            (λ made. (r : RequestId) → lead_state_of made.1 r ≡ lead_state.NotLet) }
        ensures places { IfOk result (λ made. HasAllPlaces made.0 made.1) }
        ensures found { IfOk result (λ made. found_by_lead made.1 ≡ []) }
        ensures posts { IfOk result (λ made. posts_of_lead made.1 ≡ []) }
        ensures set { IfOk result (λ made. HasSetNothing made.1) }
    {
        let requests = plan.requests.len();
        let places = place_count(plan) as usize;
        let owners = owners_of(alloc, plan)?;
        let last_claims = LastClaims::new(alloc, places)?;
        let words = vec![in alloc; 0u64; requests + places + 1]?;
        let (table, seat) = Table::vacant(alloc, words.as_slice(), requests, plan)?;
        let board = Board {
            table,
            requests,
            places,
            owners,
            bells: Bells::new(),
            last_claims,
        };
        Ok((board, Lead { seat }))
    }

    /// A new hand, which does nothing, and to which these places of the lead's pass.
    pub fn split(&self, lead: &mut Lead, places: &[PlaceId]) -> Hand
        requires lead { IsLeadOf self.now lead.old }
        requires places { AreAmong places.now (places_of_lead lead.old) }
        ensures { IsSplitOff self.now places.now lead.old lead.new result }
    {
        self.split_off::<Brand>(lead, places)
    }

    fn split_off<J: Passing>(&self, lead: &mut Lead, places: &[PlaceId]) -> Hand
        requires pick { places.now ≡ J.passes }
        requires lead { IsLeadOf self.now lead.old }
        requires places { AreAmong places.now (places_of_lead lead.old) }
        ensures { IsSplitOff self.now places.now lead.old lead.new result }
    {
        let seat = self.table.shared.split_seat::<SplitsOff<J>>(&mut lead.seat);
        Hand { seat }
    }

    /// Takes in a hand that does nothing. Its places are the lead's again.
    pub fn join(&self, lead: &mut Lead, hand: Hand)
        requires lead { IsLeadOf self.now lead.old }
        requires hand { IsHandOf self.now hand }
        requires idle { doing_of hand ≡ does.Idle }

        ensures lead { IsLeadOf self.now lead.new }
        ensures lead_states { SameLeadStates lead.old lead.new }
        ensures places { places_of_lead lead.new ≡ places_of_hand hand ++ places_of_lead lead.old }
        ensures found { found_by_lead lead.new ≡ found_by_lead lead.old }
        ensures switches { SameSwitches lead.old lead.new }
        ensures posts { posts_of_lead lead.new ≡ posts_of_lead lead.old }
    {
        let Hand { seat } = hand;
        self.table.shared.join_seat::<TakesIn>(&mut lead.seat, seat);
    }

    /// The bell at which hands may sleep. It is rung after `let_out`, `go`, `back`, `open_place` and
    /// `finish_all`.
    pub fn hands_bell(&self) -> &EventCount {
        &self.bells.hands
    }

    /// The bell at which the lead may sleep. It is rung after a claim that won and after `post`.
    pub fn lead_bell(&self) -> &EventCount {
        &self.bells.lead
    }

    /// The request that was claimed last for a place, where the lead looks first. It may be any request of the plan, or
    /// none: only a look at the request tells.
    pub fn last_claim(&self, place: PlaceId) -> Option<RequestId> {
        self.last_claims.get(place)
    }
}
