ghost use Rattle.std.specs.Prelude.{◌≡◌, ◌∷◌, [], None, Option, true};
ghost use Rattle.atomic_table.specs.Table.{rest};
ghost use Rattle.conc_pool_seats.specs.declared.posted.Posted.{Posted};
ghost use Rattle.conc_pool_seats.specs.declared.views.Doing.TheVariants as does;
ghost use Rattle.conc_board.specs.Answers.{LookedBy, ProgressBy};

use crate::Board;
use crate::numbers::{DONE, IDLE, RELEASED, STATE, place_named, request_word, running, stopping};
use crate::plays::{BoardRule, Clears, Gets, Goes, LetsOut, Looks, Stops, Switches, Withdraws};
use atomic_table::{Seat, Shared};
use conc_pool_seats::{Posted, View};
use conc_types::{PlaceId, Plan, RequestId};

/// The seat of the one that lets requests out. There is one for each board, and it cannot be copied.
#[derive(Drop)]
pub struct Lead {
    pub(crate) seat: Seat<Option<Posted>, View>,
    ghost leads: { seat.me.0.leads ≡ true },
    ghost idle: { seat.me.0.doing ≡ does.Idle },
    ghost empty: { seat.me.1 ≡ [] },
}

/// What the word of a request held.
#[derive(Clone, Copy, Debug, PartialEq, Eq)]
pub enum Looked {
    /// No hand claims it.
    Free,
    /// A hand claims it for this place, and waits.
    Claimed(PlaceId),
    /// It runs at this place, or was told to stop there.
    Running(PlaceId),
    /// At this place something was left for it.
    Ended(PlaceId),
}

/// How far a request has come on the board.
#[derive(Clone, Copy, Debug, PartialEq, Eq)]
pub enum Progress {
    /// It is not let out.
    NotLet,
    /// It is let out, and has no go.
    Let,
    /// It has the go, and nothing was collected.
    Gone,
    /// What was left for it was collected.
    Done,
}

/// Nothing was left for the request yet.
#[derive(Clone, Copy, Debug, PartialEq, Eq)]
pub struct NotYet;

impl Board {
    ghost use Rattle.std.specs.Prelude.{◌<◌, ◌≤◌, ◌+◌, ◌++◌, ℕ, Bool, IfOk, IsFalse, OnErr, OnOk, false};
    ghost use Rattle.conc_pool_seats.specs.LeadStates.{IsGone, IsLet, IsLetOrGone};
    ghost use Rattle.conc_pool_seats.specs.Words as spec;
    ghost use Rattle.conc_pool_seats.specs.Words.{end_word, IsPlace, IsRequest, place_word};
    ghost use Rattle.conc_pool_seats.specs.declared.views.LeadState.TheVariants as lead_state;
    ghost use Rattle.conc_board.specs.Looks.{HasProgress, LooksOn, SeesLeadState, Shows};
    ghost use Rattle.conc_board.specs.Seats.{Changes, FindsFitting, IsApart, IsLeadOf, IsLeftFor, LeadFinds, lead_state_of, plan_of, SetsFlag, SetsLeadState};
    ghost use Rattle.conc_board.specs.Stops.{Collects, FindsRunning, Stops as StopsAs, StopsAt, TakesPost};

    /// Looks at the word of a request that is let out or has the go. A request that is told to stop
    /// still runs.
    pub fn look(&self, lead: &mut Lead, r: RequestId) -> Looked
        requires lead { IsLeadOf self.now lead.old }
        requires request { IsRequest (plan_of self.now) r }
        requires lead_state { IsLetOrGone (lead_state_of lead.old r) }
        ensures lead { Changes self.now r lead.old lead.new }
        ensures lead_state { SeesLeadState self.now r result lead.old lead.new }
        ensures found { LeadFinds (spec.request_word r) (Shows result) lead.old lead.new }
    {
        let shared = &self.table.shared;
        let word = shared.load::<Looks>(&mut lead.seat, request_word(r));
        looked_by(word)
    }

    /// How far a request has come: what the lead's own calls on it have made so far. Its word tells it, so the lead
    /// needs no list of its own.
    pub fn progress(&self, lead: &mut Lead, r: RequestId) -> Progress
        requires lead { IsLeadOf self.now lead.old }
        requires request { IsRequest (plan_of self.now) r }
        ensures lead { Changes self.now r lead.old lead.new }
        ensures progress { HasProgress result (lead_state_of lead.old r) }
        ensures lead_state { LooksOn (lead_state_of lead.old r) (lead_state_of lead.new r) }
        ensures found { FindsFitting r lead.old lead.new }
    {
        let shared = &self.table.shared;
        let word = shared.load::<Looks>(&mut lead.seat, request_word(r));
        progress_by(word)
    }

    /// Lets a request out that is not on the board and excludes none that is.
    pub fn let_out(&self, lead: &mut Lead, r: RequestId)
        requires lead { IsLeadOf self.now lead.old }
        requires request { IsRequest (plan_of self.now) r }
        requires lead_state { lead_state_of lead.old r ≡ lead_state.NotLet }
        requires apart { IsApart self.now r lead.old }
        ensures { SetsLeadState self.now r lead_state.Let lead.old lead.new }
    {
        let shared = &self.table.shared;
        shared.swap::<LetsOut>(&mut lead.seat, request_word(r), RELEASED);
        self.bells.hands.notify_all();
    }

    /// Gives the go to a request at the place that was seen to claim it. What was seen may be stale:
    /// the claim stands.
    pub fn go(&self, lead: &mut Lead, r: RequestId, place: PlaceId)
        requires lead { IsLeadOf self.now lead.old }
        requires request { IsRequest (plan_of self.now) r }
        requires lead_state { lead_state_of lead.old r ≡ lead_state.Seen place }
        ensures { SetsLeadState self.now r (lead_state.Gone place false) lead.old lead.new }
    {
        let shared = &self.table.shared;
        shared.swap::<Goes>(&mut lead.seat, request_word(r), running(place));
        self.bells.hands.notify_all();
    }

    /// Withdraws a request that is let out and has no go. It may be let out again.
    pub fn back(&self, lead: &mut Lead, r: RequestId)
        requires lead { IsLeadOf self.now lead.old }
        requires request { IsRequest (plan_of self.now) r }
        requires lead_state { IsLet (lead_state_of lead.old r) }
        ensures { SetsLeadState self.now r lead_state.NotLet lead.old lead.new }
    {
        let shared = &self.table.shared;
        shared.swap::<Withdraws>(&mut lead.seat, request_word(r), IDLE);
        self.bells.hands.notify_all();
    }

    /// Tells a request that has the go to stop. True exactly where this call's exchange found it
    /// running; else it was told before, or something was left for it already. Where it is true the
    /// request is marked from then on.
    pub fn stop(&self, lead: &mut Lead, r: RequestId) -> bool
        requires lead { IsLeadOf self.now lead.old }
        requires request { IsRequest (plan_of self.now) r }
        requires lead_state { IsGone (lead_state_of lead.old r) }
        ensures lead { Changes self.now r lead.old lead.new }
        ensures stopped { StopsAs result r lead.old lead.new }
    {
        let place = self.place_of_go(lead, r);
        self.stop_at(lead, r, place)
    }

    // The place at which a request has the go, by its word.
    fn place_of_go(&self, lead: &mut Lead, r: RequestId) -> PlaceId
        requires lead { IsLeadOf self.now lead.old }
        requires request { IsRequest (plan_of self.now) r }
        requires lead_state { IsGone (lead_state_of lead.old r) }
        ensures lead { Changes self.now r lead.old lead.new }
        ensures same { lead_state_of lead.new r ≡ lead_state_of lead.old r }
        ensures place { (marked : Bool)
            × (lead_state_of lead.old r ≡ lead_state.Gone result marked) }
        ensures found { FindsFitting r lead.old lead.new }
    {
        let shared = &self.table.shared;
        let word = shared.load::<Looks>(&mut lead.seat, request_word(r));
        place_named(word)
    }

    // Tells a request that has the go at this place to stop.
    fn stop_at(&self, lead: &mut Lead, r: RequestId, place: PlaceId) -> bool
        requires lead { IsLeadOf self.now lead.old }
        requires request { IsRequest (plan_of self.now) r }
        requires lead_state { (marked : Bool)
            × (lead_state_of lead.old r ≡ lead_state.Gone place marked) }
        ensures lead { Changes self.now r lead.old lead.new }
        ensures stopped { StopsAt place result r lead.old lead.new }
    {
        self.table.shared.compare_exchange::<Stops>(
            &mut lead.seat,
            request_word(r),
            running(place),
            stopping(place),
        ) == running(place)
    }

    /// Takes what was left for a request that has the go, once. `NotYet` only where its word was found
    /// to run still.
    pub fn collect(&self, lead: &mut Lead, r: RequestId) -> Result<Posted, NotYet>
        requires lead { IsLeadOf self.now lead.old }
        requires request { IsRequest (plan_of self.now) r }
        requires lead_state { IsGone (lead_state_of lead.old r) }
        ensures lead { Changes self.now r lead.old lead.new }
        ensures posted { IfOk result (IsLeftFor self.now lead.old r) }
        ensures taken { IfOk result (λ posted. TakesPost r posted lead.old lead.new) }
        ensures collected { OnOk result (Collects r lead.old lead.new) }
        ensures not_yet { OnErr result (FindsRunning r lead.old lead.new) }
    {
        let shared = &self.table.shared;
        let word = request_word(r);
        if shared.load::<Gets>(&mut lead.seat, word) / STATE != 4 {
            return Err(NotYet);
        }
        let Some(posted) = take_out(shared, &mut lead.seat, word) else {
            unreachable!()
        };
        shared.swap::<Clears>(&mut lead.seat, word, DONE);
        Ok(posted)
    }

    /// Opens a place.
    pub fn open_place(&self, lead: &mut Lead, place: PlaceId)
        requires lead { IsLeadOf self.now lead.old }
        requires place { IsPlace (plan_of self.now) place }
        ensures { SetsFlag self.now (place_word (plan_of self.now) place) 1 lead.old lead.new }
    {
        self.set_place(lead, place, 1);
        self.bells.hands.notify_all();
    }

    /// Closes a place. Who claimed a request for it before still does.
    pub fn close_place(&self, lead: &mut Lead, place: PlaceId)
        requires lead { IsLeadOf self.now lead.old }
        requires place { IsPlace (plan_of self.now) place }
        ensures { SetsFlag self.now (place_word (plan_of self.now) place) 0 lead.old lead.new }
    {
        self.set_place(lead, place, 0);
    }

    fn set_place(&self, lead: &mut Lead, place: PlaceId, switch: u64)
        requires lead { IsLeadOf self.now lead.old }
        requires place { IsPlace (plan_of self.now) place }
        requires switch { switch ≤ 1 }
        ensures { SetsFlag self.now (place_word (plan_of self.now) place) switch lead.old lead.new }
    {
        let word = self.requests + place.index as usize;
        let shared = &self.table.shared;
        shared.swap::<Switches>(&mut lead.seat, word, switch);
    }

    /// Tells all hands that there is no more to come.
    pub fn finish_all(&self, lead: &mut Lead)
        requires lead { IsLeadOf self.now lead.old }
        ensures { SetsFlag self.now (end_word (plan_of self.now)) 1 lead.old lead.new }
    {
        let word = self.requests + self.places;
        self.table.shared.swap::<Switches>(&mut lead.seat, word, 1);
        self.bells.hands.notify_all();
    }
}

// Takes what the slot holds that the seat took last. It does so in place: an exchange would write the whole
// slot anew.
fn take_out(
    shared: &Shared<Option<Posted>, View, Plan, BoardRule>,
    seat: &mut Seat<Option<Posted>, View>,
    slot: usize,
) -> Option<Posted>
    requires { (seat.old.table_id ≡ shared.now.table_id)
        × ((held : Option Posted) × (seat.old.me.1 ≡ (slot, held) ∷ rest seat.old.me.1)) }
    ensures { (seat.new.table_id ≡ seat.old.table_id)
        × (seat.new.id ≡ seat.old.id)
        × (seat.old.me.1 ≡ (slot, result) ∷ rest seat.old.me.1)
        × (seat.new.me ≡ (seat.old.me.0, (slot, None) ∷ rest seat.old.me.1)) }
{
    seat.slot_mut(shared, slot).take()
}

// What a word shows.
fn looked_by(word: u64) -> Looked
    ensures { LookedBy result word }
{
    match word / STATE {
        1 => Looked::Claimed(place_named(word)),
        2 | 3 => Looked::Running(place_named(word)),
        4 => Looked::Ended(place_named(word)),
        _ => Looked::Free,
    }
}

// How far the request of a word has come.
fn progress_by(word: u64) -> Progress
    ensures { ProgressBy result word }
{
    match word {
        IDLE => Progress::NotLet,
        RELEASED => Progress::Let,
        DONE => Progress::Done,
        _ if word / STATE == 1 => Progress::Let,
        _ => Progress::Gone,
    }
}
