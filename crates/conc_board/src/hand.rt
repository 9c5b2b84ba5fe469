ghost use Rattle.std.specs.Prelude.{◌≡◌, false};
ghost use Rattle.conc_pool_seats.specs.Doings.{carried_by};
ghost use Rattle.conc_board.specs.Answers.{PolledBy};

use crate::Board;
use crate::numbers::{claimed, ended, request_word, running, stopping};
use crate::plays::{Polls, Posts, SeesStop, SeesSwitch};
use atomic_table::Seat;
use conc_pool_seats::{Posted, View};
use conc_types::{PlaceId, RequestId};

/// The seat of one that claims requests and serves them. It cannot be copied.
#[derive(Drop)]
pub struct Hand {
    pub(crate) seat: Seat<Option<Posted>, View>,
    ghost serves: { seat.me.0.leads ≡ false },
    ghost carries: { seat.me.1 ≡ carried_by seat.me.0.doing },
}

/// A claim of a request for a place, which waits for its answer.
#[derive(Drop)]
pub struct Claim {
    pub(crate) request: RequestId,
    pub(crate) place: PlaceId,
}

/// The permit to serve a request at a place.
#[derive(Drop)]
pub struct Permit {
    request: RequestId,
    place: PlaceId,
}

/// The answer to a claim.
#[derive(Drop)]
pub enum Polled {
    /// The request may be served.
    Go(Permit),
    /// There is no answer yet.
    NotYet(Claim),
    /// The request was withdrawn.
    Withdrawn,
}

impl Claim {
    ghost use Rattle.conc_board.specs.Claims.{claim_place, claim_request};

    /// The request that is claimed. It takes no memory.
    pub fn request(&self) -> RequestId
        ensures { result ≡ claim_request self.now }
    {
        self.request
    }

    /// The place for which it is claimed. It takes no memory.
    pub fn place(&self) -> PlaceId
        ensures { result ≡ claim_place self.now }
    {
        self.place
    }
}

impl Permit {
    ghost use Rattle.conc_board.specs.Claims.{permit_place, permit_request};

    /// The request that may be served. It takes no memory.
    pub fn request(&self) -> RequestId
        ensures { result ≡ permit_request self.now }
    {
        self.request
    }

    /// The place at which it may be served. It takes no memory.
    pub fn place(&self) -> PlaceId
        ensures { result ≡ permit_place self.now }
    {
        self.place
    }
}

impl Board {
    ghost use Rattle.std.specs.Prelude.{◌<◌, ◌≤◌, ◌≢◌, ◌+◌, ◌==◌, ◌⊎◌, ℕ, Bool};
    ghost use Rattle.conc_pool_seats.specs.Doings.{IsWithin};
    ghost use Rattle.conc_pool_seats.specs.Reports.{MayLeave};
    ghost use Rattle.conc_pool_seats.specs.Words.{end_word, IsPlace};
    ghost use Rattle.conc_pool_seats.specs.declared.views.Doing.TheVariants as does;
    ghost use Rattle.conc_board.specs.Claims.{HasClaim, HasPermit, MayPost, permit_place, permit_request, Polls as PollsAs, Warned};
    ghost use Rattle.conc_board.specs.Seats.{doing_of, FindsOpen, FindsRunningAt, HandFinds, IsFlagSeen, IsHandOf, plan_of, PostsNothing, PostsOne, Stays};

    /// Looks for the answer to a claim. After `Withdrawn` the hand does nothing.
    pub fn poll(&self, hand: &mut Hand, claim: Claim) -> Polled
        requires hand { IsHandOf self.now hand.old }
        requires claim { HasClaim hand.old claim }
        ensures hand { Stays self.now hand.old hand.new }
        ensures polled { PollsAs result claim hand.old hand.new }
        ensures posts { PostsNothing hand.old hand.new }
    {
        let word = self
            .table
            .shared
            .load::<Polls>(&mut hand.seat, request_word(claim.request));
        polled_by(word, claim)
    }

    /// Whether the request that the hand serves was told to stop. From then on the permit has the stop
    /// sign.
    pub fn wants_stop(&self, hand: &mut Hand, permit: &Permit) -> bool
        requires hand { IsHandOf self.now hand.old }
        requires permit { HasPermit hand.old permit.now }
        ensures hand { Stays self.now hand.old hand.new }
        ensures warned { Warned result permit.now hand.old hand.new }
        ensures posts { PostsNothing hand.old hand.new }
    {
        let word = self
            .table
            .shared
            .load::<SeesStop>(&mut hand.seat, request_word(permit.request));
        word == stopping(permit.place)
    }

    /// Leaves what came of the request: its report, or `NoMemory`, or `Stopped` where the permit has
    /// the stop sign. The hand then does nothing.
    pub fn post(&self, hand: &mut Hand, permit: Permit, posted: Posted)
        requires hand { IsHandOf self.now hand.old }
        requires permit { MayPost (plan_of self.now) hand.old permit posted }
        ensures hand { Stays self.now hand.old hand.new }
        ensures idle { doing_of hand.new ≡ does.Idle }
        ensures posted { PostsOne (permit_request permit) posted hand.old hand.new }
        ensures found { FindsRunningAt (permit_request permit) (permit_place permit) hand.old
            hand.new }
    {
        let shared = &self.table.shared;
        let word = request_word(permit.request);
        shared.exchange(&mut hand.seat, word, Some(posted));
        shared.swap::<Posts>(&mut hand.seat, word, ended(permit.place));
        self.bells.lead.notify_all();
    }

    /// Whether there is no more to come.
    pub fn finished(&self, hand: &mut Hand) -> bool
        requires hand { IsHandOf self.now hand.old }
        ensures hand { Stays self.now hand.old hand.new }
        ensures same { doing_of hand.new ≡ doing_of hand.old }
        ensures found { HandFinds (end_word (plan_of self.now)) (IsFlagSeen result) hand.old
            hand.new }
    {
        let word = self.requests + self.places;
        self.table.shared.load::<SeesSwitch>(&mut hand.seat, word) == 1
    }

    /// Whether a place is open.
    pub fn is_open(&self, hand: &mut Hand, place: PlaceId) -> bool
        requires hand { IsHandOf self.now hand.old }
        requires place { IsPlace (plan_of self.now) place }
        ensures hand { Stays self.now hand.old hand.new }
        ensures same { doing_of hand.new ≡ doing_of hand.old }
        ensures found { FindsOpen self.now place result hand.old hand.new }
    {
        let word = self.requests + place.index as usize;
        self.table.shared.load::<SeesSwitch>(&mut hand.seat, word) == 1
    }
}

// What a word shows the hand that waits.
fn polled_by(word: u64, claim: Claim) -> Polled
    ensures { PolledBy result claim word }
{
    let Claim { request, place } = claim;
    if word == running(place) || word == stopping(place) {
        Polled::Go(Permit { request, place })
    } else if word == claimed(place) {
        Polled::NotYet(Claim { request, place })
    } else {
        Polled::Withdrawn
    }
}
