use crate::Posted;
use conc_types::{PlaceId, Plan, RequestId};
use std::collections::LinkedList;

/// What the lead knows of a request. From `Gone` on it has the request's mark: whether a stop of it
/// won.
pub enum LeadState {
    /// It is not on the board, or was withdrawn.
    NotLet,
    /// It is let out.
    Let,
    /// It is let out, and was seen claimed by this place.
    Seen(PlaceId),
    /// It has the go at this place.
    Gone(PlaceId, bool),
    /// What was left for it at this place is with the lead.
    Got(PlaceId, bool),
    /// What was left for it was collected.
    Done(bool),
}

/// What a hand does.
pub enum Doing {
    Idle,
    /// It waits for the answer to its claim of a request for a place.
    Waits(RequestId, PlaceId),
    /// It has the permit for a request at a place, with the stop sign or without.
    Serves(RequestId, PlaceId, bool),
}

/// What a seat knows, a lead's or a hand's. No value of it is ever made.
pub struct View {
    /// It is the lead's.
    pub leads: bool,
    /// The plan of the board, which the lead knows.
    pub plan: Option<Plan>,
    /// The lead state of each request, which the lead knows.
    pub lead_states: LinkedList<LeadState>,
    /// What it last wrote to each word that is no request's, which the lead knows. It begins at 0.
    pub switches: LinkedList<u64>,
    /// The places of its own.
    pub places: LinkedList<PlaceId>,
    /// What it does, as a hand.
    pub doing: Doing,
    /// What its steps found, in order: the number of the word, and what stood there.
    pub found: LinkedList<(u64, u64)>,
    /// What it left in slots, as a hand, or took out of them, as the lead, in order: the number of the request's word,
    /// and what was posted.
    pub posts: LinkedList<(u64, Posted)>,
}
