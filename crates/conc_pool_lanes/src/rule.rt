// The rule of a lane, and what each step tells.
ghost use Rattle.std.specs.Prelude.{◌≡◌, ◌≤◌, ◌++◌, ◌∷◌, [], length, ⊤};
ghost use Rattle.conc_pool_lanes.specs.Rule.{IsInOrder, putter, taker};

use conc_types::RequestId;
use crossbeam_queue::protocol::{Lesson, Outcome, Protocol, Split};
use std::collections::LinkedList;

/// What a pass knows of its lane. No value of it is made.
pub struct Log {
    /// Whether it puts. One pass of each lane does.
    pub puts: bool,
    /// What it has put, or taken, in order.
    pub requests: LinkedList<RequestId>,
}

/// The rule of a lane: what was put is what was taken, each once and in order, and then what the lane holds.
pub struct InOrder;

impl Protocol<RequestId, Log> for InOrder {
    ghost holds = { IsInOrder };

    ghost first = { putter [] };
}

pub(crate) struct PassesOn;

impl Split<Log> for PassesOn {
    ghost left = { λ v. v };

    ghost right = { λ v. taker [] };
}

pub(crate) struct Puts;

impl Outcome<RequestId, Log> for Puts {
    ghost then = { λ v x w. w ≡ putter (v.requests ++ x ∷ []) };
}

// The lane holds no more than was put.
impl Lesson<RequestId, Log> for Puts {
    ghost fact = { λ v items. length items ≤ length v.requests };
}

pub(crate) struct Takes;

impl Outcome<RequestId, Log> for Takes {
    ghost then = { λ v x w. w ≡ taker (v.requests ++ x ∷ []) };
}

impl Lesson<RequestId, Log> for Takes {
    ghost fact = { λ v items. ⊤ };
}
