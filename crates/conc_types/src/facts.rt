use crate::{Moment, Outcome, PlaceId, Seq, StageSet};

/// The facts of one request after some events.
#[derive(Clone, Copy, Debug, PartialEq, Eq)]
pub struct Facts {
    /// The command that submits it is done.
    pub entered: bool,
    /// It is held.
    pub held: bool,
    /// It is a set, and open.
    pub opened: bool,
    /// Its stage that began last, if it is a set.
    pub stage: Option<u32>,
    /// Its stages that have begun, if it is a set.
    pub begun: StageSet,
    /// It is let out.
    pub let_out: bool,
    /// The place at which it runs.
    pub place: Option<PlaceId>,
    /// It was started since the system started last.
    pub started: bool,
    /// It was terminated, and not started since.
    pub terminated: bool,
    /// The outcome with which it is completed.
    pub outcome: Option<Outcome>,
}

impl Facts {
    /// The facts of a request of which no event speaks.
    pub const NONE: Facts = Facts {
        entered: false,
        held: false,
        opened: false,
        stage: None,
        begun: StageSet::EMPTY,
        let_out: false,
        place: None,
        started: false,
        terminated: false,
        outcome: None,
    };
}

/// The state after some events: all that the rules read of a history, but for its readings.
#[derive(Drop)]
pub struct State {
    /// There is no event.
    pub empty: bool,
    /// The moment of the last tick.
    pub time: Option<Moment>,
    /// How many bytes of the spool the extents take, where 64 bits hold it.
    pub used: Option<u64>,
    /// For each command of the script, whether it is done.
    pub done: Seq<bool>,
    /// The facts of each request of the plan.
    pub facts: Seq<Facts>,
}
