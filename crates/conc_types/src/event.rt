ghost use Rattle.std.specs.Prelude.{◌<◌};

/// A request, by its number. Requests are numbered from 1 in the order in which their submissions
/// stand in the script, a set before its members.
#[derive(Clone, Copy, Debug, PartialEq, Eq)]
pub struct RequestId {
    pub number: u32,
}

/// A place at which a request can run, by its index from 0, counted through all managers in the
/// order of the setup.
#[derive(Clone, Copy, Debug, PartialEq, Eq)]
pub struct PlaceId {
    pub index: u32,
}

/// A civil moment, in seconds since 0001-01-01T00:00:00 and before 10000-01-01T00:00:00.
#[derive(Clone, Copy, Debug, PartialEq, Eq)]
pub struct Moment {
    pub seconds: u64,
    ghost civil: { seconds < 315537897600 },
}

/// Where the text of a report stands in the spool, in bytes.
#[derive(Clone, Copy, Debug, PartialEq, Eq)]
pub struct Extent {
    pub offset: u64,
    pub length: u32,
}

/// How a request ended.
#[derive(Clone, Copy, Debug, PartialEq, Eq)]
pub enum Outcome {
    Normal,
    Warning,
    Error,
    Terminated,
    Cancelled,
}

/// The phase of a request.
#[derive(Clone, Copy, Debug, PartialEq, Eq)]
pub enum Phase {
    Pending,
    Running,
    Completed,
    Inactive,
}

/// The status of a request within its phase.
#[derive(Clone, Copy, Debug, PartialEq, Eq)]
pub enum Status {
    Normal,
    Standby,
    Scheduled,
    Waiting,
    Paused,
    Terminating,
    Error,
    Warning,
    Cancelled,
    Terminated,
    Disabled,
    OnHold,
    NoManager,
}

/// One event of a history. Commands and stages are numbered from 1.
#[derive(Clone, Copy, Debug, PartialEq, Eq)]
pub enum Event {
    /// The clock is read.
    Tick {
        moment: Moment,
    },
    /// A command of the script is done.
    Command {
        number: u32,
    },
    /// A set begins.
    OpenSet {
        set: RequestId,
    },
    /// A stage of an open set begins.
    Stage {
        set: RequestId,
        stage: u32,
    },
    /// An open set is completed.
    CloseSet {
        set: RequestId,
        outcome: Outcome,
    },
    /// A request is let out to the managers.
    LetOut {
        request: RequestId,
    },
    /// A request begins to run at a place.
    Started {
        request: RequestId,
        place: PlaceId,
    },
    /// A running request ends. It has an extent unless it was terminated.
    Ended {
        request: RequestId,
        outcome: Outcome,
        extent: Option<Extent>,
    },
    /// The system starts again after a crash.
    Resume,
    /// A request that ran at the crash is given up.
    Interrupt {
        request: RequestId,
    },
}
