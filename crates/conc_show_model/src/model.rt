ghost use Rattle.std.specs.Prelude.{◌≡◌, ◌<◌, AllPairs};
ghost use Rattle.conc_show_model.specs.Runs.{AreApart, runs_of};

use conc_types::{Event, Name, Phase, RequestId, Seq, Status};

/// A place as histories name it, both numbers from 1 to 64.
#[derive(Clone, Copy, Debug, PartialEq, Eq)]
pub struct Place {
    pub manager: u32,
    pub number: u32,
}

/// A request of the table.
#[derive(Drop)]
pub struct Row {
    pub request: RequestId,
    pub phase: Phase,
    pub status: Status,
    /// The name of its program or set.
    pub name: Name,
}

/// A stay of a request at a place. Events are counted from 0.
#[derive(Clone, Copy, Debug, PartialEq, Eq)]
pub struct Run {
    pub request: RequestId,
    pub place: Place,
    /// The index of the event with which it starts.
    pub from: usize,
    /// The index of the first later event that ends it, where there is one.
    pub to: Option<usize>,
}

/// What a plan and a script tell of a request.
#[derive(Clone, Copy, Debug, PartialEq, Eq)]
pub struct Planned {
    /// The request of its set, for a member.
    pub set: Option<RequestId>,
    /// The number of the command that enters it, where a script is given that has one.
    pub command: Option<u32>,
}

/// A history as charts know it.
#[derive(Drop)]
pub struct Chart {
    /// Its events, in order.
    pub events: Seq<Event>,
    /// The lines of its table, in order of the requests' numbers.
    pub rows: Seq<Row>,
    /// Its runs, in order of their starts.
    pub runs: Seq<Run>,
    /// What the plan tells of each of its requests, by number from 1; empty where no plan is given.
    pub planned: Seq<Planned>,
    pub ghost runs_are: { runs ≡ runs_of events },
    pub ghost apart: { ∥ AreApart runs ∥₁ },
    pub ghost rising: { AllPairs (λ a b. a.request.number < b.request.number) rows },
}
