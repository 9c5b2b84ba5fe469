use conc_event_classes::Classes;
use conc_event_reach::{Span, Spans};
use conc_machine_release::Lets;
use conc_machine_starts::Starts;
use conc_machine_steps::{Running, Steps};
use conc_types::State;

/// What a machine keeps: the state, and of it what the next event is found by.
#[derive(Drop)]
pub(crate) struct Indexes {
    pub(crate) spans: Spans,
    pub(crate) classes: Classes,
    pub(crate) state: State,
    pub(crate) running: Running,
    pub(crate) steps: Steps,
    pub(crate) lets: Lets,
    pub(crate) starts: Starts,
    /// The first command that is not done, from 0.
    pub(crate) next_command: usize,
    /// Where the requests stand that were started in this life. A resume changes theirs alone.
    pub(crate) started: Span,
}
