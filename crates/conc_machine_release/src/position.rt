use conc_event_classes::Classes;
use conc_event_reach::Spans;
use conc_types::{Plan, State};

/// A position of a history: its state, the plan, and what the machine has made of the plan.
#[derive(Clone, Copy)]
pub(crate) struct Position<'a> {
    pub plan: &'a Plan,
    pub classes: &'a Classes,
    pub spans: &'a Spans,
    pub state: &'a State,
}
