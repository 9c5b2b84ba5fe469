use crate::marks::Marks;
use crate::prepared::Prepared;
use conc_event_reach::Span;
use conc_types::{Plan, State};

/// A position of a history: its state and what is kept beside it, the plan, and what was prepared of
/// the plan.
#[derive(Clone, Copy)]
pub(crate) struct Position<'a> {
    pub plan: &'a Plan,
    pub prepared: &'a Prepared,
    pub state: &'a State,
    /// At which requests something may be due.
    pub marks: &'a Marks,
    /// Where requests may be active: each other one is quiet.
    pub active: Span,
    /// The place of the first command that is not done, from 0.
    pub undone: usize,
}
