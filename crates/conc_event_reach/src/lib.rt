//! Which requests an event can change: those that its command enters, the request that it names, and
//! the members of a set.
#![tactic(auto)]

mod span;
mod spans;
mod started;

pub use span::Span;
pub use spans::Spans;
pub use started::started_after;
