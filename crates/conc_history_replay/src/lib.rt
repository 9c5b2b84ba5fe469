//! The state after a list of events, each of which is taken in by the requests that it can change.
#![tactic(auto)]

mod changes;
mod entries;
mod replay;

pub use entries::Entries;
pub use replay::{state_after, take_in};
