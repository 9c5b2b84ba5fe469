//! The state after no events, and the parts of the state after one more event.
#![tactic(auto)]

mod fresh;
mod history;
mod kinds;
mod step;

pub use fresh::begin;
pub use history::{mark_done, named_facts, used_after};
pub use kinds::act;
pub use step::facts_after;
