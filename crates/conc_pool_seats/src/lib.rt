//! What the seats at a board know, and what stands on it: the words, the slots, and the rule that
//! joins them between any two steps.
#![tactic(auto)]

mod posted;
mod views;

pub use posted::Posted;
pub use views::{Doing, LeadState, View};
