//! Trials of the board by one thread and by several, and what they ask of a lead and of workers.
#![tactic(auto)]

mod asking;
mod crew;

pub use asking::{excludes_none, hand_at, let_out_if_apart, look_gone, look_let, post_report};
pub use crew::{Three, Worker};

#[cfg(test)]
mod tests;
