//! Scripts of submissions that are repeated, written from files of repeats.
#![tactic(auto)]

mod courses;
mod dues;
mod expanding;
mod fields;
mod judging;
mod lines;
mod series;
mod writing;

pub use courses::{Course, TimeUnit};
pub use dues::Due;
pub use expanding::expand;
