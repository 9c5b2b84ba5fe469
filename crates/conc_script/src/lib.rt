//! The readers of the script and of the clock file.
#![tactic(auto)]

mod actions;
mod clock;
mod fields;
mod judging;
mod lines;
mod owning;
mod script;
mod words;

pub use clock::read_clock;
pub use script::read_script;
