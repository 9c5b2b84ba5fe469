//! The plan of a run: a setup, a script, tables, and the requests that the script enters.
#![tactic(auto)]

mod copies;
mod entering;
mod expanding;
mod judging;
mod making;

pub use making::make_plan;
