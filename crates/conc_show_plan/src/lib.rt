//! What the listing of a plan, and the script of the same run, tell a chart of the requests.
#![tactic(auto)]

mod fields;
mod lines;
mod listing;
mod plans;
mod submits;

pub use plans::read_planned;
