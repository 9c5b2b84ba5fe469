//! The run without workers: it makes the history of a plan, event by event, in a journal, and its reports' texts in
//! a spool. It may tell a teller of each event.
#![tactic(auto)]

mod running;
mod told;

pub use running::run_alone;
pub use told::run_told;
