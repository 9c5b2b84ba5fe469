//! The run with workers: hands in threads of their own serve a board, and beside them the resolver makes the history of a plan at
//! its desk, event by event.
#![tactic(auto)]

mod arrivals;
mod boarding;
mod crew;
mod logging;
mod resolving;
mod running;

pub use crew::CrewMember;
pub use running::{Pool, Ran, run_with_workers};
