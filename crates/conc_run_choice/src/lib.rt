//! What comes next in a run without workers, told by the machine; and the ends of requests, with and without a report.
#![tactic(auto)]

mod choosing;

pub use choosing::{Next, next_event, reported_end, terminated_end};
