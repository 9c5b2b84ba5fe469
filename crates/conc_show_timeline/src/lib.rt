//! A history as plain text: the requests at each place in the order in which they started, and a row for
//! each request over the events.
#![tactic(auto)]

mod colours;
mod lanes;
mod marks;
mod names;
mod rows;
mod ruler;
mod steps;
mod text;

pub use text::put_timeline;
