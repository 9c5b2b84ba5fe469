//! Queues of keys that take no memory once they are made, and the turns of requests, by which the
//! first request in precedence is the least key of a queue.
#![tactic(auto)]

mod laws;
mod queue;
mod turns;

pub use laws::{first_by_number, first_in_precedence};
pub use queue::{Queue, lesser};
pub use turns::{request_at_turn, turn};
