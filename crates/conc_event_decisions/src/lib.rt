//! What the law says at a position, decided from the state there: which interrupt, command or step of a set is
//! forced, which request may be let out, start or end, and the status of each request.
#![tactic(auto)]

mod equality;
mod forcing;
mod lookup;
mod permits;
mod stages;
mod statuses;

pub use equality::is_same_event;
pub use forcing::{blocks, has_step, is_due, is_free, is_left_running, is_ready, let_event};
pub use lookup::{facts_at, has_come, is_completed, is_live, is_not_earlier, is_waiting};
pub use permits::{is_usable_now, may_end, may_end_by_id, runs_somewhere};
pub use stages::set_step;
pub use statuses::status;
