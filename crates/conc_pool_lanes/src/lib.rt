//! Ready lanes: a queue for each manager. The resolver puts into it each request that it lets and that the
//! manager admits, and hands take from it what they try to claim first. One pass puts, and each hand takes
//! with a pass of its own.
#![tactic(auto)]

mod each;
mod lane;
mod lanes;
mod laws;
mod rule;

pub use lanes::{HandPass, Lanes, LeadPass};
pub use laws::{lanes_are_in_order, lanes_have_room, lists_grow_by_one, lists_take_one_more};
pub use rule::{InOrder, Log};
