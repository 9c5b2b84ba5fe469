//! The board: the lead lets requests out on it, hands claim them, serve them and leave what came of
//! them. All calls take the board by `&`, wait for nobody, and take no memory but for `new`.
#![tactic(auto)]

mod bells;
mod board;
mod claiming;
mod ending;
mod hand;
mod last_claims;
mod laws;
mod lead;
mod numbers;
mod owners;
mod plays;

pub use board::Board;
pub use conc_pool_seats::{Doing, LeadState, Posted, View};
pub use ending::Words;
pub use hand::{Claim, Hand, Permit, Polled};
pub use laws::{
    marks_stay, permit_has_its_slot, permits_are_apart, reports_come_once, rule_has_points,
    rule_reads_no_finds, steps_are_recorded,
};
pub use lead::{Lead, Looked, NotYet, Progress};
pub use plays::BoardRule;
