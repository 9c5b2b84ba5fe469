//! The places of managers at moments, and moments as text, written and read.
#![tactic(auto)]

mod civil;
mod laws;
mod managers;
mod moments;
mod reading;
mod shifts;

pub use laws::{moments_are_read_back, moments_have_one_spelling};
pub use managers::{is_admitted_at, is_usable, place_count, place_of};
pub use moments::{date_of, put_moment};
pub use reading::{days_from_start, read_moment};
pub use shifts::places;

const SECONDS_PER_DAY: u64 = 86400;
