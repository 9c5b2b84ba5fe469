//! Which request starts next, and where: the let requests of each manager by their turns, and what
//! runs at each place.
#![tactic(auto)]

mod starts;
mod updates;

pub use starts::Starts;
