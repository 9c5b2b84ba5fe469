//! Which request is let out next: the ready requests of each class by their turns, and how many live
//! requests exclude each class.
#![tactic(auto)]

mod candidates;
mod forced;
mod fresh;
mod kin;
mod lets;
mod position;
mod refresh;
mod renewal;
mod rivals;
mod starts;

pub use lets::Lets;
