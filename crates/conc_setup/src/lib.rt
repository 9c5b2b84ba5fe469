//! The reader of the setup file.
#![tactic(auto)]

mod copies;
mod document;
mod entry;
mod first_pass;
mod manager;
mod names;
mod places;
mod raw;
mod resolve;
mod second_pass;
mod set;
mod setup;
mod third_pass;

pub use setup::read_setup;
