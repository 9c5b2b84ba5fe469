//! Classes of requests: those of one class exclude the same requests, but for kin.
#![tactic(auto)]

mod candidates;
mod classes;
mod excludes_kin;
mod keys;
mod kinds;
mod partition;
mod rivals;
mod shelf;
mod shelves;

pub use classes::Classes;
