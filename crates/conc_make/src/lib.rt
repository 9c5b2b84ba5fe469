//! The generator of inputs: a setup, a script, a clock file and a table from a seed.
#![tactic(auto)]

mod draws;
mod inputs;
mod script;
mod setup;
mod table;
mod words;

pub use inputs::{Inputs, make};
