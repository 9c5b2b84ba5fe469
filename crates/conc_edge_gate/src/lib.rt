//! The gate before each report: one that holds nobody, and one that holds each of two requests until the
//! other has come.
#![tactic(auto)]

mod gate;

pub use gate::{FreeGate, Gate, PairGate};
