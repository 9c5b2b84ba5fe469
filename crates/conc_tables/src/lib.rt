//! The reader of the tables.
#![tactic(auto)]

mod columns;
mod gathered;
mod reading;

pub use reading::{MOST_ROWS, read_table};
