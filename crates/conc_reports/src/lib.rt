//! The report that a run of a program makes of its table.
#![tactic(auto)]

mod columns;
mod figures;
mod filters;
mod groups;
mod listing;
mod making;
mod numbers;
mod quotes;
mod sieves;
mod tally;

pub use making::{Made, report};
pub use numbers::whole_number;
