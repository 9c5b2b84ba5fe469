//! What the reports of a plan ask of the columns of its tables, made once and kept beside the cells.
#![tactic(auto)]

mod amounts;
mod asked;
mod keeping;
mod making;
mod numbering;

pub use keeping::{keep_columns, keep_columns_on_threads};
pub use making::{InTurn, OnThreads};
