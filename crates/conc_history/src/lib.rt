//! The printed texts of histories and plans.
#![tactic(auto)]

mod lines;
mod listing;
mod table;
mod text;
mod words;

pub use listing::put_plan;
pub use table::put_status_table;
pub use text::put_history;
