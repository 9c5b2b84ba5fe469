//! The events and the rows of a chart as tables: comma-separated fields, and lines of JSON.
#![tactic(auto)]

mod csv_table;
mod facts;
mod json_lines;
mod rows;

pub use csv_table::put_csv;
pub use json_lines::put_json;
