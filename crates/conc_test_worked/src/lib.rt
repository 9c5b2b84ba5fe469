//! Worked examples of whole calls, derived from the rules or by another program, a shelf for their files,
//! and the plan of some files.
#![tactic(auto)]

mod examples;
mod files;
mod lives;
mod managers;
mod month_end;
mod plain;
mod plans;
mod sets;

pub use examples::{Worked, worked_of};
pub use files::{file_of, shelf_with};
pub use lives::LIVES;
pub use managers::MANAGERS;
pub use month_end::MONTH_END;
pub use plain::PLAIN;
pub use plans::plan_from;
pub use sets::SETS;
