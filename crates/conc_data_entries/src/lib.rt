//! The forms of the tables of a setup file: programs, incompatibilities, managers and sets, each
//! read with the names that it gives, which are looked up later.
#![tactic(auto)]

mod entry;
mod manager;
mod program;
mod raw;
mod rule;
mod set;
mod shift;
mod shift_values;
mod table;

pub use entry::EntryForm;
pub use manager::ManagerForm;
pub use program::ProgramForm;
pub use raw::{RawEntry, RawLinks, RawManager, RawRule, RawSet, RawStage};
pub use set::SetForm;
pub use table::{FromTable, TableForm};
