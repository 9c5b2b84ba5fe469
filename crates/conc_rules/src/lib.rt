//! Which requests never run at the same time, which requests a manager admits, and what else the
//! law reads of a plan.
#![tactic(auto)]

mod admission;
mod exclusion;
mod items;
mod plans;

pub use admission::admits;
pub use exclusion::{excludes, runs_alone};
pub use items::{is_resume, is_same_item, is_set};
pub use plans::{
    are_exclusive, can_run, has_restart, is_admitted, is_enabled, is_member, parent, parent_item,
    program_of, stages_of,
};
