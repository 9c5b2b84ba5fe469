//! What stands on the disks of a run, opened and judged: what a life needs, its beginning, the list of its journal, and
//! the text of a report.
#![tactic(auto)]

mod error;
mod examining;
mod extents;
mod judging;
mod listing;
mod opening;
mod reading;
mod scripts;
mod starting;
mod text;

pub use error::TextFail;
pub use examining::{Examined, examine};
pub use listing::read_list;
pub use opening::{Begun, begin, open};
pub use text::read_text;
