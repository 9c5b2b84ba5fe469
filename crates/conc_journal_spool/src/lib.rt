//! The spool: the texts of reports, one after the other on a disk.
#![tactic(auto)]

mod error;
mod spool;

pub use error::SpoolFail;
pub use spool::Spool;
