//! What a disk is: what is read of it, what a crash at any moment may leave, and how often it failed.
#![tactic(auto)]

mod disk;
mod error;
mod settling;

pub use disk::Disk;
pub use error::{DiskFault, ReadBack};
pub use settling::settle;
