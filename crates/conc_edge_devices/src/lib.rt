//! The disks that there are: one in memory, one over a file, one over the file at a path, and two that
//! only look at such a file.
#![tactic(auto)]

mod counts;
mod faults;
mod file;
mod look;
mod memory;
mod opening;
mod path;
mod tear;
mod trace;

pub use file::FileDisk;
pub use look::{GrowingDisk, SnapshotDisk};
pub use memory::MemDisk;
pub use opening::{LockFile, open_disk};
pub use path::PathDisk;
