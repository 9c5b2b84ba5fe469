//! What a run works on, and what is said of it: the machine, the journal and the spool that stand for one
//! list, and their two disks.
#![tactic(auto)]

mod error;
mod input;
mod stores;
mod work;

// The machine is a part of `Work`: who works with one names this crate alone.
pub use conc_restart::Machine;
pub use error::{DiskName, HistoryFail, RunFail};
pub use input::Input;
pub use stores::Stores;
pub use work::Work;
