//! A journal over a disk: each event is on the disk before it is acknowledged, and a crash within any write
//! leaves the events before it, with that event or without.
#![tactic(auto)]

mod append;
mod begin;
mod durable;
mod error;
mod journal;
mod migrate;
mod opened;
mod receipt;
mod teller;

pub use error::{AppendFail, JournalFail};
pub use journal::Journal;
pub use opened::Opened;
pub use receipt::Receipt;
pub use teller::{Silent, Teller};
