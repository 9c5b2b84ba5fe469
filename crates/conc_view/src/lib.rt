//! Watchers of a running history: each reads the list of events that is published, and answers how many
//! requests are in which phase and how a request stands. They wait for nobody, and nobody waits for one
//! that has stopped looking. What a watcher has seen is a beginning of what was told, also after the end.
#![tactic(auto)]

mod book;
mod bounds;
mod counting;
mod line;
mod listing;
mod making;
mod marks;
mod naming;
mod opened;
mod publisher;
mod store;
mod told;
mod watcher;

pub use listing::Listing;
pub use making::new_view;
pub use naming::Naming;
pub use opened::Opened;
pub use publisher::{Publisher, Publishing};
pub use store::{Entry, Store};
pub use told::Told;
pub use watcher::{Snapshot, Watcher};
