//! A whole run, by itself or beside watchers, who look at its history while it grows. The run tells each event once
//! that is on the disk; each watcher looks in a thread of its own, and waits for nobody.
#![tactic(auto)]

mod watched;

pub use conc_run::{Workers, run_on_threads, run_plan};
pub use watched::{Watched, run_watched};
