//! A whole run over a journal and a spool: what stands there is opened and judged, and the run goes on from
//! it to the end of the history. The functions of `laws` have empty bodies; their contracts are laws.
#![tactic(auto)]

mod going;
mod laws;
mod whole;
mod workers;

pub use laws::{what_a_crash_leaves_is_good, what_is_good_is_not_refused};
pub use whole::{run_on_threads, run_plan};
pub use workers::Workers;
