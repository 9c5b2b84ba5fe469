//! Generated inputs, run in memory without workers, and the summary of what they come to.
#![tactic(auto)]

mod counting;
mod generating;
mod running;
mod summarizing;

pub use summarizing::summarize;
