//! The incremental machine: it stands for a list of events of any length, and answers for it what the
//! rules read from the list.
#![tactic(auto)]

mod answers;
mod commands;
mod forcing;
mod indexes;
mod judging;
mod life;
mod machine;
mod making;
mod taking;
mod writing;

pub use life::LifeReadings;
pub use machine::Machine;
