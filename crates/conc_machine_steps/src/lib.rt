//! What is forced by a request that runs or by an open set: the interrupt after a restart, and the
//! next stage or the close of a set.
#![tactic(auto)]

mod running;
mod slots;
mod steps;

pub use running::Running;
pub use steps::Steps;
