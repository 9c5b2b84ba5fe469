//! The clock that is handed in, and what it exposes: the moments that it still gives.
#![tactic(auto)]

mod clock;
mod memory;
mod system;

pub use clock::Clock;
pub use memory::MemClock;
pub use system::{SystemClock, SystemZone};
