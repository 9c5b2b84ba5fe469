//! Trials of a desk by one thread, over disks in memory.
#![tactic(auto)]

mod disks;

pub use disks::Disks;

#[cfg(test)]
mod tests;
