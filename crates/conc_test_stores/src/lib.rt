//! Trials of the outside, in memory and real, and of what is kept on disks.
#![tactic(auto)]

#[cfg(test)]
mod tests;
