//! Trials of a view and of what is kept of looks at it, by one thread over a disk in memory.
#![tactic(auto)]

#[cfg(test)]
mod tests;
