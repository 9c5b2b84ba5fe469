//! Trials of whole calls of the program, over a shelf, a sink, a clock and disks in memory.
#![tactic(auto)]

#[cfg(test)]
mod tests;
