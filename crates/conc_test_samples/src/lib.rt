//! Trials of the parts that only work out values: what is read, written, counted and made.
#![tactic(auto)]

#[cfg(test)]
mod tests;
