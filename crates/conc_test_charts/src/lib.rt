//! Trials of charts: what is read of histories, what is refused, and the tables.
#![tactic(auto)]

#[cfg(test)]
mod tests;
