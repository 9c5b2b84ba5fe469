//! The words of the command line: what a command is, and the words that give it.
#![tactic(auto)]

mod command;
mod options;
mod words;

pub use command::{Command, read_command};
