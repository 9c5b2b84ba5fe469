//! Digests: the stamps of a script's commands, each of which stands for its command and all before it; and the digests of the
//! input of a run, that is of its setup, its script and its tables, and not of its clock.
#![tactic(auto)]

mod coding;
mod digests;
mod files;
mod input;
mod stamps;

pub use digests::LazyDigests;
pub use input::InputDigest;
pub use stamps::stamps_of;
