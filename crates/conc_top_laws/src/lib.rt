//! Laws on the commands: each of them does what it is for, where its files are accepted, its
//! journal fits and no call of the outside fails; want of memory alone may keep it from that.
//! The function here has an empty body; its contract is the laws, and they use of a call only what its
//! contract says.
#![tactic(auto)]

mod completeness;

pub use completeness::commands_complete;
