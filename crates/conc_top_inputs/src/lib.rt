//! What a command is given: a setup, a script, a clock and tables, which are read from a shelf in this
//! order, each of them judged before the next one is read, and the plan that they give.
#![tactic(auto)]

mod accepting;
mod clocks;
mod error;
mod given;
mod names;
mod pace;
mod reading;
mod single;

pub use accepting::{Accepted, accept, accept_timed};
pub use conc_data_columns::{InTurn, OnThreads};
pub use error::InputFail;
pub use names::FileNames;
pub use pace::{Pace, TableFile};
pub use single::read_file;
