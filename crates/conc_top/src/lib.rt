//! The commands of the program, over a shelf of files, a sink, a clock, and the disks of a journal and a
//! spool.
#![tactic(auto)]

mod checking;
mod commands;
mod context;
mod exit;
mod line;
mod printing;
mod repeating;
mod running;
mod showing;

pub use commands::{
    check_history, conc, make_and_run, run, run_plain, show_output, show_plan, show_repeat,
    show_status,
};
pub use conc_run_state::DiskName;
pub use exit::Exit;
pub use line::exit_text;
