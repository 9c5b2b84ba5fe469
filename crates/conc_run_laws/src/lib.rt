//! Laws on a run that crashed and on the next run of the same files, or of a script that has grown. Each function here has an
//! empty body; its contract is the law.
#![tactic(auto)]

mod grown;
mod lives;
mod next;

pub use grown::a_grown_script_fits;
pub use lives::{a_finished_life_interrupts_what_ran, a_life_goes_on_rightly};
pub use next::{a_crash_in_a_step_goes_on, the_end_is_fit, the_next_run};
