//! What a run needs to go on from a journal: the machine that stands for the journal's list, which it hands on,
//! and the room that the events of one more life need.
#![tactic(auto)]

mod laws;
mod resuming;
mod room;

// The machine is what `resume` hands out: who resumes a list names this crate alone.
pub use conc_machine::Machine;
pub use laws::life_fits_need;
pub use resuming::resume;
pub use room::need;
