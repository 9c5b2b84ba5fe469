//! The resolver's state in a run with workers: the lead's seat at the board, and the machine, the journal and the spool, which stand for one list.
//! What the lead knows of each request goes with that list. After an event is logged, the desk does what it means for the board: it alone gives
//! the go, withdraws requests and tells workers to stop. The functions of `laws` have empty bodies; their contracts are laws.
#![tactic(auto)]

mod desk;
mod following;
mod keeping;
mod laws;

pub use desk::Desk;
pub use keeping::{KeepFail, Kept};
pub use laws::{
    a_permit_is_a_run, lead_states_go_with_the_list, on_the_board_none_excludes_what_waits,
    what_is_on_the_board_is_live,
};
