//! Laws on how a run with workers goes on: until its history is finished somebody can do something, and what runs has the
//! go on the board. The functions of `laws` have empty bodies; their contracts are laws.
#![tactic(auto)]

mod laws;

pub use laws::{
    each_move_can_be_made, each_step_makes_the_measure_less, no_desk_is_dead, no_state_is_dead,
    what_runs_has_the_go_after_each_event, what_runs_has_the_go_between_events,
};
