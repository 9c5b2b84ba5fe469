//! The reader of a history's text, the names that stand in one, and laws on it. Each function of
//! `laws` has an empty body; its contract is the law.
#![tactic(auto)]

mod event;
mod history;
mod laws;
mod names;
mod split;
mod starts;
mod words;

pub use history::{Lines, read_history, split_line};
pub use laws::{
    event_lines_are_read_back, event_lines_have_one_spelling, lawful_events_have_lines,
    read_texts_have_one_spelling, texts_are_read_back,
};
pub use names::{outcome_bytes, phase_bytes, status_bytes};
pub use split::split_once;
pub use starts::starts_of;
pub use words::number_of;
