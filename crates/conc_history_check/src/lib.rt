//! The judge of a history. Each event is judged by what the events before it say, of which the state and some of what follows from it
//! are kept from one position to the next: which requests run, wait, are live or ready, in queues of which the first is known at once. An
//! event puts those anew that it can concern. The judge of a history's text, with its table, stands on it.
#![tactic(auto)]

mod active;
mod checker;
mod coming;
mod findings;
mod forcing;
mod free;
mod judging;
mod laws;
mod lets;
mod lines;
mod live;
mod marks;
mod position;
mod positions;
mod prepared;
mod readings;
mod ready;
mod starts;
mod table;
mod verdict;

pub use checker::check;
pub use laws::lawful_at_each_position;
pub use verdict::{Verdict, judge_text};
