//! What watchers of a running history keep of their looks, and the lines that tell it.
#![tactic(auto)]

mod crew;
mod ending;
mod keeping;
mod lines;
mod looks;

pub use crew::Watchers;
pub use ending::Ending;
pub use lines::put_watch_lines;
pub use looks::Looks;
