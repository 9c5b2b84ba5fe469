//! Workers at a board: each claims requests for its places, the one that its lane names first, serves those that
//! get the go, and leaves what came of them.
#![tactic(auto)]

mod laws;
mod leaving;
mod managers;
mod serving;
mod worker;
mod working;

pub use laws::what_is_admitted_has_a_report;
pub use leaving::report_for;
pub use serving::{Served, serve_once};
pub use working::work;
