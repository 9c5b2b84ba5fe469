//! What charts know of a history: its events, the rows of its table, its runs, and the places at which
//! they ran, with the words that pictures share and the words of the command line of `conc_chart`.
#![tactic(auto)]

mod command;
mod fail;
mod judging;
mod model;
mod order;
mod reading;
mod rows;
mod runs;
mod table;
mod turns;
mod words;

pub use command::{Form, Words, read_words};
pub use fail::{ChartFail, ChartFile, ChartRefusal, ChartWhy};
pub use model::{Chart, Place, Planned, Row, Run};
pub use order::{is_same, places, precedes};
pub use reading::read_chart;
pub use runs::place_of;
pub use turns::{Begun, Turn, moments, turn_of};
pub use words::{put_bytes, put_place, put_state};
