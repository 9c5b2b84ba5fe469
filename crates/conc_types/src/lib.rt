//! The values of the batch system: what a setup, a script and a clock say, the events of a
//! history, and the state after them.
#![tactic(auto)]

mod cells;
mod decimal;
mod digests;
mod error;
mod event;
mod facts;
mod item;
mod kept;
mod kind;
mod limits;
mod manager;
mod name;
mod plan;
mod program;
mod refusal;
mod script;
mod seq;
mod set;
mod setup;
mod stage;
mod table;
mod text;

pub use cells::Cells;
pub use decimal::{put_decimal, read_decimal};
pub use digests::Digests;
pub use error::{CheckFail, NoMemory, ReadFail};
pub use event::{Event, Extent, Moment, Outcome, Phase, PlaceId, RequestId, Status};
pub use facts::{Facts, State};
pub use item::{Entry, Item, Reach, Scope};
pub use kept::{Amounts, NOT_KEPT, Numbering};
pub use kind::RefusalKind;
pub use limits::{MOST_POSTED_BYTES, MOST_POSTED_ROWS, MOST_REPORT_BYTES};
pub use manager::{Manager, Rule, Shift};
pub use name::{Name, is_name};
pub use plan::{Plan, Req};
pub use program::{Filter, Job, Program, Test};
pub use refusal::{FileKind, Refusal};
pub use script::{Act, Order, Reading, Readings, Script};
pub use seq::{Seq, numbered};
pub use set::SetDef;
pub use setup::Setup;
pub use stage::{Stage, StageSet};
pub use table::Table;
pub use text::{Bytes, Text, is_text, is_utf8};
