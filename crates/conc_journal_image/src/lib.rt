//! What the bytes of a journal stand for: the spelling of an event in a record, the header, where the
//! records stand, and the events that are found.
#![tactic(auto)]

mod bytes;
mod events;
mod fields;
mod found;
mod header;
mod label;
mod laws;
mod layout;
mod record;

pub use events::has_record;
pub use found::{Found, Search};
pub use header::{Header, header_of, judge_header};
pub use label::{Label, Version, base_of};
pub use laws::{
    basing_keeps, front_tells_all, gate_adds, gate_begins, journal_is_long_enough, journal_stays,
    not_begun_stays, spelled_has_record, spelling_is_unique, stamping_keeps, stamping_stamps,
    version_turns,
};
pub use layout::{HEADER_BYTES, MOST_BYTES, MOST_RECORDS, RECORD_BYTES, offset_behind};
pub use record::{read_record, record_of};
