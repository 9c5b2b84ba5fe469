//! The records of a text of comma-separated fields, read one by one.
#![tactic(auto)]

mod records;

pub use csv::ByteRecord;
pub use records::Records;
