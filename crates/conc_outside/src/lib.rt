//! The outside: where files are read from and where bytes are written to.
#![tactic(auto)]

mod error;
mod memory_shelf;
mod memory_sink;
mod real;
mod shelf;
mod sink;
mod system;

pub use error::{Failed, ShelfFail};
pub use memory_shelf::MemShelf;
pub use memory_sink::MemSink;
pub use real::{FileShelf, WriterSink};
pub use shelf::Shelf;
pub use sink::{Sink, write_all};
pub use system::{is_at_one_of, metadata_at, metadata_of, read_up_to};
