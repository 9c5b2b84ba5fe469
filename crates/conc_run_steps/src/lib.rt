//! One event of a run: its text, if it has one, is stored in the spool, and then it is added to the journal and taken into
//! the machine. Neither call writes both disks. A teller may be told of it then.
#![tactic(auto)]

mod error;
mod laws;
mod logging;
mod storing;
mod teller;

pub use error::JournalFault;
pub use laws::journal_and_spool_fit;
pub use logging::{add_event, log_event};
pub use storing::store_text;
pub use teller::tell;
