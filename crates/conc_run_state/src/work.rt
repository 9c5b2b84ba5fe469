use conc_journal::Journal;
use conc_journal_spool::Spool;
use conc_restart::Machine;

/// What a run works on. It does not hold the disks of its journal and its spool, which each call is
/// handed.
#[derive(Drop)]
pub struct Work<'p> {
    /// Stands for the journal's list.
    pub machine: Machine<'p>,
    pub journal: Journal,
    /// Has the texts of the list's ends.
    pub spool: Spool,
}
