//! A law on what a crash leaves of a journal and its spool. The function here has an empty body; its contract
//! is the law.
ghost use Rattle.conc_run_steps.specs.Fitting.{EventFits, TextFits};

use conc_disk::Disk;

/// The journal and the spool fit together at every moment of a step, which writes one of the two disks
/// alone. Where the spool is written behind its texts, and where a pending event is journaled, what
/// a crash at any moment of it leaves of the journal is good for all that it leaves of the spool, and each
/// end has its text there, if those of the list had theirs before.
pub fn journal_and_spool_fit<D: Disk, E: Disk>()
    ensures text { TextFits D.Disk E.Disk }
    ensures event { EventFits D.Disk E.Disk }
{}
