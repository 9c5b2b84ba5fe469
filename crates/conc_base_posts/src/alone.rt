//! The run without workers, where programs post.
ghost use Rattle.conc_base_posts.specs.AloneLaws.{ARunWithoutWorkersExists, AloneFinishes, AloneIsLawful, AloneIsUnique, AloneReports, ChoiceIsLawful};

/// What comes next is no resume, and may follow.
pub fn choice_is_lawful()
    ensures { ChoiceIsLawful }
{}

/// A run without workers that goes on from a lawful history makes a lawful one.
pub fn alone_is_lawful()
    ensures { AloneIsLawful }
{}

/// Where nothing comes next, the history is finished.
pub fn alone_finishes()
    ensures { AloneFinishes }
{}

/// Each end that it adds tells what the report of its request says at its last start.
pub fn alone_reports()
    ensures { AloneReports }
{}

/// From one beginning it makes one history.
pub fn alone_is_unique()
    ensures { AloneIsUnique }
{}

/// From each history that is lawful so far there is one that it makes.
pub fn a_run_without_workers_exists()
    ensures { ARunWithoutWorkersExists }
{}
