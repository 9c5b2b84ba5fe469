//! Laws on what a crash leaves of a run. Each function here has an empty body; its contract is the law.
ghost use Rattle.conc_run.specs.Crashed.{WhatACrashLeavesIsGood, WhatIsGoodIsNotRefused};

/// What a crash leaves of a run's journal is good for the next run of the same files, where the spool has
/// the extents: it is theirs, no record of it is broken, and its list is lawful.
pub fn what_a_crash_leaves_is_good()
    ensures { WhatACrashLeavesIsGood }
{}

/// A good journal of a run's files is not refused: it is not taken for no journal, for that of another
/// input or for that of another script, and none of its records is bad.
pub fn what_is_good_is_not_refused()
    ensures { WhatIsGoodIsNotRefused }
{}
