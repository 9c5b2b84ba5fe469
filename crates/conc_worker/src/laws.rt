//! A law on what is claimed. Its function has an empty body; its contract is the law.
ghost use Rattle.conc_worker.specs.Leaving.{WhatIsAdmittedHasAReport};

/// A request that the manager of a place admits has a report: its program is in the setup, and the
/// program's table in the plan.
pub fn what_is_admitted_has_a_report()
    ensures { WhatIsAdmittedHasAReport }
{}
