//! A history stays lawful where the list of commands grows.
ghost use Rattle.conc_base_law.specs.Growth.{GrownListIsLawful, GrownListIsReported, GrownReportsAreSame, NamedRequestsAreKept};

/// A history that is lawful for a plan is lawful for a grown one, whose further commands are later than the history.
/// What its ends tell is then what the reports of their requests say in the grown plan too, and these reports are the
/// same.
pub fn grown_list_is_lawful()
    ensures lawful { GrownListIsLawful }
    ensures reported { GrownListIsReported }
    ensures same_reports { GrownReportsAreSame }
{}

/// The requests that the events of the history name are the same in both plans.
pub fn named_requests_are_kept()
    ensures { NamedRequestsAreKept }
{}
