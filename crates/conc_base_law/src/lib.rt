//! The law of the batch system: definitions for the contracts of the crates above, in `specs/`, and
//! laws over all histories. Each function here has an empty body; its contract is the law.
#![tactic(auto)]

mod alone;
mod growth;
mod promises;
mod sameness;

ghost use Rattle.conc_base_law.specs.Laws.{AloneFinishes, AloneIsLawful, AloneIsUnique, AloneReports, BeginsWithATick, BegunStagesOccur, ChoiceIsLawful, EachEventUsesUp, ExclusionIsSymmetric, LawfulHasNoOverlap, LawfulIsLawfulSoFar, NoStartAfterCompletion, OneAtAPlace, PrefixIsLawfulSoFar, ReportIsShort, RequestsAreNumbered, RunningHasItsStart, RunningIsLet, RunningPlaceHasItsStart};

pub use alone::a_run_without_workers_exists;
pub use growth::{grown_list_is_lawful, named_requests_are_kept};
pub use promises::{stages_follow_links, starts_are_admitted};
pub use sameness::{same_table, table_of_alone};

// ---- exclusion and plans

/// Exclusion is symmetric.
pub fn exclusion_is_symmetric()
    ensures { ExclusionIsSymmetric }
{}

/// Each request of a plan is found by its number.
pub fn requests_are_numbered()
    ensures { RequestsAreNumbered }
{}

/// The text of a report is short.
pub fn report_is_short()
    ensures { ReportIsShort }
{}

// ---- every lawful history

/// Running intervals of requests that exclude each other do not overlap.
pub fn no_overlap()
    ensures { LawfulHasNoOverlap }
{}

/// No start of a request occurs after its completion.
pub fn no_start_after_completion()
    ensures { NoStartAfterCompletion }
{}

/// Two requests that run at one place are one.
pub fn one_at_a_place()
    ensures { OneAtAPlace }
{}

/// A request that runs is let.
pub fn running_is_let()
    ensures { RunningIsLet }
{}

/// The first event is a tick.
pub fn begins_with_a_tick()
    ensures { BeginsWithATick }
{}

/// The history up to any event is lawful too, with every life judged as an earlier one.
pub fn prefix_is_lawful_so_far()
    ensures { PrefixIsLawfulSoFar }
{}

/// A history that is lawful for some readings is lawful with every life judged as an earlier one.
pub fn lawful_is_lawful_so_far()
    ensures { LawfulIsLawfulSoFar }
{}

// ---- the run without a choice

/// What comes next in a run without workers is no resume, and may follow.
pub fn choice_is_lawful()
    ensures { ChoiceIsLawful }
{}

/// A run without workers that goes on from a lawful history makes a lawful one.
pub fn alone_is_lawful()
    ensures { AloneIsLawful }
{}

/// Where nothing comes next in a run without workers, the history is finished.
pub fn alone_finishes()
    ensures { AloneFinishes }
{}

/// Each end that a run without workers adds tells what the report of its request says.
pub fn alone_reports()
    ensures { AloneReports }
{}

/// A life ends: each event but a resume lowers the bound on the events that it still has.
pub fn each_event_uses_up()
    ensures { EachEventUsesUp }
{}

/// From one beginning a run without workers makes one history.
pub fn alone_is_unique()
    ensures { AloneIsUnique }
{}

// ---- what is kept of a request, against the events

/// The stages of a set that have begun are those whose event occurs.
pub fn begun_stages_occur()
    ensures { BegunStagesOccur }
{}

/// A request runs where a start of it occurs with no end or interrupt after it.
pub fn running_has_its_start()
    ensures { RunningHasItsStart }
{}

/// In a lawful history a request runs at the place at which a start of it occurs with no end or
/// interrupt after it.
pub fn running_place_has_its_start()
    ensures { RunningPlaceHasItsStart }
{}
