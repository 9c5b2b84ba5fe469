//! Laws on what the lead knows of each request, beside the journal's list. Each function here has an empty body;
//! its contract is the law.
ghost use Rattle.conc_run_desk.specs.Permits.{GoRunsBetweenCalls, GoRunsOnceRecorded, NoRivalsHavePermits, PermitsAreRuns};
ghost use Rattle.conc_run_desk.specs.Ties.{LeadStatesGoWithTheList, OnTheBoardNoneExcludesWhatWaits, WhatIsOnTheBoardIsLive};

/// What the lead knows of each request goes with the list after one more event, once what that event means for
/// the board is done. The event may follow the list, is no resume, and ends no request that has the go.
pub fn lead_states_go_with_the_list()
    ensures { LeadStatesGoWithTheList }
{}

/// A request that is let in a lawful list and does not run excludes none that the lead has on the board, where
/// what it knows goes with the list. So it may be let out.
pub fn on_the_board_none_excludes_what_waits()
    ensures { OnTheBoardNoneExcludesWhatWaits }
{}

/// A request that the lead has on the board, let out or with the go, is live in a lawful list, where what it knows
/// goes with the list.
pub fn what_is_on_the_board_is_live()
    ensures { WhatIsOnTheBoardIsLive }
{}

/// A worker has the permit for a request at a place only while the request runs there in the list, and no two
/// workers ever have permits for requests that exclude each other. So two reports of such requests are never made
/// at the same time.
pub fn a_permit_is_a_run()
    // What has the go runs: between any two calls of a desk, and within a call once the event is recorded.
    ensures between_calls { GoRunsBetweenCalls }
    ensures once_recorded { GoRunsOnceRecorded }

    // So does each request that a worker has the permit for.
    ensures permits { PermitsAreRuns }
    ensures rivals { NoRivalsHavePermits }
{}
