//! What stands still between a start and its end, where the postings of a plan are apart.
ghost use Rattle.conc_base_posts.specs.StandLaws.{EndsPostTheirRows, LastReportsStand, PostsStayWithin, ReportsStandStill, TablesHaveAll, TablesStandStill};

/// While a request of a program runs, the table that it reads and the one to which it posts stay as
/// they are.
pub fn tables_stand_still()
    ensures { TablesStandStill }
{}

/// At its end a request reports what it reported at its start.
pub fn reports_stand_still()
    ensures { ReportsStandStill }
{}

/// What is posted to a table stays within both limits.
pub fn posts_stay_within()
    ensures { PostsStayWithin }
{}

/// A table has its own rows, and behind them all that was posted to it.
pub fn tables_have_all()
    ensures { TablesHaveAll }
{}

/// Where a request ends, the report at its last start is the one that it would make now.
pub fn last_reports_stand()
    ensures { LastReportsStand }
{}

/// An end with outcome Normal or Warning posts the rows that its request would post now.
pub fn ends_post_their_rows()
    ensures { EndsPostTheirRows }
{}
