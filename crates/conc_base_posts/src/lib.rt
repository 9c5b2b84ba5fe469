//! The law of tables that grow: what programs post, what reports over posted rows say, and laws of
//! these. Each function here has an empty body; its contract is the law.
#![tactic(auto)]

mod alone;
mod grown;
mod standing;

ghost use Rattle.conc_base_posts.specs.Laws.{OtherReportsAreOfFiles, PostsAreAddedByEvents, PostsGrow};

pub use alone::{
    a_run_without_workers_exists, alone_finishes, alone_is_lawful, alone_is_unique, alone_reports,
    choice_is_lawful,
};
pub use grown::grown_books_are_same;
pub use standing::{
    ends_post_their_rows, last_reports_stand, posts_stay_within, reports_stand_still,
    tables_have_all, tables_stand_still,
};

/// An end adds the rows of its own report at its last start, and no other event adds any. The
/// report at a start is made over the tables as they stand before it.
pub fn posts_are_added_by_events()
    ensures { PostsAreAddedByEvents }
{}

/// A request that does not touch postings reports over the plan's own tables, behind any events.
pub fn other_reports_are_of_files()
    ensures { OtherReportsAreOfFiles }
{}

/// What was posted to a table is a beginning of what is posted to it behind further events.
pub fn posts_grow()
    ensures { PostsGrow }
{}
