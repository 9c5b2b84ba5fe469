//! A plan whose script has grown.
ghost use Rattle.conc_base_posts.specs.Laws.{GrownBooksAreSame};

/// Behind a lawful history, what is posted is the same for a plan whose script grew, and so is the
/// report at each last start.
pub fn grown_books_are_same()
    ensures { GrownBooksAreSame }
{}
