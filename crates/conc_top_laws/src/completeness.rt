ghost use Rattle.conc_top_laws.specs.Complete.{ChecksComplete, MakesComplete, OutputsComplete, PlansComplete, RepeatsComplete, RunsComplete, StatusesComplete};

use conc_disk::Disk;
use conc_edge_clock::Clock;
use conc_outside::{Shelf, Sink};

/// Each command does what it is for.
pub fn commands_complete<F: Shelf, O: Sink, D: Disk, E: Disk, C: Clock>()
    // `run` finishes the history and prints it, with any number of threads and of watchers, where the
    // journal is that of its files or not begun, none of its records is bad, and it has room for one more
    // life.
    ensures run { RunsComplete F.Shelf O.Sink D.Disk E.Disk C.Clock }

    // `plan` prints the listing.
    ensures plan { PlansComplete F.Shelf O.Sink D.Disk E.Disk C.Clock }

    // `check` prints its verdict, where the history is there and lawful, and its table is right.
    ensures check { ChecksComplete F.Shelf O.Sink D.Disk E.Disk C.Clock }

    // `status` prints the table, where the journal is that of its files or not begun, no record of it is
    // broken, and its list is lawful.
    ensures status { StatusesComplete F.Shelf O.Sink D.Disk E.Disk C.Clock }

    // `output` prints the report, where the journal fits, and has an end of the request with a report.
    ensures output { OutputsComplete F.Shelf O.Sink D.Disk E.Disk C.Clock }

    // `make` prints the summary.
    ensures make { MakesComplete F.Shelf O.Sink D.Disk E.Disk C.Clock }

    // `repeat` prints the script, where the file of repeats is there and breaks no rule.
    ensures repeat { RepeatsComplete F.Shelf O.Sink D.Disk E.Disk C.Clock }
{}
