//! A run that crashed, and the next one of the same files over what the crash left.
ghost use Rattle.conc_run_laws.specs.Moments.{GoesOnFromAnEvent, GoesOnFromAText};
ghost use Rattle.conc_run_laws.specs.Next.{AnEndIsFit, ANextRunGoesOn};

use conc_disk::Disk;

/// Let a run begin on a journal and a spool that fit its files, with nothing pending, and let a
/// crash at any moment leave an image of its journal. A run of the same files over this image, and
/// over a spool that has each extent of its events, refuses nothing but for want of room. Its
/// list begins with the events that the first run found. Behind what it finds it starts no
/// request that was completed, and interrupts by its number each one that ran, before it does
/// anything else; once it is finished, each of these was interrupted. Each of the two runs has any
/// number of threads.
pub fn the_next_run<D: Disk, E: Disk>()
    ensures { ANextRunGoesOn D.Disk E.Disk }
{}

/// What a run with any number of threads leaves at its end, if it wrote anything, fits the next run
/// of the same files, where the spool held the texts of the events found; and the list in it begins
/// with all that was acknowledged.
pub fn the_end_is_fit<D: Disk, E: Disk>()
    ensures { AnEndIsFit D.Disk E.Disk }
{}

/// Let a crash come at any moment of a step of a run: while a text is written to the spool, or while an event is
/// journaled. Whatever it leaves of both disks, a run of the same files over these two images refuses nothing but for
/// want of room. Its list begins with the one to which the run had come before the step, thus with all that was
/// acknowledged by then, and is a right life behind what it finds.
pub fn a_crash_in_a_step_goes_on<D: Disk, E: Disk>()
    ensures text { GoesOnFromAText D.Disk E.Disk }
    ensures event { GoesOnFromAnEvent D.Disk E.Disk }
{}
