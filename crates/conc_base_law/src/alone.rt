//! The run without a choice comes to an end.
ghost use Rattle.conc_base_law.specs.Alone.{ARunWithoutWorkersExists};

/// From each history that is lawful so far, with readings in order, a run without workers goes on to an end: there is a
/// history that it makes.
pub fn a_run_without_workers_exists()
    ensures { ARunWithoutWorkersExists }
{}
