//! The table of a finished run does not depend on who runs its requests, where the plan is steady.
ghost use Rattle.conc_base_law.specs.Sameness.{SteadyTablesAreSame, SteadyTableIsThatOfAlone};

/// Two finished lives of a steady plan, whose ends tell what the reports of their requests say, have
/// the same table, and the same requests ended, with the same outcomes.
pub fn same_table()
    ensures { SteadyTablesAreSame }
{}

/// Such a life has the table of the run without workers.
pub fn table_of_alone()
    ensures { SteadyTableIsThatOfAlone }
{}
