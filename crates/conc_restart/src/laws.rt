//! A law over all lives. The function here has an empty body; its contract is the law.
ghost use Rattle.std.specs.Prelude.{◌++◌, ◌≤◌, List, length};
ghost use Rattle.conc_types.specs.declared.event.Event.{Event};
ghost use Rattle.conc_types.specs.declared.plan.Plan.{Plan};
ghost use Rattle.conc_types.specs.declared.script.Readings.{Readings};
ghost use Rattle.conc_base_law.specs.Law.{Lawful};
ghost use Rattle.conc_restart.specs.Need.{IsOfOneLife, need};

/// One more life fits the need: as long as the history is lawful, the events that are added to those
/// found, with a resume at most as the first of them, are no more.
pub fn life_fits_need()
    ensures { (plan : Plan) (readings : Readings) (found added : List Event) →
        Lawful plan readings.list (found ++ added) → IsOfOneLife added
        → length added ≤ need plan readings.list }
{}
