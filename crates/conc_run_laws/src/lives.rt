//! What a life does with the requests of the events that it finds.
ghost use Rattle.std.specs.Prelude.{List, IsTrue, reverse};
ghost use Rattle.conc_types.specs.declared.event.Event.{Event};
ghost use Rattle.conc_types.specs.declared.plan.Plan.{Plan};
ghost use Rattle.conc_types.specs.declared.plan.Req.{Req};
ghost use Rattle.conc_types.specs.declared.script.Reading.{Reading};
ghost use Rattle.conc_types.specs.declared.script.Readings.{Readings};
ghost use Rattle.conc_base_law.specs.Alone.{opening};
ghost use Rattle.conc_base_law.specs.Facts.{runs};
ghost use Rattle.conc_base_law.specs.Law.{Finished, LawfulSoFar};
ghost use Rattle.conc_base_law.specs.Words.{Has};
ghost use Rattle.conc_run_state.specs.Lists.{GoesOn};
ghost use Rattle.conc_run_laws.specs.Lives.{IsInterrupted, IsRightLife};

/// A life that goes on from lawful events begins with them, starts no request that was completed
/// in them, and interrupts by its number each request that ran then, before it does anything
/// else.
pub fn a_life_goes_on_rightly()
    ensures { (plan : Plan) (readings : Readings) (found list : List Event) →
        LawfulSoFar plan found → GoesOn plan readings.list (opening found) list
        → IsRightLife plan found list }
{}

/// Once the life is finished, each of these requests was interrupted.
pub fn a_finished_life_interrupts_what_ran()
    ensures { (plan : Plan) (readings : List Reading) (found list : List Event) (r : Req) →
        Has plan.requests r → GoesOn plan readings (opening found) list
        → Finished plan readings list → IsTrue (runs (reverse found) r.number)
        → IsInterrupted found list r.number }
{}
