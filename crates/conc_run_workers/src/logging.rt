// Events that are journaled at the desk, and told.
ghost use Rattle.std.specs.Prelude.{◌∷◌, ◌++◌, [], IsFalse, None};
ghost use Rattle.conc_base_law.specs.Kinds.{is_resume};
ghost use Rattle.conc_base_law.specs.Law.{Lawful};
ghost use Rattle.conc_run_desk.specs.Desks.{list_at, plan_at};
ghost use Rattle.conc_run_desk.specs.Logging.{IsItsTurn, WasSeen};
ghost use Rattle.conc_run_steps.specs.Steps.{readings_in};

use crate::resolving::Resolver;
use conc_disk::Disk;
use conc_journal::Teller;
use conc_run_desk::Kept;
use conc_run_state::RunFail;
use conc_run_steps::tell;
use conc_types::{Event, RequestId};
use std::sync::Wait;

impl<D: Disk, E: Disk, T: Teller> Resolver<'_, '_, '_, D, E, T> {
    ghost use Rattle.conc_run_workers.specs.Resolvers.{HasGivenGo, IsOfPlan, Logs, MayStep, Steps};

    /// Journals an event that is no end, takes it into the machine, does what it means for the board, and tells it.
    pub(crate) fn log<R: Wait>(&mut self, rt: &R, event: Event) -> Result<(), RunFail>
        requires may_step { MayStep D.Disk E.Disk T.Teller self.old }
        requires lawful { Lawful (plan_at self.old.desk.now) (readings_in self.old.desk.now.work)
            (list_at self.old.desk.now ++ event ∷ []) }
        requires no_resume { IsFalse (is_resume event) }
        requires seen { WasSeen event self.old.desk.now }
        requires no_end { IsItsTurn None event }
        ensures { Logs D.Disk E.Disk T.Teller event result self.old self.new }
    {
        let receipt = self
            .desk
            .log_event(&self.shared.board, self.journal, event)?;
        tell(rt, self.teller, &receipt)
    }

    /// Ends a request that has the go, if something was left for it: its text is on the spool's disk before the end is
    /// journaled, and told. True where it did.
    pub(crate) fn end<R: Wait>(&mut self, rt: &R, r: RequestId) -> Result<bool, RunFail>
        requires may_step { MayStep D.Disk E.Disk T.Teller self.old }
        requires request { IsOfPlan self.old r }
        requires gone { HasGivenGo self.old r }
        ensures { Steps D.Disk E.Disk T.Teller result self.old self.new }
    {
        if self.desk.machine().forced().is_some() {
            return Ok(false);
        }
        let Kept::Ready(event) = self.desk.keep(&self.shared.board, self.spool, r)? else {
            return Ok(false);
        };
        let receipt = self
            .desk
            .log_event(&self.shared.board, self.journal, event)?;
        tell(rt, self.teller, &receipt)?;
        Ok(true)
    }
}
