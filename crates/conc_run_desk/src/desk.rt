ghost use Rattle.std.specs.Prelude.{◌≡◌, None, length};
ghost use Rattle.conc_types.specs.declared.event.RequestId.{RequestId};
ghost use Rattle.conc_board.specs.Seats.{lead_state_of};
ghost use Rattle.conc_pool_seats.specs.declared.views.LeadState.TheVariants as lead_state;
ghost use Rattle.conc_run_desk.specs.Seated.{IsSeated};
ghost use Rattle.conc_run_desk.specs.State.{DeskState, IsDesk};
ghost use Rattle.conc_run_steps.specs.Steps.{any_disk, IsTied, plan_in};
ghost use Rattle.conc_run_state.specs.Works.{list_in};

use crate::following::follow;
use crate::keeping::{KeepFail, Kept, end_left};
use conc_board::{Board, Lead, Looked, Progress};
use conc_disk::Disk;
use conc_journal::Receipt;
use conc_run_state::{Machine, Work};
use conc_run_steps::{JournalFault, add_event, store_text};
use conc_types::{Event, PlaceId, Plan, RequestId};
use std::marker::Model;

/// The resolver's state in a run with workers: its seat at the board, its machine, journal and spool, and the
/// end that is kept and not recorded yet, if there is one. What the lead knows of each request goes with
/// the journal's list, before and after each call.
#[derive(Drop)]
pub struct Desk<'a> {
    pub(crate) plan: &'a Plan,
    pub(crate) lead: Lead,
    pub(crate) work: Work<'a>,
    pub(crate) kept: Option<Event>,
    // How many events the list had when the desk was made.
    pub(crate) begun_with: usize,
    // Whether an end could not be kept. Then nothing more is journaled.
    pub(crate) failed: bool,
}

impl<'a> Model for Desk<'a> {
    ghost Value = { DeskState };

    ghost view = { λ d. record {
      plan = d.plan.now;
      lead = d.lead;
      work = d.work;
      kept = d.kept;
      begun_with = d.begun_with;
      failed = d.failed;
    } };

    ghost invariant = { λ d. IsDesk d.plan.now d.lead d.work d.kept };
}

impl<'a> Desk<'a> {
    ghost use Rattle.conc_board.specs.Looks.{HasProgress, LooksOn, SeesLeadState, Shows};
    ghost use Rattle.conc_board.specs.Seats.{FindsFitting, LeadFinds, plan_of};
    ghost use Rattle.conc_pool_seats.specs.LeadStates.{IsGone, IsLet, IsLetOrGone};
    ghost use Rattle.conc_pool_seats.specs.Words.{end_word, IsPlace, IsRequest, place_word, request_word};
    ghost use Rattle.std.specs.Prelude.{◌⊎◌, ◌<◌, ◌∷◌, ◌++◌, [], IfOk, IsFalse, IsTrue, OnErr, OnOk, reverse, Some};
    ghost use Rattle.conc_journal.specs.JournalStates.{has_faulted};
    ghost use Rattle.conc_journal.specs.Journals.{IsOn as JournalIsOn, room_of, state_of};
    ghost use Rattle.conc_journal.specs.Receipts.{IsNextOf};
    ghost use Rattle.conc_run_desk.specs.Ties.{LeadStatesGoWith};
    ghost use Rattle.conc_run_state.specs.Adding.{AddsRecords};
    ghost use Rattle.conc_run_state.specs.Machines.{readings_of, StandsFor};
    ghost use Rattle.conc_base_law.specs.Kinds.{is_resume};
    ghost use Rattle.conc_base_law.specs.Law.{Lawful};
    ghost use Rattle.conc_outside.specs.Counts.{Rose};
    ghost use Rattle.conc_run_desk.specs.Keeping.{forced_at, Keeps, LeavesDisk, must_stop_at, SameList, Takes};
    ghost use Rattle.conc_run_desk.specs.Following.{SameBut};
    ghost use Rattle.conc_journal_spool.specs.Spools.{IsOn as SpoolIsOn};
    ghost use Rattle.conc_run_desk.specs.Logging.{IsItsTurn, IsLogged, IsUnlogged, WasSeen};
    ghost use Rattle.conc_run_steps.specs.Steps.{readings_in, SurvivesFor};
    ghost use Rattle.conc_run_desk.specs.Desks.{lead_state_at, plan_at, IsAt, IsLetIn, list_at, MovesOne, SwitchesFlag};

    /// A desk of a lead that let nothing out yet, and of a work whose parts stand for one list.
    pub fn new(plan: &'a Plan, lead: Lead, work: Work<'a>) -> Desk<'a>
        requires plan { plan.now ≡ plan_in work }
        requires seated { IsSeated (plan_in work) lead }
        requires none_let { (r : RequestId) → lead_state_of lead r ≡ lead_state.NotLet }
        requires parts { IsTied None work any_disk any_disk }
        ensures plan { result.plan ≡ plan.now }
        ensures lead { result.lead ≡ lead }
        ensures work { result.work ≡ work.entry }
        ensures kept { result.kept ≡ None }
        ensures begun_with { result.begun_with ≡ length (list_in work.entry) }
        ensures sound { IsFalse result.failed }
    {
        let begun_with = work.journal.events().len();
        Desk {
            plan,
            lead,
            work,
            kept: None,
            begun_with,
            failed: false,
        }
    }

    /// The journal's list.
    pub fn events(&self) -> &[Event]
        ensures { result.now ≡ list_at self.now }
    {
        self.work.journal.events()
    }

    /// The machine, which stands for the list. The list is lawful, and what the lead knows of each request goes
    /// with it.
    pub fn machine(&self) -> &Machine<'a>
        ensures machine { result.now ≡ self.now.work.machine }
        ensures stands { StandsFor result.now (reverse (list_at self.now)) }
        ensures readings { readings_of result.now ≡ Some (readings_in self.now.work) }
        ensures lawful { Lawful (plan_at self.now) (readings_in self.now.work) (list_at self.now) }
        ensures tied { LeadStatesGoWith (plan_at self.now)
            (reverse (list_at self.now)) self.now.lead }
    {
        &self.work.machine
    }

    /// Lets a request out on the board that is let in the list and does not run.
    pub fn release(&mut self, board: &Board, r: RequestId)
        requires at { IsAt board.now self.old }
        requires let_out { IsLetIn self.old r }
        requires lead_state { lead_state_at self.old r ≡ lead_state.NotLet }
        ensures moves { MovesOne board.now r self.old self.new }
        ensures lead_state { lead_state_at self.new r ≡ lead_state.Let }
        ensures found { FindsFitting r self.old.lead self.new.lead }
    {
        board.let_out(&mut self.lead, r);
    }

    /// Looks at a request that is let out or has the go.
    pub fn look(&mut self, board: &Board, r: RequestId) -> Looked
        requires at { IsAt board.now self.old }
        requires request { IsRequest (plan_of board.now) r }
        requires lead_state { IsLetOrGone (lead_state_at self.old r) }
        ensures moves { MovesOne board.now r self.old self.new }
        ensures lead_state { SeesLeadState board.now r result self.old.lead self.new.lead }
        ensures found { LeadFinds (request_word r) (Shows result) self.old.lead self.new.lead }
    {
        board.look(&mut self.lead, r)
    }

    /// How far a request has come on the board, in whatever lead state it is.
    pub fn progress(&mut self, board: &Board, r: RequestId) -> Progress
        requires at { IsAt board.now self.old }
        requires request { IsRequest (plan_of board.now) r }
        ensures moves { MovesOne board.now r self.old self.new }
        ensures progress { HasProgress result (lead_state_at self.old r) }
        ensures lead_state { LooksOn (lead_state_at self.old r) (lead_state_at self.new r) }
        ensures found { FindsFitting r self.old.lead self.new.lead }
    {
        board.progress(&mut self.lead, r)
    }

    /// Withdraws a request from the board that is let out and has no go. It stays let in the list.
    pub fn withdraw(&mut self, board: &Board, r: RequestId)
        requires at { IsAt board.now self.old }
        requires request { IsRequest (plan_of board.now) r }
        requires lead_state { IsLet (lead_state_at self.old r) }
        ensures moves { MovesOne board.now r self.old self.new }
        ensures lead_state { lead_state_at self.new r ≡ lead_state.NotLet }
        ensures found { FindsFitting r self.old.lead self.new.lead }
    {
        board.back(&mut self.lead, r);
    }

    /// Opens a place.
    pub fn open_place(&mut self, board: &Board, place: PlaceId)
        requires at { IsAt board.now self.old }
        requires place { IsPlace (plan_of board.now) place }
        ensures { SwitchesFlag board.now (place_word (plan_of board.now) place) 1 self.old self.new }
    {
        board.open_place(&mut self.lead, place);
    }

    /// Closes a place.
    pub fn close_place(&mut self, board: &Board, place: PlaceId)
        requires at { IsAt board.now self.old }
        requires place { IsPlace (plan_of board.now) place }
        ensures { SwitchesFlag board.now (place_word (plan_of board.now) place) 0 self.old self.new }
    {
        board.close_place(&mut self.lead, place);
    }

    /// Tells all hands that there is no more to come.
    pub fn finish_all(&mut self, board: &Board)
        requires at { IsAt board.now self.old }
        ensures { SwitchesFlag board.now (end_word (plan_of board.now)) 1 self.old self.new }
    {
        board.finish_all(&mut self.lead);
    }

    /// Journals an event and takes it into the machine, and then does what it means for the board: the go
    /// after a start; a request that is held or cancelled is withdrawn, one that is terminated is told to
    /// stop. After a fault list, machine and board are as they were. It takes no memory. Once an end could not be kept,
    /// no event may follow.
    pub fn log_event<D: Disk>(
        &mut self,
        board: &Board,
        journal: &mut D,
        event: Event,
    ) -> Result<Receipt, JournalFault>
        requires at { IsAt board.now self.old }
        requires on { JournalIsOn self.old.work.journal (D.state journal.old) }
        requires lawful { Lawful (plan_at self.old) (readings_in self.old.work)
            (list_at self.old ++ event ∷ []) }
        requires no_resume { IsFalse (is_resume event) }
        requires room { 0 < room_of self.old.work.journal }
        requires seen { WasSeen event self.old }
        requires turn { IsItsTurn self.old.kept event }
        requires sound { IsFalse self.old.failed }

        ensures at { IsAt board.now self.new }
        ensures parts { IsTied self.new.kept self.new.work any_disk any_disk }
        ensures on { JournalIsOn self.new.work.journal (D.state journal.new) }
        ensures logged { OnOk result (IsLogged event self.old self.new) }
        ensures receipt { IfOk result (IsNextOf (Some (list_at self.old))
            (λ list. list ≡ list_at self.new)) }
        ensures written { OnOk result (AddsRecords (plan_at self.old) (length (list_at self.old))
            (event ∷ []) (D.state journal.old) (D.state journal.new)) }
        ensures unlogged { OnErr result (IsUnlogged event self.old self.new) }
        ensures fault { OnErr result (Rose (D.state journal.old).faults (D.state journal.new).faults
            ⊎ IsTrue (has_faulted (state_of self.old.work.journal))) }
        ensures survives { SurvivesFor self.old.work (list_at self.old)
            (list_at self.old ++ event ∷ []) (D.state journal.old) (D.state journal.new) }
    {
        let receipt = add_event(&mut self.work, journal, event)?;
        self.kept = None;
        follow(board, &mut self.lead, self.plan, event);
        Ok(receipt)
    }

    /// Takes what was left for a request that has the go, and keeps its end, which may come next. One that has to stop
    /// ends as terminated, whatever was left; else the text of its report is brought to the spool's disk first.
    /// `NotYet` only where its word was found to run still. After a failure the request is done on the board, no end is kept,
    /// the list is as before, and the desk takes no event more. It takes no memory: the worker's report found none where it
    /// answers so.
    pub fn keep<E: Disk>(
        &mut self,
        board: &Board,
        spool: &mut E,
        r: RequestId,
    ) -> Result<Kept, KeepFail>
        requires at { IsAt board.now self.old }
        requires on { SpoolIsOn self.old.work.spool (E.state spool.old) }
        requires request { IsRequest (plan_of board.now) r }
        requires lead_state { IsGone (lead_state_at self.old r) }
        requires nothing_forced { forced_at self.old ≡ None }
        requires nothing_kept { self.old.kept ≡ None }

        ensures at { IsAt board.now self.new }
        ensures parts { IsTied self.new.kept self.new.work any_disk any_disk }
        ensures on { SpoolIsOn self.new.work.spool (E.state spool.new) }
        ensures takes { Takes board.now r result self.old self.new }
        ensures keeps { Keeps r result self.old self.new (E.state spool.old) (E.state spool.new) }
        ensures untouched { LeavesDisk result ⊎ IsTrue (must_stop_at self.old r)
            → spool.new ≡ spool.old }
        ensures list { SameList self.old self.new }
        ensures goes_on { OnOk result (self.new.failed ≡ self.old.failed) }
        ensures failed { OnErr result (IsTrue self.new.failed) }
        ensures others { SameBut r self.old.lead self.new.lead }
    {
        let Ok(posted) = board.collect(&mut self.lead, r) else {
            return Ok(Kept::NotYet);
        };
        let Some(next) = end_left(self.plan, &self.work, r, posted) else {
            self.failed = true;
            return Err(KeepFail::NoMemory);
        };
        match store_text(&mut self.work, spool, &next) {
            Ok(()) => {
                self.kept = Some(next.event);
                Ok(Kept::Ready(next.event))
            }
            Err(_) => {
                self.failed = true;
                Err(KeepFail::SpoolFault)
            }
        }
    }

    /// Gives the seat and the work back. The lead is in the middle of no call.
    pub fn into_parts(self) -> (Lead, Work<'a>)
        ensures parts { result ≡ (self.entry.lead, self.entry.work) }
        ensures seated { IsSeated (plan_in result.1) result.0 }
    {
        let Desk { lead, work, .. } = self;
        (lead, work)
    }
}
