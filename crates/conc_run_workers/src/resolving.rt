// The resolver's way through a history: what is forced; the ends that hands left and the starts that they wait for; the next
// reading. It works by the desk's calls alone.
ghost use Rattle.std.specs.Prelude.{IfOk, IsTrue, OnOk};
ghost use Rattle.conc_run_steps.specs.Steps.{IsFinished};

use crate::boarding::{let_out, release, release_all, set_places, withdraw};
use crate::crew::Shared;
use conc_board::{Looked, Progress};
use conc_disk::Disk;
use conc_journal::Teller;
use conc_pool_lanes::LeadPass;
use conc_run_desk::Desk;
use conc_run_state::RunFail;
use conc_time::place_count;
use conc_types::{Event, PlaceId, RequestId};
use std::hint;
use std::sync::Wait;

// How often the resolver looks at the places before it sleeps.
const LOOKS: u32 = 1_024;

/// What the resolver keeps beside its desk, so that hands and it find work at once.
#[derive(Drop)]
pub(crate) struct Hints {
    /// The pass that puts into the lanes.
    pub(crate) pass: LeadPass,
    /// For each place the request that was started there last.
    pub(crate) started: Vec<Option<RequestId>>,
}

/// What makes the history: it works at the board, with the desk and its two disks, tells each event, and fills the lanes. It owns
/// nothing, so that whoever lends to it knows afterwards what was made of it.
#[derive(Drop)]
pub(crate) struct Resolver<'a, 'l, 'p, D: Disk, E: Disk, T: Teller> {
    pub(crate) shared: &'a Shared<'l>,
    pub(crate) desk: &'a mut Desk<'p>,
    pub(crate) journal: &'a mut D,
    pub(crate) spool: &'a mut E,
    pub(crate) teller: &'a mut T,
    pub(crate) hints: &'a mut Hints,
}

// Keeps in mind which request was started at a place.
fn note(started: &mut [Option<RequestId>], place: PlaceId, r: RequestId) {
    if let Some(last) = started.get_mut(place.index as usize) {
        *last = Some(r);
    }
}

impl<D: Disk, E: Disk, T: Teller> Resolver<'_, '_, '_, D, E, T> {
    ghost use Rattle.conc_run_workers.specs.Resolvers.{HasLetOut, IsOfPlan, MayBegin, MayStep, Steps};

    // ---- single events

    // Journals what is forced, if anything is. A request that is let is let out on the board, and put into the lanes. True
    // where something was.
    fn settle_one<R: Wait>(&mut self, rt: &R) -> Result<bool, RunFail>
        requires { MayStep D.Disk E.Disk T.Teller self.old }
        ensures { Steps D.Disk E.Disk T.Teller result self.old self.new }
    {
        let Some(event) = self.desk.machine().forced() else {
            return Ok(false);
        };
        self.log(rt, event)?;
        let_out(
            rt,
            &self.shared.board,
            &self.shared.lanes,
            self.desk,
            &mut self.hints.pass,
            event,
        );
        Ok(true)
    }

    // Journals what is forced, until nothing is.
    fn settle<R: Wait>(&mut self, rt: &R) -> Result<(), RunFail>
        requires { MayStep D.Disk E.Disk T.Teller self.old }
        ensures { Steps D.Disk E.Disk T.Teller result self.old self.new }
    {
        for _ in rt.forever() {
            if !self.settle_one(rt)? {
                return Ok(());
            }
        }
        unreachable!()
    }

    // Takes the next reading if it may be taken, and then opens and closes places. True where it did.
    fn take_reading<R: Wait>(&mut self, rt: &R) -> Result<bool, RunFail>
        requires { MayStep D.Disk E.Disk T.Teller self.old }
        ensures { Steps D.Disk E.Disk T.Teller result self.old self.new }
    {
        let machine = self.desk.machine();
        if machine.forced().is_some() {
            return Ok(false);
        }
        if !machine.may_tick() {
            return Ok(false);
        }
        let Some(reading) = machine.next_reading() else {
            return Ok(false);
        };
        let tick = Event::Tick {
            moment: reading.moment,
        };
        self.log(rt, tick)?;
        set_places(&self.shared.board, self.desk);
        Ok(true)
    }

    // Starts a request that a hand claims, if it may start at that place. A claim at a place that may not be used is withdrawn,
    // and the request is let out again. True where something was done.
    fn start<R: Wait>(&mut self, rt: &R, r: RequestId) -> Result<bool, RunFail>
        requires may_step { MayStep D.Disk E.Disk T.Teller self.old }
        requires request { IsOfPlan self.old r }
        requires let_out { HasLetOut self.old r }
        ensures { Steps D.Disk E.Disk T.Teller result self.old self.new }
    {
        let Looked::Claimed(place) = self.desk.look(&self.shared.board, r) else {
            return Ok(false);
        };
        let machine = self.desk.machine();
        if machine.forced().is_some() {
            return Ok(false);
        }
        if machine.may_start(r, place) {
            let event = Event::Started { request: r, place };
            self.log(rt, event)?;
            note(self.hints.started.as_mut_slice(), place, r);
            return Ok(true);
        }
        if machine.usable(place) {
            return Ok(false);
        }
        withdraw(&self.shared.board, self.desk, r);
        release(&self.shared.board, self.desk, r);
        Ok(true)
    }

    // ---- looks

    // Looks at a request and does what can be done for it. True where something was done.
    fn look_at<R: Wait>(&mut self, rt: &R, r: RequestId) -> Result<bool, RunFail>
        requires { MayStep D.Disk E.Disk T.Teller self.old }
        ensures { Steps D.Disk E.Disk T.Teller result self.old self.new }
    {
        if self.desk.machine().plan().request(r).is_none() {
            return Ok(false);
        }
        match self.desk.progress(&self.shared.board, r) {
            Progress::NotLet => Ok(release(&self.shared.board, self.desk, r)),
            Progress::Let => self.start(rt, r),
            Progress::Gone => self.end(rt, r),
            Progress::Done => Ok(false),
        }
    }

    // The same, and where something was done, all that is forced then.
    fn see_to<R: Wait>(&mut self, rt: &R, r: RequestId) -> Result<bool, RunFail>
        requires { MayStep D.Disk E.Disk T.Teller self.old }
        ensures { Steps D.Disk E.Disk T.Teller result self.old self.new }
    {
        let done = self.look_at(rt, r)?;
        if done {
            self.settle(rt)?;
        }
        Ok(done)
    }

    // Looks at what was started last at a place. True where something was done.
    fn see_to_started<R: Wait>(&mut self, rt: &R, place: PlaceId) -> Result<bool, RunFail>
        requires { MayStep D.Disk E.Disk T.Teller self.old }
        ensures { Steps D.Disk E.Disk T.Teller result self.old self.new }
    {
        match self
            .hints
            .started
            .get(place.index as usize)
            .copied()
            .flatten()
        {
            Some(r) => self.see_to(rt, r),
            None => Ok(false),
        }
    }

    // Looks at what was claimed last for a place. True where something was done.
    fn see_to_claimed<R: Wait>(&mut self, rt: &R, place: PlaceId) -> Result<bool, RunFail>
        requires { MayStep D.Disk E.Disk T.Teller self.old }
        ensures { Steps D.Disk E.Disk T.Teller result self.old self.new }
    {
        match self.shared.board.last_claim(place) {
            Some(r) => self.see_to(rt, r),
            None => Ok(false),
        }
    }

    // Looks at what was started last and what was claimed last for each place. True where something was done.
    fn see_to_places<R: Wait>(&mut self, rt: &R) -> Result<bool, RunFail>
        requires { MayStep D.Disk E.Disk T.Teller self.old }
        ensures { Steps D.Disk E.Disk T.Teller result self.old self.new }
    {
        let mut any = false;
        for index in 0..place_count(self.desk.machine().plan()) {
            let place = PlaceId { index };
            any = self.see_to_started(rt, place)? || any;
            any = self.see_to_claimed(rt, place)? || any;
        }
        Ok(any)
    }

    // Looks at each request. True where something was done.
    fn see_to_all<R: Wait>(&mut self, rt: &R) -> Result<bool, RunFail>
        requires { MayStep D.Disk E.Disk T.Teller self.old }
        ensures { Steps D.Disk E.Disk T.Teller result self.old self.new }
    {
        let plan = self.desk.machine().plan();
        let mut any = false;
        for request in plan.requests.as_slice() {
            any = self.see_to(rt, request.number)? || any;
        }
        Ok(any)
    }

    // ---- turns

    // Waits for the hands. It sleeps only once it looked at each request after it said so.
    fn wait_for_hands<R: Wait>(&mut self, rt: &R) -> Result<(), RunFail>
        requires { MayStep D.Disk E.Disk T.Teller self.old }
        ensures { Steps D.Disk E.Disk T.Teller result self.old self.new }
    {
        for _ in 0..LOOKS {
            hint::spin_loop();
            if self.see_to_places(rt)? {
                return Ok(());
            }
        }
        let key = self.shared.board.lead_bell().prepare_wait();
        if self.see_to_all(rt)? {
            return Ok(());
        }
        key.wait(rt);
        Ok(())
    }

    // Does what can be done, or waits for the hands. True where the history is finished.
    fn turn<R: Wait>(&mut self, rt: &R) -> Result<bool, RunFail>
        requires { MayStep D.Disk E.Disk T.Teller self.old }
        ensures steps { Steps D.Disk E.Disk T.Teller result self.old self.new }
        ensures finished { IfOk result (λ finished. IsTrue finished
            → IsFinished self.new.desk.now.work) }
    {
        self.settle(rt)?;
        if self.see_to_places(rt)? {
            return Ok(false);
        }
        if self.take_reading(rt)? {
            return Ok(false);
        }
        if self.desk.machine().at_rest() && self.desk.machine().next_reading().is_none() {
            return Ok(true);
        }
        self.wait_for_hands(rt)?;
        Ok(false)
    }

    /// Goes on from the journal's list to the end of the history, beside the hands.
    pub(crate) fn resolve<R: Wait>(&mut self, rt: &R) -> Result<(), RunFail>
        requires { MayBegin D.Disk E.Disk T.Teller self.old }
        ensures steps { Steps D.Disk E.Disk T.Teller result self.old self.new }
        ensures finished { OnOk result (IsFinished self.new.desk.now.work) }
    {
        set_places(&self.shared.board, self.desk);
        self.settle(rt)?;
        release_all(&self.shared.board, self.desk);
        for _ in rt.forever() {
            if self.turn(rt)? {
                return Ok(());
            }
        }
        unreachable!()
    }
}
