ghost use Rattle.std.specs.Prelude.{◌≡◌, ◌∷◌, ◌+◌, ◌<◌, ◌^◌, [], IfOk, List};
ghost use Rattle.conc_types.specs.declared.event.Event.{Event};
ghost use Rattle.conc_event_effects.specs.Advance.{IsAfter};
ghost use Rattle.conc_event_reach.specs.Started.{AreStartedWithin};
ghost use Rattle.conc_history_check.specs.Active.{IsActive, IsFirstUndone};
ghost use Rattle.conc_history_check.specs.Coming.{AreComing};
ghost use Rattle.conc_history_check.specs.Findings.{AreFindings, HasTaken, earlier_after, ticks_after};
ghost use Rattle.conc_history_check.specs.Marks.{HaveRoom};
ghost use Rattle.conc_history_check.specs.Prepared.{IsPrepared};

use crate::active::{first_undone, narrowed};
use crate::coming::{come, renew_all};
use crate::marks::Marks;
use crate::prepared::Prepared;
use conc_event_effects::begin;
use conc_event_queue::Queue;
use conc_event_reach::Span;
use conc_history_replay::take_in;
use conc_types::{Event, Moment, NoMemory, Plan, State};
use std::alloc::Global;

/// What is read of the events before a position.
#[derive(Drop)]
pub(crate) struct Findings {
    pub state: State,
    /// The moment of the last tick before the last life.
    pub earlier: Option<Moment>,
    /// How many ticks the last life has.
    pub ticks: usize,
    /// At which requests something may be due.
    pub marks: Marks,
    /// Those whose start has not come.
    pub coming: Queue,
    /// Where requests may be active: each other one is quiet.
    pub active: Span,
    /// The place of the first command that is not done, from 0.
    pub undone: usize,
    /// Where the requests stand that were started in this life.
    pub started: Span,
}

impl Findings {
    /// What no events say, with room for what any events of the plan say.
    pub fn new(alloc: Global, plan: &Plan, prepared: &Prepared) -> Result<Findings, NoMemory>
        requires { IsPrepared plan.now prepared.now }
        ensures { IfOk result (AreFindings plan.now prepared.now []) }
    {
        let state = begin(alloc, plan)?;
        let active = Span {
            from: 0,
            to: plan.requests.len(),
        };
        let mut marks = Marks::vacant(alloc, plan, &prepared.classes)?;
        let mut coming = Queue::new(alloc, plan.requests.len())?;
        renew_all(&mut marks, &mut coming, plan, prepared, &state);
        Ok(Findings {
            undone: first_undone(&state, 0),
            state,
            earlier: None,
            ticks: 0,
            marks,
            coming,
            active,
            started: Span::NONE,
        })
    }

    // Notes a tick of the last life, or the end of that life.
    #[inline(always)]
    fn note_life(&mut self, e: &Event)
        requires { self.old.ticks + 1 < 2 ^ 64 }
        ensures earlier { self.new.earlier
            ≡ earlier_after self.old.state.time self.old.earlier e.now }
        ensures ticks { self.new.ticks ≡ ticks_after self.old.ticks e.now }
        ensures state { self.new.state ≡ self.old.state }
        ensures marks { self.new.marks ≡ self.old.marks }
        ensures coming { self.new.coming ≡ self.old.coming }
        ensures undone { self.new.undone ≡ self.old.undone }
        ensures started { self.new.started ≡ self.old.started }
    {
        match *e {
            Event::Tick { .. } => self.ticks += 1,
            Event::Resume => {
                self.earlier = self.state.time;
                self.ticks = 0;
            }
            _ => {}
        }
    }

    // Reads one more event.
    #[inline(always)]
    fn take_in(&mut self, plan: &Plan, prepared: &Prepared, e: &Event)
        requires prepared { IsPrepared plan.now prepared.now }
        requires few { self.old.ticks + 1 < 2 ^ 64 }
        requires started { AreStartedWithin plan.now self.old.state.facts self.old.started }
        ensures read { (past : List Event) → HasTaken plan.now past self.old
            → HasTaken plan.now (e.now ∷ past) self.new }
        ensures after { IsAfter plan.now self.old.state self.new.state e.now }
        ensures marks { self.new.marks ≡ self.old.marks }
        ensures coming { self.new.coming ≡ self.old.coming }
        ensures undone { self.new.undone ≡ self.old.undone }
        ensures started { AreStartedWithin plan.now self.new.state.facts self.new.started }
    {
        self.note_life(e);
        take_in(
            plan,
            &prepared.spans,
            &prepared.entries,
            &mut self.state,
            &mut self.started,
            e,
        );
    }

    /// Reads one more event, and keeps what stands behind it. It takes no memory.
    pub fn read(&mut self, plan: &Plan, prepared: &Prepared, e: &Event)
        requires prepared { IsPrepared plan.now prepared.now }
        requires few { self.old.ticks + 1 < 2 ^ 64 }
        requires room { HaveRoom plan.now prepared.now.classes self.old.marks }
        requires coming { AreComing plan.now self.old.state.time self.old.coming }
        requires active { IsActive plan.now self.old.state self.old.active }
        requires undone { IsFirstUndone self.old.state self.old.undone }
        requires started { AreStartedWithin plan.now self.old.state.facts self.old.started }
        ensures { (past : List Event) → AreFindings plan.now prepared.now past self.old
            → AreFindings plan.now prepared.now (e.now ∷ past) self.new }
    {
        let before = self.state.time;
        let reached = prepared.spans.reach_in_life(plan, self.started, *e);
        let touched = self.active.cover(reached);
        self.take_in(plan, prepared, e);
        self.active = narrowed(plan, &self.state, touched);
        self.undone = first_undone(&self.state, self.undone);
        self.marks.put_around(plan, prepared, &self.state, reached);
        come(
            &mut self.marks,
            &mut self.coming,
            plan,
            prepared,
            &self.state,
            before,
        );
    }
}
