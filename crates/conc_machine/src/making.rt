ghost use Rattle.std.specs.Prelude.{◌≡◌, [], ◌∷◌, IfOk, List, None, OnErr, OnOk, Some};
ghost use Rattle.std.specs.Option.{option_map};
ghost use Rattle.conc_types.specs.declared.event.Event.{Event};
ghost use Rattle.conc_base_law.specs.Before.{last_life};
ghost use Rattle.conc_base_law.specs.State.{now, state};
ghost use Rattle.conc_machine.specs.Indexes.{AreIndexes};
ghost use Rattle.conc_machine.specs.StandsFor.{FitLife, plan_of, readings_of, StandsFor};

use crate::LifeReadings;
use crate::indexes::Indexes;
use crate::machine::Machine;
use crate::taking::take_in;
use conc_event_classes::Classes;
use conc_event_effects::begin;
use conc_event_reach::{Span, Spans};
use conc_machine_release::Lets;
use conc_machine_starts::Starts;
use conc_machine_steps::{Running, Steps};
use conc_types::{Event, Moment, NoMemory, Plan, Readings};
use std::alloc::Global;

// What is kept before the first event.
fn begun(alloc: Global, plan: &Plan) -> Result<Indexes, NoMemory>
    ensures indexes { IfOk result (λ indexes. AreIndexes plan.now indexes) }
    ensures none { IfOk result (λ indexes. indexes.state ≡ state plan.now []) }
{
    let classes = Classes::new(alloc, plan)?;
    Ok(Indexes {
        spans: Spans::new(alloc, plan)?,
        state: begin(alloc, plan)?,
        running: Running::new(alloc, plan)?,
        steps: Steps::new(alloc, plan)?,
        lets: Lets::new(alloc, plan, &classes)?,
        starts: Starts::new(alloc, plan)?,
        classes,
        next_command: 0,
        started: Span::NONE,
    })
}

// Takes one more event into a life, if its readings are known. The last tick came at a moment.
fn live_on(life: &mut Option<LifeReadings>, e: Event, time: Option<Moment>)
    ensures readings { option_map (λ life. life.readings.list) life.new
        ≡ option_map (λ life. life.readings.list) life.old }
    ensures lives { (past : List Event) → time ≡ now past → FitLife life.old past
        → FitLife life.new (e ∷ past) }
{
    if let Some(life) = life {
        life.take_in(e, time);
    }
}

impl<'p> Machine<'p> {
    /// The machine that stands for no events. It takes all the memory that later calls need, but for the
    /// readings.
    #[tactic(auto, unfolding(crate::specs::StandsFor::readings_of))]
    pub fn new(alloc: Global, plan: &'p Plan) -> Result<Machine<'p>, NoMemory>
        ensures plan { IfOk result (λ machine. plan_of machine ≡ plan.now) }
        ensures readings { IfOk result (λ machine. readings_of machine ≡ None) }
        ensures stands { IfOk result (λ machine. StandsFor machine []) }
    {
        Ok(Machine {
            plan,
            indexes: begun(alloc, plan)?,
            life: None,
        })
    }

    /// The plan.
    pub fn plan(&self) -> &'p Plan
        ensures { result.now ≡ plan_of self.now }
    {
        self.plan
    }

    /// Takes the readings of the life that begins here. From here on a tick is judged by them, where it
    /// was judged as one of an earlier life before. Without memory the machine stays as it was.
    pub fn take_readings(&mut self, alloc: Global, readings: &Readings) -> Result<(), NoMemory>
        ensures plan { plan_of self.new ≡ plan_of self.old }
        ensures readings { OnOk result (readings_of self.new ≡ Some readings.now.list) }
        ensures stands { OnOk result ((past : List Event) → last_life past ≡ []
            → StandsFor self.old past → StandsFor self.new past) }
        ensures err { OnErr result (self.new ≡ self.old) }
    {
        let life = LifeReadings::new(alloc, readings, self.indexes.state.time)?;
        self.life = Some(life);
        Ok(())
    }

    /// Takes in one more event. It takes no memory.
    pub fn apply(&mut self, event: Event)
        ensures plan { plan_of self.new ≡ plan_of self.old }
        ensures readings { readings_of self.new ≡ readings_of self.old }
        ensures stands { (past : List Event) → StandsFor self.old past
            → StandsFor self.new (event ∷ past) }
    {
        let time = self.indexes.state.time;
        live_on(&mut self.life, event, time);
        take_in(self.plan, &mut self.indexes, event);
    }
}
