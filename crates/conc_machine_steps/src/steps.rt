ghost use Rattle.std.specs.Prelude.{◌≡◌, [], IfOk};
ghost use Rattle.conc_base_law.specs.Next as spec;
ghost use Rattle.conc_base_law.specs.State.{state};
ghost use Rattle.conc_event_queue.specs.Written.{StaysKept, WasKept};
ghost use Rattle.conc_event_reach.specs.Spans.{AreSpans};
ghost use Rattle.conc_machine_steps.specs.Slots.{HasSlot, IsFirst, refreshed};
ghost use Rattle.conc_machine_steps.specs.Steps.{AreSteps};

use crate::slots::{least_request, refresh};
use conc_event_decisions::{has_step, set_step};
use conc_event_queue::Queue;
use conc_event_reach::Spans;
use conc_rules::parent;
use conc_types::{Event, Facts, NoMemory, Plan, Req, State};
use std::alloc::Global;

/// What is kept of the open sets that have something to do.
#[derive(Drop)]
pub struct Steps {
    // Their numbers.
    due: Queue,
}

impl Steps {
    /// What is kept before the first event. It takes all the memory that the other calls need.
    pub fn new(alloc: Global, plan: &Plan) -> Result<Steps, NoMemory>
        ensures { IfOk result (λ steps. AreSteps plan.now (state plan.now []) steps) }
    {
        Ok(Steps {
            due: Queue::new(alloc, plan.requests.len())?,
        })
    }

    // Decides anew whether a request is an open set that has something to do.
    fn refresh(&mut self, plan: &Plan, spans: &Spans, state: &State, r: &Req)
        requires spans { AreSpans plan.now spans.now }
        requires slot { HasSlot self.old.due r.now }
        ensures { self.new.due ≡ refreshed self.old.due r.now
            (spec.has_step plan.now state.now r.now) }
    {
        let due = has_step(plan, state, r, spans.members(plan, r.number));
        refresh(&mut self.due, r, due);
    }

    /// Takes in that the facts of the request at an index were written, which were these before.
    pub fn write(&mut self, plan: &Plan, spans: &Spans, after: &State, i: usize, _old: Facts)
        requires spans { AreSpans plan.now spans.now }
        requires related { WasKept (AreSteps plan.now) plan.now after.now i _old self.old }
        ensures { StaysKept (AreSteps plan.now) plan.now after.now i _old self.old self.new }
    {
        let r = &plan.requests.as_slice()[i];
        self.refresh(plan, spans, after, r);
        if let Some(set) = parent(plan, r) {
            self.refresh(plan, spans, after, set);
        }
    }

    #[tactic(auto, using(crate::proofs::Firsts::first_due))]
    fn first_due<'a>(&self, plan: &'a Plan, _state: &State) -> Option<&'a Req>
        requires { AreSteps plan.now _state.now self.now }
        ensures { IsFirst plan.now (spec.has_step plan.now _state.now) result }
    {
        least_request(&self.due, plan)
    }

    /// The stage or the close that is forced, if one is.
    #[tactic(auto, unfolding(conc_base_law::specs::Next::forced_step))]
    pub fn forced_step(&self, plan: &Plan, spans: &Spans, state: &State) -> Option<Event>
        requires spans { AreSpans plan.now spans.now }
        requires related { AreSteps plan.now state.now self.now }
        ensures { result ≡ spec.forced_step plan.now state.now }
    {
        match self.first_due(plan, state) {
            Some(set) => set_step(plan, state, set, spans.members(plan, set.number)),
            None => None,
        }
    }
}
