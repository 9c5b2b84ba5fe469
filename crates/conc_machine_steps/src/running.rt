ghost use Rattle.std.specs.Prelude.{◌≡◌, [], IfOk};
ghost use Rattle.conc_base_law.specs.Next as spec;
ghost use Rattle.conc_base_law.specs.State.{state};
ghost use Rattle.conc_event_queue.specs.Written.{StaysKept, WasKept};
ghost use Rattle.conc_machine_steps.specs.Slots.{IsFirst};
ghost use Rattle.conc_machine_steps.specs.Steps.{AreRunning};

use crate::slots::{least_request, refresh};
use conc_event_decisions::{is_left_running, runs_somewhere};
use conc_event_queue::Queue;
use conc_types::{Event, Facts, NoMemory, Plan, Req, State};
use std::alloc::Global;

/// What is kept of the requests that run.
#[derive(Drop)]
pub struct Running {
    // The numbers of those that run.
    all: Queue,
    // The numbers of those that run since an earlier life.
    left: Queue,
}

impl Running {
    /// What is kept before the first event. It takes all the memory that the other calls need.
    pub fn new(alloc: Global, plan: &Plan) -> Result<Running, NoMemory>
        ensures { IfOk result (λ running. AreRunning plan.now (state plan.now []) running) }
    {
        Ok(Running {
            all: Queue::new(alloc, plan.requests.len())?,
            left: Queue::new(alloc, plan.requests.len())?,
        })
    }

    /// Takes in that the facts of the request at an index were written, which were these before.
    pub fn write(&mut self, plan: &Plan, after: &State, i: usize, _old: Facts)
        requires { WasKept (AreRunning plan.now) plan.now after.now i _old self.old }
        ensures { StaysKept (AreRunning plan.now) plan.now after.now i _old self.old self.new }
    {
        let r = &plan.requests.as_slice()[i];
        refresh(&mut self.all, r, runs_somewhere(after, r));
        refresh(&mut self.left, r, is_left_running(after, r));
    }

    /// The request with the least number of those that run.
    #[tactic(auto, using(crate::proofs::Firsts::first_running))]
    pub fn first<'a>(&self, plan: &'a Plan, _state: &State) -> Option<&'a Req>
        requires { AreRunning plan.now _state.now self.now }
        ensures { IsFirst plan.now (spec.runs_somewhere _state.now) result }
    {
        least_request(&self.all, plan)
    }

    #[tactic(auto, using(crate::proofs::Firsts::first_left))]
    fn first_left<'a>(&self, plan: &'a Plan, _state: &State) -> Option<&'a Req>
        requires { AreRunning plan.now _state.now self.now }
        ensures { IsFirst plan.now (spec.is_left_running _state.now) result }
    {
        least_request(&self.left, plan)
    }

    /// The interrupt that is forced, if one is.
    #[tactic(auto, unfolding(conc_base_law::specs::Next::forced_interrupt))]
    pub fn forced_interrupt(&self, plan: &Plan, state: &State) -> Option<Event>
        requires { AreRunning plan.now state.now self.now }
        ensures { result ≡ spec.forced_interrupt plan.now state.now }
    {
        match self.first_left(plan, state) {
            Some(r) => Some(Event::Interrupt { request: r.number }),
            None => None,
        }
    }
}
