ghost use Rattle.std.specs.Prelude.{◌≡◌, ◌-◌, ◌<◌, ◌≤◌, IfOk, [], length, slice_index_or, slice_set};
ghost use Rattle.std.specs.Bool.{then_some};
ghost use Rattle.conc_base_law.specs.Next as next_spec;
ghost use Rattle.conc_base_law.specs.State as state_spec;
ghost use Rattle.conc_base_law.specs.Words.{Has};
ghost use Rattle.conc_event_classes.specs.Classes.{AreClasses};
ghost use Rattle.conc_event_queue.specs.Turns as turns_spec;
ghost use Rattle.conc_history_check.specs.Marks as spec;
ghost use Rattle.conc_history_check.specs.Marks.{AreMarkedAround, AreMarkedNear, AreMarkedWithin, AreQueues, HasSlot, HaveRoom, IsMarked, KeepsMarks};
ghost use Rattle.conc_history_check.specs.Prepared.{IsPrepared};

use crate::prepared::Prepared;
use crate::ready::is_ready;
use conc_event_classes::Classes;
use conc_event_decisions::{
    facts_at, has_come, has_step, is_left_running, is_live, runs_somewhere,
};
use conc_event_queue::{Queue, turn};
use conc_event_reach::Span;
use conc_rules::parent;
use conc_types::{NoMemory, Plan, Req, State};
use std::alloc::Global;

/// Requests at which something may be due, in queues with a slot for each request, so that the first of them is known at once. In
/// those of the ready ones their turns stand, and in the others their numbers.
#[derive(Drop)]
pub(crate) struct Marks {
    /// Those that ran at the stop of the system.
    pub left: Queue,
    /// Those that run.
    pub running: Queue,
    /// Those that are let out and do not run.
    pub waiting: Queue,
    /// The open sets that have a step.
    pub steps: Queue,
    /// For each class its live ones.
    pub live: Vec<Queue>,
    /// For each class those that can be let out unless a live request excludes them.
    pub ready: Vec<Queue>,
}

// ---- slots

// For each class a queue in which no request has a key.
fn vacant_queues(alloc: Global, _plan: &Plan, classes: &Classes) -> Result<Vec<Queue>, NoMemory>
    requires { AreClasses _plan.now classes.now }
    ensures { IfOk result (λ queues. AreQueues _plan.now classes.now queues.items) }
{
    if classes.count() > u32::MAX as usize {
        return Err(NoMemory);
    }
    let count = classes.count() as u32;
    let mut queues = Vec::with_capacity(alloc, count as usize)?;
    for class in 0..count {
        let size = classes.size(class);
        queues.push(Queue::new(alloc, size as usize)?)?;
    }
    Ok(queues)
}

// Gives a request its number in a queue where it passes, or none.
fn put_number(queue: &mut Queue, r: &Req, passes: bool)
    requires { HasSlot queue.old r.now }
    ensures { queue.new ≡ slice_set queue.old (r.now.number.number - 1)
        (then_some passes r.now.number.number) }
{
    let number = r.number.number;
    queue.put(number as usize - 1, passes.then_some(number as u64));
}

// Gives a slot in the queue of a class this key, or none.
fn put_in_class(queues: &mut Vec<Queue>, class: usize, slot: usize, key: Option<u64>)
    requires queue { class < length queues.old.items }
    requires slot { slot < length (slice_index_or queues.old.items class []) }
    ensures { queues.new.items ≡ slice_set queues.old.items class
        (slice_set (slice_index_or queues.old.items class []) slot key) }
{
    queues[class].put(slot, key);
}

// ---- what is said of a request

// Whether r is let out and does not run.
#[tactic(auto, unfolding(crate::specs::Marks::waits_to_start))]
fn waits_to_start(state: &State, r: &Req) -> bool
    ensures { result ≡ spec.waits_to_start state.now r.now }
{
    let facts = facts_at(state, r);
    facts.let_out && facts.place.is_none()
}

// The number of r, if it is live.
fn live_number(state: &State, r: &Req) -> Option<u64>
    ensures { result ≡ then_some (state_spec.is_live (state_spec.facts_at state.now r.now))
        r.now.number.number }
{
    is_live(facts_at(state, r)).then_some(r.number.number as u64)
}

// The turn of r, if it is ready.
fn ready_turn(plan: &Plan, prepared: &Prepared, state: &State, r: &Req) -> Option<u64>
    requires prepared { IsPrepared plan.now prepared.now }
    requires known { Has plan.now.requests r.now }
    ensures { result ≡ then_some (next_spec.is_ready plan.now state.now r.now) (turns_spec.turn r.now) }
{
    is_ready(plan, prepared, state, r).then_some(turn(r))
}

impl Marks {
    /// No request in any queue, with room for all. It takes all the memory that the other calls need.
    pub fn vacant(alloc: Global, plan: &Plan, classes: &Classes) -> Result<Marks, NoMemory>
        requires { AreClasses plan.now classes.now }
        ensures { IfOk result (HaveRoom plan.now classes.now) }
    {
        let count = plan.requests.len();
        Ok(Marks {
            left: Queue::new(alloc, count)?,
            running: Queue::new(alloc, count)?,
            waiting: Queue::new(alloc, count)?,
            steps: Queue::new(alloc, count)?,
            live: vacant_queues(alloc, plan, classes)?,
            ready: vacant_queues(alloc, plan, classes)?,
        })
    }

    /// Puts a request anew: what is said of it is what the state says.
    pub fn put(&mut self, plan: &Plan, prepared: &Prepared, state: &State, r: &Req)
        requires prepared { IsPrepared plan.now prepared.now }
        requires room { HaveRoom plan.now prepared.now.classes self.old }
        requires known { Has plan.now.requests r.now }
        ensures room { HaveRoom plan.now prepared.now.classes self.new }
        ensures kept { KeepsMarks plan.now prepared.now.classes state.now self.old self.new }
        ensures own { IsMarked plan.now prepared.now.classes state.now r.now self.new }
    {
        put_number(&mut self.left, r, is_left_running(state, r));
        put_number(&mut self.running, r, runs_somewhere(state, r));
        put_number(&mut self.waiting, r, waits_to_start(state, r));
        let step = has_step(plan, state, r, prepared.spans.members(plan, r.number));
        put_number(&mut self.steps, r, step);
        let class = prepared.classes.class(r) as usize;
        let slot = prepared.classes.slot(r) as usize;
        put_in_class(&mut self.live, class, slot, live_number(state, r));
        let turn = ready_turn(plan, prepared, state, r);
        put_in_class(&mut self.ready, class, slot, turn);
    }

    // Puts the requests within a span anew.
    fn put_span(&mut self, plan: &Plan, prepared: &Prepared, state: &State, span: Span)
        requires prepared { IsPrepared plan.now prepared.now }
        requires room { HaveRoom plan.now prepared.now.classes self.old }
        requires inside { span.to ≤ length plan.now.requests }
        ensures room { HaveRoom plan.now prepared.now.classes self.new }
        ensures kept { KeepsMarks plan.now prepared.now.classes state.now self.old self.new }
        ensures within { AreMarkedWithin plan.now prepared.now.classes state.now span self.new }
    {
        for i in span.from..span.to {
            self.put(plan, prepared, state, &plan.requests.as_slice()[i]);
        }
    }

    // Puts a request anew, its members, and the set of which it is a member.
    fn put_near(&mut self, plan: &Plan, prepared: &Prepared, state: &State, r: &Req)
        requires prepared { IsPrepared plan.now prepared.now }
        requires room { HaveRoom plan.now prepared.now.classes self.old }
        requires known { Has plan.now.requests r.now }
        ensures room { HaveRoom plan.now prepared.now.classes self.new }
        ensures kept { KeepsMarks plan.now prepared.now.classes state.now self.old self.new }
        ensures near { AreMarkedNear plan.now prepared.now.classes state.now r.now self.new }
    {
        self.put(plan, prepared, state, r);
        let members = prepared.spans.span_of_members(r.number);
        self.put_span(plan, prepared, state, members);
        if let Some(set) = parent(plan, r) {
            self.put(plan, prepared, state, set);
        }
    }

    /// Puts those anew of which something can depend on a request within a span.
    pub fn put_around(&mut self, plan: &Plan, prepared: &Prepared, state: &State, span: Span)
        requires prepared { IsPrepared plan.now prepared.now }
        requires room { HaveRoom plan.now prepared.now.classes self.old }
        requires inside { span.to ≤ length plan.now.requests }
        ensures room { HaveRoom plan.now prepared.now.classes self.new }
        ensures kept { KeepsMarks plan.now prepared.now.classes state.now self.old self.new }
        ensures around { AreMarkedAround plan.now prepared.now.classes state.now span self.new }
    {
        for i in span.from..span.to {
            self.put_near(plan, prepared, state, &plan.requests.as_slice()[i]);
        }
    }
}
