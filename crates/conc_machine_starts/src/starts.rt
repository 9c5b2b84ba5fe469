ghost use Rattle.std.specs.Prelude.{◌≡◌, ◌&&◌, not, ◌+◌, ◌<◌, ◌^◌, [], IfOk, map};
ghost use Rattle.std.specs.List.{find, list_any, range_with_len};
ghost use Rattle.std.specs.Option.{option_copied, option_map};
ghost use Rattle.conc_types.specs.declared.event.Event.TheVariants as event;
ghost use Rattle.conc_types.specs.declared.facts.State.{State};
ghost use Rattle.conc_types.specs.declared.plan.Plan.{Plan};
ghost use Rattle.conc_types.specs.Words.{some_and};
ghost use Rattle.conc_base_law.specs.Alone as alone_spec;
ghost use Rattle.conc_base_law.specs.Managers as managers_spec;
ghost use Rattle.conc_base_law.specs.Next as next_spec;
ghost use Rattle.conc_base_law.specs.Plans.{precedes};
ghost use Rattle.conc_base_law.specs.State.{is_running, state};
ghost use Rattle.conc_base_law.specs.Words.{first_by};
ghost use Rattle.conc_event_queue.specs.Least as least_spec;
ghost use Rattle.conc_event_queue.specs.Turns.{turns_of};
ghost use Rattle.conc_event_queue.specs.Written.{StaysKept, StaysKeptByTick, WasKept, WasKeptBeforeTick};
ghost use Rattle.conc_machine_starts.specs.Starts as starts_spec;
ghost use Rattle.conc_machine_starts.specs.Starts.{AreStarts};
ghost use Rattle.conc_machine_starts.specs.Updates as updates_spec;

use crate::updates::{enter, leave, refresh, renew};
use conc_event_decisions::facts_at;
use conc_event_queue::{Queue, lesser, request_at_turn};
use conc_rules::admits;
use conc_time::{place_count, place_of};
use conc_types::{Facts, Manager, NoMemory, PlaceId, Plan, Req, RequestId, Seq, State};
use std::alloc::Global;

/// What is kept of the requests that may start, and of the places.
#[derive(Drop)]
pub struct Starts {
    // For each manager the turns of the let requests that it admits and that do not run.
    queues: Vec<Queue>,
    // For each place the manager that has it.
    owners: Seq<u32>,
    // For each place how many requests run there.
    running: Seq<u32>,
    // For each place whether it may be used at the last tick.
    usable: Seq<bool>,
}

#[tactic(auto, unfolding(crate::specs::Starts::owner_of))]
fn owner_of(plan: &Plan, place: PlaceId) -> u32
    ensures { result ≡ starts_spec.owner_of plan.now place }
{
    match place_of(plan, place) {
        Some((owner, _, _)) => owner.saturating_sub(1),
        None => 0,
    }
}

impl Starts {
    /// What is kept before the first event. It takes all the memory that the other calls need.
    #[tactic(auto, using(crate::proofs::Ranges::one_place_more))]
    pub fn new(alloc: Global, plan: &Plan) -> Result<Starts, NoMemory>
        ensures { IfOk result (λ starts. AreStarts plan.now (state plan.now []) starts) }
    {
        let mut queues = Vec::with_capacity(alloc, plan.setup.managers.len())?;
        for manager in plan.setup.managers.as_slice() {
            let _manager = manager;
            queues.push(Queue::new(alloc, plan.requests.len())?)?;
        }
        let count = place_count(plan);
        let mut owners = Vec::with_capacity(alloc, count as usize)?;
        let mut running = Vec::with_capacity(alloc, count as usize)?;
        let mut usable = Vec::with_capacity(alloc, count as usize)?;
        for index in 0..count {
            owners.push(owner_of(plan, PlaceId { index }))?;
            running.push(0)?;
            usable.push(false)?;
        }
        Ok(Starts {
            queues,
            owners: Seq::from_vec(owners),
            running: Seq::from_vec(running),
            usable: Seq::from_vec(usable),
        })
    }

    /// Takes in that the facts of the request at an index were written, which were these before.
    pub fn write(&mut self, plan: &Plan, after: &State, i: usize, old: Facts)
        requires { WasKept (AreStarts plan.now) plan.now after.now i old self.old }
        ensures { StaysKept (AreStarts plan.now) plan.now after.now i old self.old self.new }
    {
        let r = &plan.requests.as_slice()[i];
        let facts = facts_at(after, r);
        refresh(
            self.queues.as_mut_slice(),
            plan.setup.managers.as_slice(),
            i,
            r,
            facts,
        );
        leave(&mut self.running, old.place);
        enter(&mut self.running, facts.place);
    }

    /// Takes in another moment of the last tick.
    pub fn tick(&mut self, plan: &Plan, after: &State)
        requires { WasKeptBeforeTick (AreStarts plan.now) after.now self.old }
        ensures { StaysKeptByTick (AreStarts plan.now) after.now self.old self.new }
    {
        renew(&mut self.usable, plan, after);
    }

    // Whether the place may be used, and none runs there.
    #[tactic(auto, unfolding(crate::specs::Updates::is_open))]
    fn is_open(&self, place: PlaceId) -> bool
        ensures { result ≡ updates_spec.is_open self.now place }
    {
        let index = place.index as usize;
        let usable = self.usable.as_slice().get(index).copied().unwrap_or(false);
        match self.running.as_slice().get(index) {
            Some(count) => usable && *count == 0,
            None => false,
        }
    }

    // The manager that has the place.
    #[tactic(auto, unfolding(crate::specs::Updates::manager_at))]
    fn manager_at<'a>(&self, plan: &'a Plan, place: PlaceId) -> Option<&'a Manager>
        ensures { option_copied result ≡ updates_spec.manager_at plan.now self.now place }
    {
        let owner = *self.owners.as_slice().get(place.index as usize)?;
        plan.setup.managers.as_slice().get(owner as usize)
    }

    // Whether the manager that has the place admits the request.
    fn is_admitted_at(&self, plan: &Plan, place: PlaceId, r: &Req) -> bool
        ensures { result ≡ some_and (λ manager. managers_spec.admits manager r.now)
            (updates_spec.manager_at plan.now self.now place) }
    {
        match self.manager_at(plan, place) {
            Some(manager) => admits(manager, r),
            None => false,
        }
    }

    // The queue of the manager that has the place.
    #[tactic(auto, unfolding(crate::specs::Updates::queue_at))]
    fn queue_at(&self, place: PlaceId) -> Option<&Queue>
        ensures { option_copied result ≡ updates_spec.queue_at self.now place }
    {
        let owner = *self.owners.as_slice().get(place.index as usize)?;
        self.queues.as_slice().get(owner as usize)
    }

    // Whether a request with these facts may start at a place.
    fn may_start_by(&self, plan: &Plan, facts: Facts, r: &Req, place: PlaceId) -> bool
        ensures { result ≡ (facts.let_out
            && (not (is_running facts) && (updates_spec.is_open self.now place
            && some_and (λ manager. managers_spec.admits manager r.now)
            (updates_spec.manager_at plan.now self.now place)))) }
    {
        facts.let_out
            && facts.place.is_none()
            && self.is_open(place)
            && self.is_admitted_at(plan, place, r)
    }

    /// Whether a request may start at a place.
    pub fn may_start(&self, plan: &Plan, state: &State, r: &Req, place: PlaceId) -> bool
        requires { AreStarts plan.now state.now self.now }
        ensures { result ≡ next_spec.may_start plan.now state.now r.now place }
    {
        self.may_start_by(plan, facts_at(state, r), r, place)
    }

    // The least turn of the requests that may start at the place.
    fn least_turn_at(&self, place: PlaceId) -> Option<u64>
        ensures { (plan : Plan) (s : State) → AreStarts plan s self.now
            → result ≡ least_spec.least (turns_of (λ r. next_spec.may_start plan s r place)
            plan.requests) }
    {
        if self.is_open(place) {
            self.queue_at(place)?.least()
        } else {
            None
        }
    }

    // The least turn of the requests that may start at one of so many places from an index on.
    fn least_turn(&self, from: u32, count: u32) -> Option<u64>
        requires { from + count < 2 ^ 32 }
        ensures { (plan : Plan) (s : State) → AreStarts plan s self.now
            → result ≡ least_spec.least (turns_of
            (λ r. list_any (next_spec.may_start plan s r)
            (map (λ index. record { index = index }) (range_with_len from count))) plan.requests) }
    {
        if count == 0 {
            return None;
        }
        lesser(
            self.least_turn_at(PlaceId { index: from }),
            self.least_turn(from + 1, count - 1),
        )
    }

    // The first of so many places from an index on at which r may start.
    fn first_place(
        &self,
        plan: &Plan,
        state: &State,
        r: &Req,
        from: u32,
        count: u32,
    ) -> Option<PlaceId>
        requires related { AreStarts plan.now state.now self.now }
        requires few { from + count < 2 ^ 32 }
        ensures { result ≡ find (next_spec.may_start plan.now state.now r.now)
            (map (λ index. record { index = index }) (range_with_len from count)) }
    {
        if count == 0 {
            return None;
        }
        if self.may_start(plan, state, r, PlaceId { index: from }) {
            return Some(PlaceId { index: from });
        }
        self.first_place(plan, state, r, from + 1, count - 1)
    }

    // The first request in precedence that may start at some place.
    fn first_request<'a>(&self, plan: &'a Plan) -> Option<&'a Req>
        ensures { (s : State) → AreStarts plan.now s self.now
            → option_copied result ≡ first_by precedes (next_spec.may_start_somewhere plan.now s)
            plan.now.requests }
    {
        let turn = self.least_turn(0, place_count(plan))?;
        request_at_turn(plan, turn)
    }

    /// The first let request in precedence that may start at some place, with the first such place.
    #[tactic(auto, unfolding(conc_base_law::specs::Alone::first_start, conc_base_law::specs::Places::all_places))]
    pub fn first_start(&self, plan: &Plan, state: &State) -> Option<(RequestId, PlaceId)>
        requires { AreStarts plan.now state.now self.now }
        ensures { option_map (λ start. event.Started start.0 start.1) result
            ≡ alone_spec.first_start plan.now state.now }
    {
        let r = self.first_request(plan)?;
        let place = self.first_place(plan, state, r, 0, place_count(plan))?;
        Some((r.number, place))
    }
}
