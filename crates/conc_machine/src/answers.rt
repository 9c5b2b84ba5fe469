ghost use Rattle.std.specs.Prelude.{◌≡◌, ◌&&◌, List, not};
ghost use Rattle.std.specs.List.{find};
ghost use Rattle.std.specs.Option.{option_and_then, option_map};
ghost use Rattle.conc_types.specs.declared.event.Event.{Event};
ghost use Rattle.conc_types.specs.declared.event.Event.TheVariants as event;
ghost use Rattle.conc_types.specs.declared.event.RequestId.{RequestId};
ghost use Rattle.conc_types.specs.declared.event.PlaceId.{PlaceId};
ghost use Rattle.conc_types.specs.Plans as plans_spec;
ghost use Rattle.conc_types.specs.Words.{some_and};
ghost use Rattle.conc_base_law.specs.Alone as alone_spec;
ghost use Rattle.conc_base_law.specs.Law.{may_follow};
ghost use Rattle.conc_base_law.specs.Next as next_spec;
ghost use Rattle.conc_base_law.specs.Next.{runs_somewhere};
ghost use Rattle.conc_base_law.specs.Places as places_spec;
ghost use Rattle.conc_base_law.specs.Readings as readings_spec;
ghost use Rattle.conc_base_law.specs.State as state_spec;
ghost use Rattle.conc_base_law.specs.State.{is_running, is_stopping, now, state};
ghost use Rattle.conc_base_law.specs.Status.{status_of};
ghost use Rattle.conc_machine.specs.StandsFor.{plan_of, readings_of, StandsFor};

use crate::forcing::forced;
use crate::judging::{is_at_rest, may_come, may_start, may_take};
use crate::machine::Machine;
use conc_event_decisions::{facts_at, status};
use conc_time::is_usable;
use conc_types::{Event, Phase, PlaceId, Reading, RequestId, Status};

impl<'p> Machine<'p> {
    // The next reading of this life, where its readings are known.
    fn known_next(&self) -> Option<Option<Reading>>
        ensures { (past : List Event) → StandsFor self.now past
            → result ≡ option_map (λ readings. readings_spec.next_reading readings past)
            (readings_of self.now) }
    {
        match &self.life {
            Some(life) => Some(life.next_reading()),
            None => None,
        }
    }

    /// Whether the event may come next.
    pub fn judge(&self, event: &Event) -> bool
        ensures { (past : List Event) → StandsFor self.now past
            → result ≡ may_follow (plan_of self.now) (readings_of self.now) past event.now }
    {
        may_come(self.plan, &self.indexes, self.known_next(), *event)
    }

    /// The event that is forced, if one is due.
    pub fn forced(&self) -> Option<Event>
        ensures { (past : List Event) → StandsFor self.now past
            → result ≡ next_spec.forced (plan_of self.now) (state (plan_of self.now) past) }
    {
        forced(self.plan, &self.indexes)
    }

    /// Whether a request may start at a place, where nothing is forced.
    pub fn may_start(&self, request: RequestId, place: PlaceId) -> bool
        ensures { (past : List Event) → StandsFor self.now past →
            result ≡ some_and (λ r. next_spec.may_start (plan_of self.now)
            (state (plan_of self.now) past) r place)
            (plans_spec.request (plan_of self.now) request) }
    {
        may_start(self.plan, &self.indexes, request, place)
    }

    /// The first let request in precedence that has an allowed place, with the first such place.
    pub fn first_start(&self) -> Option<(RequestId, PlaceId)>
        ensures { (past : List Event) → StandsFor self.now past →
            option_map (λ (start : RequestId × PlaceId). event.Started start.0 start.1) result
            ≡ alone_spec.first_start (plan_of self.now) (state (plan_of self.now) past) }
    {
        self.indexes
            .starts
            .first_start(self.plan, &self.indexes.state)
    }

    /// The request with the least number of those that run at a place.
    pub fn first_running(&self) -> Option<RequestId>
        ensures { (past : List Event) → StandsFor self.now past →
            result ≡ option_map (λ r. r.number)
            (find (runs_somewhere (state (plan_of self.now) past))
            (plan_of self.now).requests) }
    {
        match self.indexes.running.first(self.plan, &self.indexes.state) {
            Some(r) => Some(r.number),
            None => None,
        }
    }

    /// The next reading of this life, if one is left. Without readings there is none.
    pub fn next_reading(&self) -> Option<Reading>
        ensures { (past : List Event) → StandsFor self.now past
            → result ≡ option_and_then (λ readings. readings_spec.next_reading readings past)
            (readings_of self.now) }
    {
        match &self.life {
            Some(life) => life.next_reading(),
            None => None,
        }
    }

    /// Whether the next reading may be taken: one is left, and it is early or the system is at rest.
    pub fn may_tick(&self) -> bool
        ensures { (past : List Event) → StandsFor self.now past →
            result ≡ some_and (next_spec.may_take (plan_of self.now)
            (state (plan_of self.now) past))
            (option_and_then (λ readings. readings_spec.next_reading readings past)
            (readings_of self.now)) }
    {
        match self.next_reading() {
            Some(reading) => may_take(self.plan, &self.indexes, reading),
            None => false,
        }
    }

    /// Whether the system is at rest: nothing is forced, no request runs, and none may start.
    pub fn at_rest(&self) -> bool
        ensures { (past : List Event) → StandsFor self.now past
            → result ≡ next_spec.is_at_rest (plan_of self.now) (state (plan_of self.now) past) }
    {
        is_at_rest(self.plan, &self.indexes)
    }

    /// How many bytes of the spool the extents take, where 64 bits hold it.
    pub fn used(&self) -> Option<u64>
        ensures { (past : List Event) → StandsFor self.now past
            → result ≡ (state (plan_of self.now) past).used }
    {
        self.indexes.state.used
    }

    /// Whether a place may be used at the last tick. Before the first tick none may.
    pub fn usable(&self, place: PlaceId) -> bool
        ensures { (past : List Event) → StandsFor self.now past
            → result ≡ some_and (λ t. places_spec.is_usable (plan_of self.now) t place) (now past) }
    {
        match self.indexes.state.time {
            Some(t) => is_usable(self.plan, t, place),
            None => false,
        }
    }

    /// Whether a request has to stop: it runs, and was terminated.
    pub fn must_stop(&self, request: RequestId) -> bool
        ensures { (past : List Event) → StandsFor self.now past →
            result ≡ some_and (λ r. is_stopping
            (state_spec.facts_at (state (plan_of self.now) past) r))
            (plans_spec.request (plan_of self.now) request) }
    {
        match self.plan.request(request) {
            Some(r) => {
                let facts = facts_at(&self.indexes.state, r);
                facts.place.is_some() && facts.terminated
            }
            None => false,
        }
    }

    /// Whether a request is let, and does not run.
    pub fn waits_to_start(&self, request: RequestId) -> bool
        ensures { (past : List Event) → StandsFor self.now past →
            result ≡ some_and (λ r. (state_spec.facts_at (state (plan_of self.now) past) r).let_out
            && not (is_running (state_spec.facts_at (state (plan_of self.now) past) r)))
            (plans_spec.request (plan_of self.now) request) }
    {
        match self.plan.request(request) {
            Some(r) => {
                let facts = facts_at(&self.indexes.state, r);
                facts.let_out && facts.place.is_none()
            }
            None => false,
        }
    }

    /// The phase and status of a request; None exactly where it is not submitted.
    pub fn status(&self, request: RequestId) -> Option<(Phase, Status)>
        ensures { (past : List Event) → StandsFor self.now past →
            result ≡ option_and_then (status_of (plan_of self.now) (state (plan_of self.now) past))
            (plans_spec.request (plan_of self.now) request) }
    {
        match self.plan.request(request) {
            Some(r) => status(self.plan, &self.indexes.state, r),
            None => None,
        }
    }
}
