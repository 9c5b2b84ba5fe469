ghost use Rattle.std.specs.Prelude.{◌≡◌, not};
ghost use Rattle.std.specs.List.{list_any};
ghost use Rattle.conc_types.specs.Plans as plans_spec;
ghost use Rattle.conc_types.specs.Words.{some_and};
ghost use Rattle.conc_base_law.specs.Next as next_spec;
ghost use Rattle.conc_base_law.specs.Next.{may_start_somewhere, runs_somewhere};
ghost use Rattle.conc_machine.specs.Indexes.{AreIndexes};

use crate::forcing::forced;
use crate::indexes::Indexes;
use conc_event_decisions::{is_not_earlier, is_same_event, may_end_by_id};
use conc_rules::is_resume;
use conc_types::{Event, Moment, PlaceId, Plan, Reading, RequestId};

// ---- rest

fn none_runs(plan: &Plan, indexes: &Indexes) -> bool
    requires { AreIndexes plan.now indexes.now }
    ensures { result ≡ not (list_any (runs_somewhere indexes.now.state) plan.now.requests) }
{
    indexes.running.first(plan, &indexes.state).is_none()
}

fn none_may_start(plan: &Plan, indexes: &Indexes) -> bool
    requires { AreIndexes plan.now indexes.now }
    ensures { result ≡ not (list_any (may_start_somewhere plan.now indexes.now.state)
        plan.now.requests) }
{
    indexes.starts.first_start(plan, &indexes.state).is_none()
}

/// Whether the system is at rest: nothing is forced, no request runs, and none may start.
#[tactic(auto, unfolding(conc_base_law::specs::Next::is_at_rest))]
pub(crate) fn is_at_rest(plan: &Plan, indexes: &Indexes) -> bool
    requires { AreIndexes plan.now indexes.now }
    ensures { result ≡ next_spec.is_at_rest plan.now indexes.now.state }
{
    forced(plan, indexes).is_none() && none_runs(plan, indexes) && none_may_start(plan, indexes)
}

/// Whether the reading may be taken: at rest, or at any time if it is early.
#[tactic(auto, unfolding(conc_base_law::specs::Next::may_take))]
pub(crate) fn may_take(plan: &Plan, indexes: &Indexes, reading: Reading) -> bool
    requires { AreIndexes plan.now indexes.now }
    ensures { result ≡ next_spec.may_take plan.now indexes.now.state reading }
{
    reading.early || is_at_rest(plan, indexes)
}

// ---- single events

#[tactic(auto, unfolding(conc_base_law::specs::Next::may_tick))]
fn may_tick(plan: &Plan, indexes: &Indexes, next: Option<Option<Reading>>, t: Moment) -> bool
    requires { AreIndexes plan.now indexes.now }
    ensures { result ≡ next_spec.may_tick plan.now indexes.now.state next t }
{
    match next {
        Some(Some(reading)) => {
            t.seconds == reading.moment.seconds && may_take(plan, indexes, reading)
        }
        Some(None) => false,
        None => is_not_earlier(indexes.state.time, t),
    }
}

/// Whether the request with this number may start at a place.
pub(crate) fn may_start(plan: &Plan, indexes: &Indexes, id: RequestId, place: PlaceId) -> bool
    requires { AreIndexes plan.now indexes.now }
    ensures { result ≡ some_and (λ q. next_spec.may_start plan.now indexes.now.state q place)
        (plans_spec.request plan.now id) }
{
    match plan.request(id) {
        Some(r) => indexes.starts.may_start(plan, &indexes.state, r, place),
        None => false,
    }
}

#[tactic(auto, unfolding(conc_base_law::specs::Next::is_allowed))]
fn is_allowed(plan: &Plan, indexes: &Indexes, next: Option<Option<Reading>>, e: Event) -> bool
    requires { AreIndexes plan.now indexes.now }
    ensures { result ≡ next_spec.is_allowed plan.now indexes.now.state next e }
{
    match e {
        Event::Started { request, place } => may_start(plan, indexes, request, place),
        Event::Ended {
            request,
            outcome,
            extent,
        } => may_end_by_id(plan, &indexes.state, request, outcome, extent),
        Event::Tick { moment } => may_tick(plan, indexes, next, moment),
        _ => false,
    }
}

/// Whether the event may come next. `next` is the next reading of the last life, if one is left; it is
/// None in an earlier life, whose readings are not known.
#[tactic(auto, unfolding(conc_base_law::specs::Next::may_come))]
pub(crate) fn may_come(
    plan: &Plan,
    indexes: &Indexes,
    next: Option<Option<Reading>>,
    e: Event,
) -> bool
    requires { AreIndexes plan.now indexes.now }
    ensures { result ≡ next_spec.may_come plan.now indexes.now.state next e }
{
    if is_resume(e) {
        return !indexes.state.empty;
    }
    match forced(plan, indexes) {
        Some(due) => is_same_event(e, due),
        None => is_allowed(plan, indexes, next, e),
    }
}
