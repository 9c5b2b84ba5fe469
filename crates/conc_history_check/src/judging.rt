ghost use Rattle.std.specs.Prelude.{◌≡◌};
ghost use Rattle.conc_base_law.specs.Next as spec;
ghost use Rattle.conc_history_check.specs.Kept.{IsKept};
ghost use Rattle.conc_history_check.specs.Prepared.{IsPrepared};

use crate::forcing::forced;
use crate::position::Position;
use crate::starts::{may_start_by_id, one_may_start_somewhere, one_runs};
use conc_event_decisions::{is_not_earlier, is_same_event, may_end_by_id};
use conc_rules::is_resume;
use conc_types::{Event, Moment, Reading};

// ---- rest

/// Whether the system is at rest: nothing is forced, no request runs, and none may start.
#[tactic(auto, unfolding(conc_base_law::specs::Next::is_at_rest))]
pub(crate) fn is_at_rest(position: Position<'_>) -> bool
    requires prepared { IsPrepared position.plan.now position.prepared.now }
    requires kept { IsKept position }
    ensures { result ≡ spec.is_at_rest position.entry.plan.now position.entry.state.now }
{
    forced(position).is_none() && !one_runs(position) && !one_may_start_somewhere(position)
}

#[tactic(auto, unfolding(conc_base_law::specs::Next::may_take))]
fn may_take(position: Position<'_>, reading: Reading) -> bool
    requires prepared { IsPrepared position.plan.now position.prepared.now }
    requires kept { IsKept position }
    ensures { result ≡ spec.may_take position.entry.plan.now position.entry.state.now reading }
{
    reading.early || is_at_rest(position)
}

// ---- single events

#[tactic(auto, unfolding(conc_base_law::specs::Next::may_tick))]
fn may_tick(position: Position<'_>, next: Option<Option<Reading>>, t: Moment) -> bool
    requires prepared { IsPrepared position.plan.now position.prepared.now }
    requires kept { IsKept position }
    ensures { result ≡ spec.may_tick position.entry.plan.now position.entry.state.now next t }
{
    match next {
        Some(Some(reading)) => {
            t.seconds == reading.moment.seconds && may_take(position, reading)
        }
        Some(None) => false,
        None => is_not_earlier(position.state.time, t),
    }
}

#[tactic(auto, unfolding(conc_base_law::specs::Next::is_allowed))]
fn is_allowed(position: Position<'_>, next: Option<Option<Reading>>, e: Event) -> bool
    requires prepared { IsPrepared position.plan.now position.prepared.now }
    requires kept { IsKept position }
    ensures { result ≡ spec.is_allowed position.entry.plan.now position.entry.state.now next e }
{
    match e {
        Event::Started { request, place } => may_start_by_id(position, request, place),
        Event::Ended {
            request,
            outcome,
            extent,
        } => may_end_by_id(position.plan, position.state, request, outcome, extent),
        Event::Tick { moment } => may_tick(position, next, moment),
        _ => false,
    }
}

/// Whether the event may come next. `next` is the next reading of the last life, if one is left; it is
/// None in an earlier life, whose readings are not known.
#[tactic(auto, unfolding(conc_base_law::specs::Next::may_come))]
pub(crate) fn may_come(position: Position<'_>, next: Option<Option<Reading>>, e: Event) -> bool
    requires prepared { IsPrepared position.plan.now position.prepared.now }
    requires kept { IsKept position }
    ensures { result ≡ spec.may_come position.entry.plan.now position.entry.state.now next e }
{
    if is_resume(e) {
        return !position.state.empty;
    }
    match forced(position) {
        Some(due) => is_same_event(e, due),
        None => is_allowed(position, next, e),
    }
}
