ghost use Rattle.std.specs.Prelude.{◌≡◌, ◌+◌, ◌<◌, ◌^◌, is_some, map, slice_get};
ghost use Rattle.std.specs.List.{list_any, range_with_len};
ghost use Rattle.conc_types.specs.Plans as plans_spec;
ghost use Rattle.conc_types.specs.Words.{some_and};
ghost use Rattle.conc_base_law.specs.Next as next_spec;
ghost use Rattle.conc_base_law.specs.Next.{may_start_somewhere};
ghost use Rattle.conc_event_queue.specs.Least.{least};
ghost use Rattle.conc_history_check.specs.At as at_spec;
ghost use Rattle.conc_history_check.specs.Kept.{IsKept};
ghost use Rattle.conc_history_check.specs.Starts as spec;

use crate::position::Position;
use conc_event_decisions::{facts_at, is_usable_now};
use conc_time::{is_admitted_at, place_count};
use conc_types::{Facts, PlaceId, Req, RequestId};

// ---- what runs

fn facts_of(position: Position<'_>, i: usize) -> Option<Facts>
    ensures { result ≡ slice_get position.entry.state.now.facts i }
{
    position.state.facts.as_slice().get(i).copied()
}

fn runs_here(position: Position<'_>, place: PlaceId, i: usize) -> bool
    ensures { result ≡ at_spec.here_at place (slice_get position.entry.state.now.facts i) }
{
    match facts_of(position, i) {
        Some(Facts { place: Some(p), .. }) => p.index == place.index,
        _ => false,
    }
}

/// Whether a request runs.
#[tactic(auto, using(crate::proofs::Firsts::any_running))]
pub(crate) fn one_runs(position: Position<'_>) -> bool
    requires { IsKept position }
    ensures { result ≡ list_any (next_spec.runs_somewhere position.entry.state.now)
        position.entry.plan.now.requests }
{
    position.marks.running.least().is_some()
}

// Whether a request runs at the place.
fn is_taken(position: Position<'_>, place: PlaceId) -> bool
    requires { IsKept position }
    ensures { result ≡ list_any (next_spec.runs_at position.entry.state.now place)
        position.entry.plan.now.requests }
{
    for i in position.active.from..position.active.to {
        if runs_here(position, place, i) {
            return true;
        }
    }
    false
}

// ---- what may start

// Whether the request may start at the place: it is let and does not run, the manager of the place admits it, the place is usable
// at the last tick, and no request runs there.
#[tactic(auto, unfolding(conc_base_law::specs::Next::may_start, conc_base_law::specs::Next::is_vacant))]
fn may_start(position: Position<'_>, r: &Req, place: PlaceId) -> bool
    requires { IsKept position }
    ensures { result ≡ next_spec.may_start position.entry.plan.now position.entry.state.now r.now place }
{
    let facts = facts_at(position.state, r);
    facts.let_out
        && facts.place.is_none()
        && is_admitted_at(position.plan, place, r)
        && is_usable_now(position.plan, position.state, place)
        && !is_taken(position, place)
}

/// Whether the plan has this request, and it may start at the place.
pub(crate) fn may_start_by_id(position: Position<'_>, id: RequestId, place: PlaceId) -> bool
    requires { IsKept position }
    ensures { result ≡ some_and (λ q. next_spec.may_start position.entry.plan.now position.entry.state.now q place)
        (plans_spec.request position.entry.plan.now id) }
{
    match position.plan.request(id) {
        Some(r) => may_start(position, r, place),
        None => false,
    }
}

fn one_may_start(position: Position<'_>, place: PlaceId) -> bool
    requires { IsKept position }
    ensures { result ≡ spec.one_may_start position.entry.plan.now position.entry.state.now place }
{
    for i in position.active.from..position.active.to {
        if may_start(position, &position.plan.requests.as_slice()[i], place) {
            return true;
        }
    }
    false
}

// Whether a request may start at the place. It looks at the requests only where the place is usable and no request runs there.
fn one_may_start_at(position: Position<'_>, place: PlaceId) -> bool
    requires { IsKept position }
    ensures { result ≡ spec.one_may_start position.entry.plan.now position.entry.state.now place }
{
    if !is_usable_now(position.plan, position.state, place) {
        return false;
    }
    if is_taken(position, place) {
        return false;
    }
    one_may_start(position, place)
}

// Whether a request may start at one of so many places from an index on.
fn one_may_start_among(position: Position<'_>, from: u32, count: u32) -> bool
    requires kept { IsKept position }
    requires few { from + count < 2 ^ 32 }
    ensures { result ≡ list_any (spec.one_may_start position.entry.plan.now position.entry.state.now)
        (map (λ index. record { index = index }) (range_with_len from count)) }
{
    count > 0
        && (one_may_start_at(position, PlaceId { index: from })
            || one_may_start_among(position, from + 1, count - 1))
}

// Whether a request is let out and does not run.
fn one_waits(position: Position<'_>) -> bool
    ensures { result ≡ is_some (least position.entry.marks.now.waiting) }
{
    position.marks.waiting.least().is_some()
}

/// Whether a request may start somewhere. It looks at places only where one is let out and does not run.
pub(crate) fn one_may_start_somewhere(position: Position<'_>) -> bool
    requires { IsKept position }
    ensures { result ≡ list_any (may_start_somewhere position.entry.plan.now position.entry.state.now)
        position.entry.plan.now.requests }
{
    if !one_waits(position) {
        return false;
    }
    one_may_start_among(position, 0, place_count(position.plan))
}
