ghost use Rattle.std.specs.Prelude.{◌≡◌, ◌≤◌, length, slice_get};
ghost use Rattle.conc_history_check.specs.Active as spec;
ghost use Rattle.conc_history_check.specs.Active.{AreDoneBefore, AreQuiet, IsActive, IsFirstUndone};

use conc_event_decisions::{is_completed, is_live};
use conc_event_reach::Span;
use conc_types::{Facts, Plan, State};
use std::cmp::min;

// Whether nothing can be due for a request with these facts: it is neither live nor runs, and it is not entered yet, or completed.
fn is_quiet(own: Facts) -> bool
    ensures { result ≡ spec.is_quiet own }
{
    !is_live(own) && own.place.is_none() && (!own.entered || is_completed(own))
}

// So of the request at an index. Its facts stand at the same index.
fn is_quiet_at(state: &State, i: usize) -> bool
    ensures { result ≡ spec.quiet_at (slice_get state.now.facts i) }
{
    match state.facts.as_slice().get(i) {
        Some(own) => is_quiet(*own),
        None => true,
    }
}

/// The span without the quiet requests at both of its ends.
pub(crate) fn narrowed(_plan: &Plan, state: &State, span: Span) -> Span
    requires quiet { AreQuiet state.now span }
    requires inside { span.to ≤ length _plan.now.requests }
    ensures { IsActive _plan.now state.now result }
{
    let mut to = span.to;
    let mut from = min(span.from, to);
    while from < to && is_quiet_at(state, from) {
        from += 1;
    }
    while from < to && is_quiet_at(state, to - 1) {
        to -= 1;
    }
    Span { from, to }
}

// Whether the command at a place, from 0, is done.
fn is_done_at(state: &State, place: usize) -> bool
    ensures { result ≡ spec.done_at state.now place }
{
    state.done.as_slice().get(place).copied().unwrap_or(false)
}

/// The place of the first command that is not done, from 0. Each before a place is done.
pub(crate) fn first_undone(state: &State, from: usize) -> usize
    requires { AreDoneBefore state.now from }
    ensures { IsFirstUndone state.now result }
{
    let mut place = from;
    while place < state.done.len() && is_done_at(state, place) {
        place += 1;
    }
    place
}
