ghost use Rattle.std.specs.Prelude.{◌≡◌};
ghost use Rattle.std.specs.List.{list_any};
ghost use Rattle.conc_types.specs.Plans as plans_spec;
ghost use Rattle.conc_types.specs.Words.{some_and};
ghost use Rattle.conc_base_law.specs.Next as next_spec;
ghost use Rattle.conc_base_law.specs.Places as places_spec;

use crate::lookup::{facts_at, is_running, is_stopping};
use conc_time::{is_admitted_at, is_usable};
use conc_types::{Extent, Outcome, PlaceId, Plan, Req, RequestId, State};

// ---- starts

/// Whether the place is usable at the last tick.
pub fn is_usable_now(plan: &Plan, state: &State, place: PlaceId) -> bool
    ensures { result ≡ some_and (λ t. places_spec.is_usable plan.now t place) state.now.time }
{
    match state.time {
        Some(t) => is_usable(plan, t, place),
        None => false,
    }
}

// ---- ends

#[tactic(auto, unfolding(conc_base_law::specs::Next::is_next_extent))]
fn is_next_extent(state: &State, extent: Extent) -> bool
    ensures { result ≡ next_spec.is_next_extent state.now extent }
{
    match state.used {
        Some(used) => extent.offset == used && extent.length > 0,
        None => false,
    }
}

fn is_report_outcome(outcome: Outcome) -> bool
    ensures { result ≡ next_spec.is_report_outcome outcome }
{
    matches!(outcome, Outcome::Normal | Outcome::Warning | Outcome::Error)
}

/// Whether `r` may end so: it runs, and is Terminated without an extent if it was terminated, else
/// Normal, Warning or Error with an extent that is not empty and begins where all earlier ones end.
#[tactic(auto, unfolding(conc_base_law::specs::Next::may_end))]
pub fn may_end(state: &State, r: &Req, outcome: Outcome, extent: Option<Extent>) -> bool
    ensures { result ≡ next_spec.may_end state.now r.now outcome extent }
{
    let facts = facts_at(state, r);
    if !is_running(facts) {
        return false;
    }
    if is_stopping(facts) {
        return matches!(outcome, Outcome::Terminated) && extent.is_none();
    }
    match extent {
        Some(extent) => is_report_outcome(outcome) && is_next_extent(state, extent),
        None => false,
    }
}

// ---- who runs

/// Whether r runs.
#[tactic(auto, unfolding(conc_base_law::specs::Next::runs_somewhere))]
pub fn runs_somewhere(state: &State, r: &Req) -> bool
    ensures { result ≡ next_spec.runs_somewhere state.now r.now }
{
    is_running(facts_at(state, r))
}

/// Whether the plan has this request, and it may end so.
pub fn may_end_by_id(
    plan: &Plan,
    state: &State,
    id: RequestId,
    outcome: Outcome,
    extent: Option<Extent>,
) -> bool
    ensures { result ≡ some_and (λ q. next_spec.may_end state.now q outcome extent)
        (plans_spec.request plan.now id) }
{
    match plan.request(id) {
        Some(r) => may_end(state, r, outcome, extent),
        None => false,
    }
}
